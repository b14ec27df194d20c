//! A canonical text, as far as it has been written.

use crate::prices::canonical::rows::{add_heads, add_payments};
use crate::prices::payment_sink::PaymentSink;
use csv::Writer;
use pb_election::Election;
use pb_records::record_writer;
use std::alloc::{AllocError, Global};

/// A canonical text with the head and the rows of the voters so far.
#[derive(Drop)]
pub struct CanonicalDraft<'a> {
    election: &'a Election,
    writer: Writer<Vec<u8>>,
}

impl<'a> CanonicalDraft<'a> {
    ghost use Rattle.std.specs.Prelude.{◌≡◌, [], IfOk};
    ghost use Rattle.pb_election.specs.Instance.{Instance, projects};
    ghost use Rattle.pb_election.specs.Text.{IsElection};
    ghost use Rattle.pb_certificate.specs.Prices.Canon.{Canon};
    ghost use Rattle.pb_certificate.specs.Inside.Prices.CanonicalDrafts.{HasWritten};
    ghost use Rattle.pb_certificate.specs.Prices.{Prices, PricesFit};

    /// The head alone.
    pub fn new(
        alloc: Global,
        election: &'a Election,
        denominator: u32,
        budget: u128,
    ) -> Result<CanonicalDraft<'a>, AllocError>
        requires { IsElection election.now }
        ensures { IfOk result (λ d. HasWritten d election.now (record { projects = projects election.now; denominator = denominator; budget = budget; payments = [] })) }
    {
        let mut writer = record_writer::open(alloc);
        add_heads(&mut writer, denominator, budget)?;
        Ok(CanonicalDraft { election, writer })
    }

    /// The text, which has the rows of all voters.
    pub fn into_text(self) -> Result<Vec<u8>, AllocError>
        ensures { (e : Instance) (p : Prices) → HasWritten self.entry e p → PricesFit p e → IfOk result (λ text. text.items ≡ Canon e p) }
    {
        let CanonicalDraft {
            election: _,
            writer,
        } = self;
        record_writer::close(writer)
    }
}

impl<'a> PaymentSink for CanonicalDraft<'a> {
    ghost use Rattle.pb_certificate.specs.Inside.Prices.CanonicalDrafts.{HasWritten};

    ghost Has = { HasWritten };

    fn take(&mut self, voter: u32, payments: &[(u32, u128)]) -> Result<(), AllocError> {
        add_payments(&mut self.writer, self.election, voter, payments)
    }
}
