//! The canonical text of prices.
ghost use Rattle.std.specs.Prelude.{◌≡◌, ◌⊎◌, ◌++◌, IfErr, IfOk, IsErrOf, MatchResult, OnOk};
ghost use Rattle.std.specs.Io.KnownBytes.{Appends};
ghost use Rattle.pb_records.specs.Loading.{AppendsFront, IsFlushed, Rises};
ghost use Rattle.pb_records.specs.Inside.RecordWriter.{IsOpen, held};
ghost use Rattle.pb_certificate.specs.Prices.Canon.{Canon, IsCanonOf, lines, payment_rows};
ghost use Rattle.pb_certificate.specs.Faults.{Refuses, certificate_records, no_memory, price_form};
ghost use Rattle.pb_certificate.specs.Prices.Text.{IsPriceText};
ghost use Rattle.pb_certificate.specs.Prices as spec;
ghost use Rattle.pb_certificate.specs.Prices.{PricesFit};

use crate::prices::canonical::draft::CanonicalDraft;
use crate::prices::canonical::rows::{add_heads, add_payments};
use crate::prices::gathering::gather;
use crate::{CertRefusal, Prices, Rows};
use csv::Writer;
use pb_election::Election;
use pb_records::{Sink, put, record_writer};
use std::alloc::{AllocError, Global};

mod draft;
mod rows;

/// Why prices were not written.
#[derive(Clone, Copy, Debug, PartialEq, Eq)]
pub enum WriteFault {
    /// Out of memory. Nothing was written.
    Memory,
    /// The writer failed. A prefix of the text was written.
    Write,
}

// Adds the rows of all voters.
fn add_rows(
    writer: &mut Writer<Vec<u8>>,
    prices: &Prices,
    election: &Election,
) -> Result<(), AllocError>
    requires open { IsOpen writer.old }
    requires fits { PricesFit prices.now election.now }
    ensures open { OnOk result (IsOpen writer.new) }
    ensures text { OnOk result (held writer.new ≡ held writer.old ++ lines (payment_rows election.now prices.now)) }
{
    for voter in 1..=election.voters() {
        add_payments(writer, election, voter, prices.payments_of(voter))?;
    }
    Ok(())
}

/// The canonical text of the prices that the bytes of a price certificate state for an election, or the first fault, as
/// `Prices::read` tells it. It takes memory for the text and for the payments of one voter, and none for the prices.
pub fn canonical_text_of(
    alloc: Global,
    bytes: &[u8],
    election: &Election,
) -> Result<Vec<u8>, CertRefusal>
    ensures found { IfOk result (λ text. IsCanonOf (certificate_records bytes.now) election.now text.items) }
    ensures refused { IfErr result (λ r. (r ≡ no_memory) ⊎ Refuses (price_form election.now) bytes.now r) }

    // Where the bytes state prices, the canonical text is that of those, memory aside.
    ensures only { (p : spec.Prices) → IsPriceText (certificate_records bytes.now) election.now p → MatchResult result (λ text. text.items ≡ Canon election.now p) (λ r. r ≡ no_memory) }
{
    let rows = Rows::open(alloc, bytes, election)?;
    let voters = election.voters();
    let mut draft = CanonicalDraft::new(alloc, election, rows.denominator(), rows.budget())?;
    gather(alloc, rows, voters, &mut draft)?;
    let text = draft.into_text()?;
    Ok(text)
}

impl Prices {
    /// The canonical text of a price certificate with these prices, as `write` writes it. The prices are to be for as
    /// many voters and projects as the election has. A refusal means out of memory.
    pub fn canonical_text(&self, alloc: Global, election: &Election) -> Result<Vec<u8>, AllocError>
        requires { PricesFit self.now election.now }
        ensures { IfOk result (λ text. text.items ≡ Canon election.now self.now) }
    {
        let mut writer = record_writer::open(alloc);
        add_heads(&mut writer, self.denominator(), self.budget())?;
        add_rows(&mut writer, self, election)?;
        record_writer::close(writer)
    }

    /// Writes the canonical text of a price certificate with these prices, and flushes: the four head records, and then
    /// a row for each payment that is not 0, by rising voter and then rising project. The prices are to be for as many
    /// voters and projects as the election has. `Write` comes only where the writer failed. `Memory` comes only after a
    /// failed allocation, which is tested and not proved.
    pub fn write<W: Sink>(
        &self,
        alloc: Global,
        election: &Election,
        sink: &mut W,
    ) -> Result<(), WriteFault>
        requires { PricesFit self.now election.now }
        ensures all { OnOk result (Appends (W.holds sink.old) (W.holds sink.new) (Canon election.now self.now)) }
        ensures flushed { OnOk result (IsFlushed (W.counts sink.old) (W.counts sink.new)) }
        ensures calm { OnOk result ((W.counts sink.new).failures ≡ (W.counts sink.old).failures) }

        // Where the writer fails, a front of the text was written.
        ensures front { IsErrOf result WriteFault.Write → AppendsFront (W.holds sink.old) (W.holds sink.new) (Canon election.now self.now) }
        ensures failed { IsErrOf result WriteFault.Write → Rises (W.counts sink.old).failures (W.counts sink.new).failures }

        // Where memory is wanting, the writer was not called.
        ensures memory { IsErrOf result WriteFault.Memory → sink.new ≡ sink.old }
    {
        let Ok(text) = self.canonical_text(alloc, election) else {
            return Err(WriteFault::Memory);
        };
        let Ok(()) = put(&text, sink) else {
            return Err(WriteFault::Write);
        };
        Ok(())
    }
}
