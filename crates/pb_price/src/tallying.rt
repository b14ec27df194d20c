//! Where the payments of a tally are taken from: the rows of a certificate, or prices that were read.

ghost use Rattle.std.specs.Prelude.{◌≡◌, ◌+◌, ◌⊎◌, [], IfErr, IfOk};
ghost use Rattle.pb_election.specs.Instance.{IsVoter, voters};
ghost use Rattle.pb_records.specs.FirstFault.{IsFirstFault};
ghost use Rattle.pb_certificate.specs.Faults.{Refuses, no_memory, price_form};
ghost use Rattle.pb_certificate.specs.Prices.{PricesFit};
ghost use Rattle.pb_certificate.specs.Prices.Rows.{given};
ghost use Rattle.pb_price.specs.Inside.Tallying.{IsTallied, TakesCertificate, TakesUntil, taken_from};
ghost use Rattle.pb_price.specs.Inside.Tallies.{Tallied};

use crate::open_tally::OpenTally;
use crate::tally::Tally;
use pb_certificate::{CertRefusal, PriceRow, Prices, Rows};
use pb_election::Election;
use pb_money::payment_grains;
use std::alloc::Global;

/// The tally of all rows of a certificate, and the denominator that they are over.
#[derive(Drop)]
pub(crate) struct CertificateTally {
    pub denominator: u32,
    pub tally: Tally,
}

/// Takes all rows of the bytes of a certificate, each once, and closes all voters, or refuses the bytes.
pub(crate) fn take_certificate(
    alloc: Global,
    election: &Election,
    bytes: &[u8],
) -> Result<CertificateTally, CertRefusal>
    ensures taken { IfOk result (λ t. IsTallied election.now bytes.now t) }
    ensures refused { IfErr result (λ r. (r ≡ no_memory) ⊎ Refuses (price_form election.now) bytes.now r) }
{
    let rows = Rows::open(alloc, bytes, election)?;
    let denominator = rows.denominator();
    let budget = payment_grains(rows.budget());
    let mut so_far = OpenTally::new(alloc, election, budget)?;
    take_rows(&mut so_far, election, rows)?;
    so_far.finish(election);
    Ok(CertificateTally {
        denominator,
        tally: so_far.tally,
    })
}

// Takes all rows that a certificate has left, each once, or refuses the first that has a fault.
fn take_rows(so_far: &mut OpenTally, election: &Election, rows: Rows) -> Result<(), CertRefusal>
    requires election { rows.election ≡ election.now }
    requires none_given { given rows ≡ [] }
    requires tallied { Tallied election.now (taken_from rows) so_far.old }
    requires none_closed { (so_far.old).tally.closed ≡ 0 }
    ensures taken { IfOk result (λ done. TakesCertificate rows.entry so_far.new) }
    ensures refused { IfErr result (λ r. (r ≡ no_memory) ⊎ IsFirstFault (price_form election.now) (rows.entry).records r.record_number r.fault) }
{
    let mut left = rows;
    loop {
        let (behind, row) = left.next()?;
        left = behind;
        match row {
            Some(row) => so_far.take(election, row),
            None => return Ok(()),
        }
    }
}

/// Takes all payments of these prices, voter by voter.
pub(crate) fn take_prices(so_far: &mut OpenTally, election: &Election, prices: &Prices)
    requires prices { PricesFit prices.now election.now }
    requires none { TakesUntil election.now prices.now 1 0 so_far.old }
    ensures { TakesUntil election.now prices.now (voters election.now + 1) 0 so_far.new }
{
    for k in 0..election.voters() {
        take_payments_of(so_far, election, prices, k + 1);
    }
}

// Takes the payments of voter i.
fn take_payments_of(so_far: &mut OpenTally, election: &Election, prices: &Prices, i: u32)
    requires prices { PricesFit prices.now election.now }
    requires voter { IsVoter election.now i }
    requires before { TakesUntil election.now prices.now i 0 so_far.old }
    ensures { TakesUntil election.now prices.now (i + 1) 0 so_far.new }
{
    let payments = prices.payments_of(i);
    for (project, numerator) in payments {
        let row = PriceRow {
            voter: i,
            project: *project,
            payment: *numerator,
        };
        so_far.take(election, row);
    }
}
