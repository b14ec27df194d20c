//! The rows of a price certificate.
ghost use Rattle.std.specs.Prelude.{◌≡◌, ◌≤◌, ◌==◌, None, Some, MatchResult, IfOk, IfSome, length};
ghost use Rattle.csv.specs.Records.{fields_of};
ghost use Rattle.pb_election.specs.Instance.{IsProject, IsVoter};
ghost use Rattle.pb_records.specs.Cells as spec;
ghost use Rattle.pb_records.specs.Inside.Lines.{IsTriple};
ghost use Rattle.pb_records.specs.Records.{Rec};
ghost use Rattle.pb_certificate.specs.Fields.{fields, project_in};
ghost use Rattle.pb_certificate.specs.Inside.Prices.StatedRow.{stated_row};
ghost use Rattle.pb_certificate.specs.Prices.Text.{payment_of};
ghost use Rattle.pb_certificate.specs.Prices.RowFaults.{as_payment, row_fault};
ghost use Rattle.pb_certificate.specs.Prices.{most_numerator};

use crate::CertFault;
use crate::fields::{MOST_NUMERATOR, voter_in, voter_numbered, whole_within, width};
use csv::StringRecord;
use pb_election::Election;
use pb_records::{Triple, cell, clean};

/// A row of a price certificate: what a voter pays for a project.
#[derive(Clone, Copy, Debug, PartialEq, Eq)]
pub struct PriceRow {
    /// The voter's number, from 1.
    pub voter: u32,
    /// The project's position, from 1.
    pub project: u32,
    /// The numerator of the payment, at most 10^21. It may be 0.
    pub payment: u128,
}

// Whether a record has three fields, without the empty ones at its end. The third is given, cleaned.
fn has_three_fields(row: &StringRecord, third: &str) -> bool
    requires { third.now ≡ spec.cell 2 (fields_of row.now) }
    ensures { result ≡ (length (fields (fields_of row.now)) == 3) }
{
    if row.len() == 3 && !third.is_empty() {
        return true;
    }
    width(row) == 3
}

/// The row that a record states, or why it states none, whatever rows stand before it.
pub fn price_row(row: &StringRecord, election: &Election) -> Result<PriceRow, CertFault>
    ensures row { MatchResult result (λ q. payment_of election.now (fields_of row.now) ≡ Some (as_payment q)) (λ f. row_fault election.now (fields_of row.now) ≡ Some f) }
    ensures none { IfOk result (λ q. row_fault election.now (fields_of row.now) ≡ None) }
    ensures voter { IfOk result (λ q. IsVoter election.now q.voter) }
    ensures project { IfOk result (λ q. IsProject election.now q.project) }
    ensures small { IfOk result (λ q. q.payment ≤ most_numerator) }
{
    let payment = cell(row, 2);
    if !has_three_fields(row, payment) {
        return Err(CertFault::BadRow);
    }
    let voter = voter_in(cell(row, 0), election)?;
    let payment = whole_within(0, MOST_NUMERATOR, payment).ok_or(CertFault::BadNumber)?;
    row_of(election, voter, cell(row, 1), payment)
}

/// The same of a record of three fields whose numbers were read.
pub fn triple_row(triple: Triple, election: &Election) -> Result<PriceRow, CertFault>
    ensures row { (r : Rec) → IsTriple triple.entry r → MatchResult result (λ q. payment_of election.now r ≡ Some (as_payment q)) (λ f. row_fault election.now r ≡ Some f) }
    ensures none { (r : Rec) → IsTriple triple.entry r → IfOk result (λ q. row_fault election.now r ≡ None) }
    ensures voter { IfOk result (λ q. IsVoter election.now q.voter) }
    ensures project { IfOk result (λ q. IsProject election.now q.project) }
    ensures payment { IfOk result (λ q. q.payment ≡ triple.entry.third) }
{
    let voter = voter_numbered(triple.first, election);
    row_of(
        election,
        voter,
        clean(triple.second),
        u128::from(triple.third),
    )
}

// The row of a voter, where there is one, and of the project that has this id.
fn row_of(
    election: &Election,
    voter: Option<u32>,
    id: &str,
    payment: u128,
) -> Result<PriceRow, CertFault>
    requires { IfSome voter (IsVoter election.now) }
    ensures value { result ≡ stated_row voter (project_in election.now id.now) payment }
    ensures voter { IfOk result (λ q. IsVoter election.now q.voter) }
    ensures project { IfOk result (λ q. IsProject election.now q.project) }
    ensures payment { IfOk result (λ q. q.payment ≡ payment) }
{
    let Some(voter) = voter else {
        return Err(CertFault::UnknownVoter);
    };
    let Some(project) = election.find(id) else {
        return Err(CertFault::UnknownProject);
    };
    Ok(PriceRow {
        voter,
        project,
        payment,
    })
}
