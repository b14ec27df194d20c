//! The rows of a refutation.
ghost use Rattle.std.specs.Prelude.{◌≡◌, ◌≤◌, IfOk};
ghost use Rattle.csv.specs.Records.{fields_of};
ghost use Rattle.pb_certificate.specs.Refutations.{most_weight};
ghost use Rattle.pb_certificate.specs.Refutations.Text as text;
ghost use Rattle.pb_certificate.specs.Refutations.Kind as spec;

use crate::CertFault;
use crate::fields::{whole_within, width};
use crate::refutations::weighting::{Role, Weighting};
use csv::StringRecord;
use pb_records::cell;

/// The greatest weight.
pub const MOST_WEIGHT: u128 = 1_000_000_000_000;

// The role that a word names.
fn role_in(word: &str) -> Option<Role>
    ensures { result ≡ text.role_in word.now }
{
    if word == "least" {
        return Some(Role::Least);
    }
    if word == "most" {
        return Some(Role::Most);
    }
    if word == "left" {
        return Some(Role::Left);
    }
    None
}

/// The role and the weight that a row states, or why it states none.
pub fn weighting_in(row: &StringRecord) -> Result<Weighting, CertFault>
    ensures value { result ≡ spec.weighting_in (fields_of row.now) }
    ensures small { IfOk result (λ x. x.weight ≤ most_weight) }
{
    if width(row) != 3 {
        return Err(CertFault::BadRow);
    }
    let role = role_in(cell(row, 0)).ok_or(CertFault::BadRow)?;
    let weight = whole_within(0, MOST_WEIGHT, cell(row, 2)).ok_or(CertFault::BadNumber)?;
    Ok(Weighting {
        role,
        weight: weight as u64,
    })
}
