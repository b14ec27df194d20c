//! What the fields of a record state.
ghost use Rattle.std.specs.Prelude.{◌≡◌, ◌≤◌, ◌∷◌, ◌&&◌, nat_le, [], if◌then◌else◌, Ok, Err, IfOk, IfSome, is_some, length};
ghost use Rattle.csv.specs.Records.{fields_of};
ghost use Rattle.pb_election.specs.Instance.{voters};
ghost use Rattle.pb_certificate.specs.Fields as spec;
ghost use Rattle.pb_certificate.specs.Prices.{most_numerator};

use crate::CertFault;
use csv::StringRecord;
use pb_election::Election;
use pb_money::{WholeFault, read_whole};
use pb_records::cell;

/// The most that the numerator of a voter's budget or of a payment can be.
pub const MOST_NUMERATOR: u128 = 1_000_000_000_000_000_000_000;

/// How many fields a record has, without the empty ones at its end.
pub fn width(row: &StringRecord) -> usize
    ensures { result ≡ length (spec.fields (fields_of row.now)) }
{
    let mut width = row.len();
    while width > 0 && cell(row, width - 1).is_empty() {
        width -= 1;
    }
    width
}

/// Whether a record has these two fields and no more.
#[tactic(auto, using(crate::proofs::Heads::two_cells))]
pub fn is_pair(row: &StringRecord, first: &str, second: &str) -> bool
    ensures { result ≡ spec.same_fields (spec.fields (fields_of row.now)) (first.now ∷ second.now ∷ []) }
{
    width(row) == 2 && cell(row, 0) == first && cell(row, 1) == second
}

/// Whether a record has these three fields and no more.
#[tactic(auto, using(crate::proofs::Heads::three_cells))]
pub fn is_triple(row: &StringRecord, first: &str, second: &str, third: &str) -> bool
    ensures { result ≡ spec.same_fields (spec.fields (fields_of row.now)) (first.now ∷ second.now ∷ third.now ∷ []) }
{
    width(row) == 3 && cell(row, 0) == first && cell(row, 1) == second && cell(row, 2) == third
}

/// The whole number that a field states, if it lies between `least` and `most`, and `most` is at most 10^21.
pub fn whole_within(least: u128, most: u128, field: &str) -> Option<u128>
    requires { most ≤ most_numerator }
    ensures value { result ≡ spec.whole_within least most field.now }
    ensures high { IfSome result (λ number. number ≤ most) }
{
    match read_whole(field.as_bytes(), most) {
        Ok(number) if number >= least => Some(number),
        _ => None,
    }
}

/// The number that a head record states: it has the name and one field more, with a whole number between `least` and
/// `most`. `most` is at most 10^21.
pub fn head_number(
    row: &StringRecord,
    name: &str,
    least: u128,
    most: u128,
) -> Result<u128, CertFault>
    requires { most ≤ most_numerator }
    ensures value { result ≡ spec.head_number name.now least most (fields_of row.now) }
    ensures high { IfOk result (λ number. number ≤ most) }
{
    if width(row) != 2 || cell(row, 0) != name {
        return Err(CertFault::BadHead);
    }
    whole_within(least, most, cell(row, 1)).ok_or(CertFault::BadNumber)
}

/// The voter that a field names by its number, or none where no voter has that number, however large. A field that is
/// not in digits is `BadNumber`.
pub fn voter_in(field: &str, election: &Election) -> Result<Option<u32>, CertFault>
    ensures { result ≡ (if is_some (spec.whole_in field.now) then Ok (spec.voter_in election.now field.now) else Err CertFault.BadNumber) }
{
    match read_whole(field.as_bytes(), u128::from(election.voters())) {
        Ok(number) if number > 0 => Ok(Some(number as u32)),
        Err(fault) if fault != WholeFault::TooLarge => Err(CertFault::BadNumber),
        _ => Ok(None),
    }
}

/// The voter with a number, or none where no voter has it.
pub fn voter_numbered(number: u64, election: &Election) -> Option<u32>
    ensures { result ≡ spec.only_if (λ n. nat_le 1 n && nat_le n (voters election.now)) number }
{
    if number == 0 || number > u64::from(election.voters()) {
        return None;
    }
    Some(number as u32)
}
