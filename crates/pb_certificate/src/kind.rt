//! As which kind of certificate some bytes are taken.
ghost use Rattle.std.specs.Prelude.{◌≡◌, IfOk};
ghost use Rattle.pb_certificate.specs.Faults.{certificate_records};
ghost use Rattle.pb_certificate.specs.Kinds.{kind_by, kind_by_head};
ghost use Rattle.csv.specs.Records.{fields_of};

use crate::fields::is_pair;
use csv::StringRecord;
use pb_records::{Cursor, Next};
use std::alloc::{AllocError, Global};

/// The kinds of certificates.
#[derive(Clone, Copy, Debug, PartialEq, Eq)]
pub enum Kind {
    /// Prices.
    Prices,
    /// A violation certificate.
    Violation,
    /// A refutation.
    Refutation,
}

/// As which kind of certificate some bytes are taken: as a violation certificate where their first record that is not
/// blank is `pb-violation,1` or `pb-violation,2`, as a refutation where it is `pb-refutation,1`, and as prices where it
/// is another, is not UTF-8 or is missing. What follows it is not looked at. An error means out of memory; it comes only
/// after a failed allocation, which is tested and not proved.
// The reader of records takes some 30 KB of stack, which a caller is to have back.
#[inline(never)]
pub fn kind_of(alloc: Global, bytes: &[u8]) -> Result<Kind, AllocError>
    ensures { IfOk result (λ kind. kind ≡ kind_by (certificate_records bytes.now)) }
{
    let mut cursor = Cursor::open(alloc, bytes, b',');
    match cursor.advance()? {
        Next::Record => Ok(kind_named(cursor.row())),
        Next::NotText | Next::End => Ok(Kind::Prices),
    }
}

// The kind that a first record names.
fn kind_named(head: &StringRecord) -> Kind
    ensures { result ≡ kind_by_head (fields_of head.now) }
{
    if is_pair(head, "pb-violation", "1") || is_pair(head, "pb-violation", "2") {
        return Kind::Violation;
    }
    if is_pair(head, "pb-refutation", "1") {
        return Kind::Refutation;
    }
    Kind::Prices
}
