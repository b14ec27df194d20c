//! Going from record to record of a file.
ghost use Rattle.pb_certificate.specs.Inside.Prices.Places.{Comes};

use crate::{CertFault, CertRefusal};
use pb_records::{Cursor, Next};

/// Goes behind the next record that is not blank, and tells whether there is one, or why the file is refused there.
pub fn next_record(cursor: &mut Cursor) -> Result<bool, CertRefusal>
    ensures { Comes cursor.old cursor.new result }
{
    match cursor.advance()? {
        Next::Record => Ok(true),
        Next::End => Ok(false),
        Next::NotText => Err(CertRefusal {
            fault: CertFault::NotUtf8,
            record_number: cursor.record_number(),
        }),
    }
}
