//! What a file is, as a number for C.
ghost use Rattle.std.specs.Prelude.{◌≡◌};
ghost use Rattle.pb_c.specs.Kinds as spec;

use crate::report::MEMORY_CODE;
use pb_hints::FileKind;
use std::alloc::Global;

/// Tells what a file is, by the number of the kind, or that memory ran out, and then the kind is 0.
pub(crate) fn tell_kind(alloc: Global, file: &[u8], kind: &mut u8) -> u8
    ensures { spec.TellsKind file.now result kind.new }
{
    match FileKind::of_file(alloc, file) {
        Ok(found) => {
            *kind = kind_number(found);
            0
        }
        Err(_) => {
            *kind = 0;
            MEMORY_CODE
        }
    }
}

fn kind_number(kind: Option<FileKind>) -> u8
    ensures { result ≡ spec.kind_number kind }
{
    match kind {
        Some(FileKind::Election) => 1,
        Some(FileKind::Outcome) => 2,
        Some(FileKind::Prices) => 3,
        Some(FileKind::Violation) => 4,
        Some(FileKind::Refutation) => 5,
        Some(FileKind::Certificate) | None => 0,
    }
}
