//! Notes beside a yes as texts for C.
ghost use Rattle.std.specs.Prelude.{◌≡◌, IfOk};
ghost use Rattle.pb_reply.specs.declared.status.Status.TheVariants.{Yes};

use pb_audit::{Answer, Status, notes_on_yes};
use std::alloc::{AllocError, Global};

/// What is told beside a yes to a price certificate, as an answer that is always a yes: a note a line.
pub(crate) fn note_answer(
    alloc: Global,
    election: &[u8],
    certificate: &[u8],
) -> Result<Answer<Status>, AllocError>
    ensures { IfOk result (λ answer. answer.status ≡ Yes) }
{
    let mut text = String::new(alloc);
    for note in &notes_on_yes(alloc, election, certificate)? {
        text.push_str(note)?;
        text.push('\n')?;
    }
    Ok(Answer {
        text: text.into_bytes(),
        status: Status::Yes,
    })
}
