//! Writing a price certificate in its canonical form.
ghost use Rattle.std.specs.Prelude.{IfOk, IfSome};
ghost use Rattle.pb_audit.specs.InTurn.{ReadsTidy};
ghost use Rattle.pb_audit.specs.Inside.Certificates.{TidiesPrices};
ghost use Rattle.pb_reply.specs.Inside.Loaded.{lent};
ghost use Rattle.pb_reply.specs.Inside.Taking.{IfTaken, or_refusal};
ghost use Rattle.pb_reply.specs.Replies.{answer_of};
ghost use Rattle.pb_reply.specs.Turns.{turn};

use pb_certificate::canonical_text_of;
use pb_election::Election;
use pb_input::InputName;
use pb_reply::{
    Answer, AsFile, File, Given, Status, Unanswered, bytes_of, or_refusal, take_election, taken_as,
};
use std::alloc::{AllocError, Global};

/// The answer on an election and a price certificate for it, taken in this order: the certificate's canonical text, or
/// why an input is refused.
pub(crate) fn tidy<E: Given, C: Given>(
    alloc: Global,
    election: &mut E,
    certificate: &mut C,
) -> Result<Answer<Status>, AllocError>
    ensures { IfOk result (ReadsTidy (turn E.delivers election.old election.new) (turn C.delivers certificate.old certificate.new)) }
{
    let work = tidy_in_turn(alloc, election, certificate);
    or_refusal(alloc, work)
}

/// The answer, or why there is none.
fn tidy_in_turn<E: Given, C: Given>(
    alloc: Global,
    election: &mut E,
    certificate: &mut C,
) -> Result<Answer<Status>, Unanswered>
    ensures { IfSome (or_refusal answer_of result) (ReadsTidy (turn E.delivers election.old election.new) (turn C.delivers certificate.old certificate.new)) }
{
    let election = take_election(alloc, election)?;
    let certificate = certificate.take(alloc)?;
    tidied(alloc, &election, certificate.as_file())
}

/// The canonical text of the prices that a certificate states, for an election that was accepted.
fn tidied(
    alloc: Global,
    election: &Election,
    certificate: File<'_>,
) -> Result<Answer<Status>, Unanswered>
    ensures { IfTaken result (TidiesPrices election.now (lent certificate.entry)) }
{
    let bytes = bytes_of(InputName::Certificate, certificate)?;
    let read = canonical_text_of(alloc, bytes, election);
    let text = taken_as(InputName::Certificate, read)?;
    Ok(Answer {
        text,
        status: Status::Yes,
    })
}
