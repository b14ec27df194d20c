//! Reading an election and telling what is in it.
ghost use Rattle.std.specs.Prelude.{◌≡◌, IfOk, IfSome};
ghost use Rattle.pb_audit.specs.Answers.{read_reply};
ghost use Rattle.pb_audit.specs.InTurn.{ReadsElection};
ghost use Rattle.pb_reply.specs.Lines as spec;
ghost use Rattle.pb_reply.specs.Inside.Taking.{or_refusal};
ghost use Rattle.pb_reply.specs.Replies.{AreJsonLines, TellsReply};
ghost use Rattle.pb_reply.specs.Turns.{turn};
ghost use Rattle.pb_reply.specs.declared.answer.Format.TheVariants.{Json};

use crate::objects::read_object;
use pb_election::{Election, Outcome};
use pb_reply::{
    Answer, Format, Given, Reply, Status, Unanswered, or_refusal, push_notes, read_line,
    take_election,
};
use std::alloc::{AllocError, Global};

/// The answer on an election: the line on it with the notes, or why it is refused. The notes are added to `notes` as well.
pub(crate) fn read<G: Given>(
    alloc: Global,
    format: Format,
    election: &mut G,
    notes: &mut Vec<String>,
) -> Result<Answer<Status>, AllocError>
    ensures told { IfOk result (TellsReply format (ReadsElection (turn G.delivers election.old election.new))) }
    ensures json { format ≡ Json → IfOk result (λ answer. AreJsonLines answer.text) }
{
    let work = read_in_turn(alloc, election, notes);
    let reply: Reply = or_refusal(alloc, work)?;
    reply.answer_as(alloc, format)
}

/// The reply on an election.
fn read_in_turn<G: Given>(
    alloc: Global,
    election: &mut G,
    notes: &mut Vec<String>,
) -> Result<Reply, Unanswered>
    ensures { IfSome (or_refusal (λ r. r) result) (ReadsElection (turn G.delivers election.old election.new)) }
{
    let election = take_election(alloc, election)?;
    push_notes(alloc, notes, &election)?;
    Ok(election_reply(alloc, &election)?)
}

/// The line on an election that was read, and the notes.
pub(crate) fn election_reply(alloc: Global, election: &Election) -> Result<Reply, AllocError>
    ensures { IfOk result (λ reply. reply ≡ read_reply (Ok election.now)) }
{
    let funded = funded_count(alloc, election)?;
    let object = read_object(alloc, election)?;
    let mut lines = Vec::new(alloc);
    lines.push(read_line(alloc, election, funded)?)?;
    push_notes(alloc, &mut lines, election)?;
    Ok(Reply {
        lines,
        object,
        status: Status::Yes,
    })
}

/// How many projects the election's own outcome funds, where it states one.
fn funded_count(alloc: Global, election: &Election) -> Result<Option<u32>, AllocError>
    ensures { IfOk result (λ count. count ≡ spec.number_of_funded election.now) }
{
    if !election.has_selected() {
        return Ok(None);
    }
    let Ok(outcome) = Outcome::selected(alloc, election) else {
        return Err(AllocError {});
    };
    let mut count = 0;
    for j in 0..election.projects() {
        if outcome.has(j + 1) {
            count += 1;
        }
    }
    Ok(Some(count))
}
