//! Tasks, done on the files that they name.
ghost use Rattle.std.specs.Prelude.{IfOk};
ghost use Rattle.pb_command.specs.Tasks.{asked};
ghost use Rattle.pb_audit.specs.InTurn.{ReadsElection};
ghost use Rattle.pb_reply.specs.Replies.{TellsReply};
ghost use Rattle.pb_reply.specs.Turns.{turn};
ghost use Rattle.pb_reply.specs.Writing.{Writes};
ghost use Rattle.pb_reply.specs.declared.answer.Format.TheVariants.{Lines};
ghost use Rattle.pb_run.specs.Runs.{AnswersTask, EndsTask, Once, end_of};

use crate::asking::{answer_at, asked_by};
use crate::end::End;
use crate::files::Files;
use crate::folder::run_folder;
use crate::refusals::{tell_hint, tell_notes};
use pb_audit::{Answer, Fault, Format, Question, Status, answer};
use pb_command::Task;
use pb_election::Sink;
use pb_reply::{File, Given};
use std::alloc::{AllocError, Global};
use std::io::{IsTerminal, Write};

/// Writes the answer of a task on `out`. An election that is on standard input is read from `input`; what is told of a
/// folder, of an election or of a refusal beside the answer goes to `err`.
pub fn run_task<F: Files, I: Given, W: Sink, E: Write + IsTerminal>(
    alloc: Global,
    files: &mut F,
    task: &Task,
    input: &mut I,
    out: &mut W,
    err: &mut E,
) -> Result<End, Fault>
    ensures { EndsTask F.lists F.hands F.Input.delivers I.delivers W.Sink (asked task.now) (end_of result) files.old files.new input.old input.new out.old out.new }
{
    if let Task::Folder { folder, mode, json } = task {
        return run_folder(alloc, files, folder, *mode, *json, out, err);
    }
    Ok(End::Answered(run_question(alloc, files, task, input, out, err)?))
}

/// Writes the answer of a task on an election.
fn run_question<F: Files, I: Given, W: Sink, E: Write>(
    alloc: Global,
    files: &mut F,
    task: &Task,
    input: &mut I,
    out: &mut W,
    err: &mut E,
) -> Result<Status, Fault>
    ensures { Writes W.Sink (Once (λ then. AnswersTask F.hands F.Input.delivers I.delivers (asked task.now) files.old then input.old input.new)) result out.old out.new }
{
    let mut notes = Vec::new(alloc);
    let answer = answer_task(alloc, files, task, input, &mut notes)?;
    let status = answer.write(out)?;
    tell_notes(alloc, task, &notes, err);
    if let Status::Refused(refusal) = status {
        tell_hint(alloc, files, task, refusal, err);
    }
    Ok(status)
}

/// The answer of a task on an election.
fn answer_task<F: Files, I: Given>(
    alloc: Global,
    files: &mut F,
    task: &Task,
    input: &mut I,
    notes: &mut Vec<String>,
) -> Result<Answer<Status>, AllocError>
    ensures { IfOk result (AnswersTask F.hands F.Input.delivers I.delivers (asked task.now) files.old files.new input.old input.new) }
{
    match asked_by(task) {
        Some((paths, ask)) => Ok(answer_at(alloc, files, paths, ask, notes)?),
        None => Ok(read_answer(alloc, input, notes)?),
    }
}

/// The answer on an election alone.
fn read_answer<I: Given>(
    alloc: Global,
    election: &mut I,
    notes: &mut Vec<String>,
) -> Result<Answer<Status>, AllocError>
    ensures { IfOk result (TellsReply Lines (ReadsElection (turn I.delivers election.old election.new))) }
{
    let mut outcome: Option<File<'_>> = None;
    let (mut certificate, mut violation) = (File::Unread, File::Unread);
    answer(
        alloc,
        Format::Lines,
        Question::Read,
        election,
        &mut outcome,
        &mut certificate,
        &mut violation,
        notes,
    )
}
