//! A run from its words to its exit status.
ghost use Rattle.std.specs.Prelude.{◌⊎◌, map, string_bytes};
ghost use Rattle.pb_run.specs.Runs.{IsDone, IsIdle, Runs};

use crate::end::End;
use crate::files::Files;
use crate::task::run_task;
use pb_command::task_of;
use pb_election::Sink;
use pb_reply::Given;
use std::alloc::Global;
use std::io::{IsTerminal, Write};

/// Does what the words ask for, and gives the exit status. Standard input, output and error are `input`, `out` and
/// `err`.
pub fn run<F: Files, I: Given, W: Sink, E: Write + IsTerminal>(
    alloc: Global,
    files: &mut F,
    words: Vec<String>,
    input: &mut I,
    out: &mut W,
    err: &mut E,
) -> u8
    // The task that the words ask for, in its mode and on the files at its paths: the answer on what these files
    // delivered is written, and the exit status is that of the answer.
    ensures { Runs F.lists F.hands F.Input.delivers I.delivers W.Sink (map string_bytes words.items) result files.old files.new input.old input.new out.old out.new }
{
    let end = end_of(alloc, files, words, input, out, err);
    end.tell(out, err)
}

/// Does what the words ask for.
fn end_of<F: Files, I: Given, W: Sink, E: Write + IsTerminal>(
    alloc: Global,
    files: &mut F,
    words: Vec<String>,
    input: &mut I,
    out: &mut W,
    err: &mut E,
) -> End
    ensures { IsDone F.lists F.hands F.Input.delivers I.delivers W.Sink (map string_bytes words.items) result files.old files.new input.old input.new out.old out.new
        ⊎ IsIdle (map string_bytes words.items) result files.old files.new input.old input.new out.old out.new }
{
    match task_of(alloc, words) {
        Ok(task) => match run_task(alloc, files, &task, input, out, err) {
            Ok(end) => end,
            Err(fault) => End::Faulted(fault),
        },
        Err(fault) => End::from(fault),
    }
}
