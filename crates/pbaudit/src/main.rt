//! The program `pbaudit`: it does what its words ask for.
#![tactic(auto)]

use pb_election::{Input, Output};
use pb_run::{Machine, WatchedReader, run, words_of};
use std::cell::Cell;
use std::process::ExitCode;

fn main(rt: HostRuntime) -> ExitCode {
    let (mut stdin, mut stdout, mut err) = (rt.stdin(), rt.stdout(), rt.stderr());
    let failure = Cell::new(None);
    let mut files = Machine::new(&rt, &failure);
    let mut input = Input::new(WatchedReader::new(&mut stdin, &failure));
    let mut out = Output::new(&mut stdout);
    let status = match words_of(&rt) {
        Ok(words) => run(
            rt.alloc(),
            &mut files,
            words,
            &mut input,
            &mut out,
            &mut err,
        ),
        Err(end) => end.tell(&mut out, &mut err),
    };
    ExitCode::from(status)
}
