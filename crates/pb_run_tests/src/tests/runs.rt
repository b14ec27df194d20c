//! A whole run of the program.
use super::fakes::FakeWriter;
use pb_election::{Input, Output};
use pb_run::{Machine, run};
use pb_samples::files::ELECTION;
use std::cell::Cell;
use std::test::Fail;

/// Without words it reads standard input. Output that takes five bytes and no more is a fault.
#[test]
fn election_on_standard_input_is_read(rt: HostRuntime) -> Result<(), Fail> {
    let alloc = rt.alloc();
    let line = "read 3 voters 3 projects 2 funded\n";
    for (room, status, printed, told) in [
        (usize::MAX, 0, line, ""),
        (5, 4, "read ", "fault write\n"),
    ] {
        let mut words = Vec::new(alloc);
        words.push(String::from_str(alloc, "pbaudit")?)?;
        let (mut out, mut err) = (FakeWriter::new(alloc), FakeWriter::new(alloc));
        out.room = room;
        let failure = Cell::new(None);
        let mut files = Machine::new(&rt, &failure);
        let mut bytes = ELECTION.as_bytes();
        let mut input = Input::new(&mut bytes);
        let ended = run(
            alloc,
            &mut files,
            words,
            &mut input,
            &mut Output::new(&mut out),
            &mut err,
        );
        assert_eq!(rt; ended, status);
        assert!(rt; out.written.as_slice() == printed.as_bytes());
        assert!(rt; err.written.as_slice() == told.as_bytes());
    }
    Ok(())
}
