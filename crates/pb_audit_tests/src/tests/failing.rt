//! Readers and writers that fail, at the calls that load and write bytes.
use pb_election::{Input, LoadFault, Output, PutFault, load, put};
use pb_samples::fakes::{EndlessReader, FakeReader, InterruptedReader, Lapse, LapsingWriter};
use pb_samples::files::ELECTION;
use std::test::Fail;

#[test]
fn reader_that_fails_is_refused_though_it_gave_bytes(rt: HostRuntime) {
    let mut reader = FakeReader {
        rest: b"META\n",
        most: usize::MAX,
        fails: true,
    };
    let loaded = load(rt.alloc(), &mut Input::new(&mut reader), 1000);
    assert!(rt; matches!(loaded, Err(LoadFault::Read)));
}

#[test]
fn endless_reader_is_given_up_at_the_limit(rt: HostRuntime) {
    let mut reader = EndlessReader { reads: 0 };
    let loaded = load(rt.alloc(), &mut Input::new(&mut reader), 1000);
    assert!(rt; matches!(loaded, Err(LoadFault::TooLong)) && reader.reads <= 1001);
}

#[test]
fn interrupted_read_is_a_failure(rt: HostRuntime) {
    for at in 1..=2 {
        let mut reader = InterruptedReader::new(ELECTION, 1000, at);
        let loaded = load(rt.alloc(), &mut Input::new(&mut reader), 1000);
        assert!(rt;
            matches!(loaded, Err(LoadFault::Read)) && reader.reads == at,
            "{at}"
        );
    }
}

#[test]
fn put_tries_no_failed_write_again(rt: HostRuntime) -> Result<(), Fail> {
    let line = "read 3 voters 3 projects 2 funded\n";
    for (lapse, written, writes, flushes) in [
        (Lapse::TakesNone(1), "", 1, 0),
        (Lapse::TakesNone(3), "read 3 v", 3, 0),
        (Lapse::Interrupted(1), "", 1, 0),
        (Lapse::Interrupted(2), "read", 2, 0),
        (Lapse::Unflushed, line, 9, 1),
    ] {
        let mut writer = LapsingWriter::new(rt.alloc(), 4, lapse);
        let got = put(line.as_bytes(), &mut Output::new(&mut writer));
        assert_eq!(rt; got, Err(PutFault::Write), "{written}");
        assert_eq!(rt;
            (writer.writes, writer.flushes),
            (writes, flushes),
            "{written}"
        );
        assert!(rt;
            writer.written.as_slice() == written.as_bytes(),
            "{written}"
        );
    }
    Ok(())
}
