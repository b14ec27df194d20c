//! Readers and writers whose calls are counted, called directly: each call is handed on whole, and each answer as it is.
use pb_records::{Input, Output, Sink, Source};
use pb_samples::fakes::{FakeReader, InterruptedReader, Lapse, LapsingWriter};
use std::io;
use std::io::{ErrorKind, Write};
use std::test::Fail;

/// Takes all, and can't be flushed: the error is of this kind.
#[derive(Drop)]
struct Unflushable {
    kind: ErrorKind,
}

impl Write for Unflushable {
    fn write(&mut self, buf: &[u8]) -> io::Result<usize> {
        Ok(buf.len())
    }

    fn flush(&mut self) -> io::Result<()> {
        Err(io::Error::from(self.kind))
    }
}

/// More than any buffer that one might put between.
const LONG: usize = 100_000;

#[test]
fn input_offers_the_whole_buffer(rt: HostRuntime) -> Result<(), Fail> {
    let bytes = vec![in rt.alloc(); b'a'; LONG]?;
    let mut buffer = vec![in rt.alloc(); b'-'; LONG]?;
    let mut reader = Input::new(FakeReader {
        rest: &bytes,
        most: usize::MAX,
        fails: false,
    });
    assert!(rt; matches!(Source::read(&mut reader, &mut buffer), Ok(LONG)));
    assert!(rt; buffer.as_slice() == bytes.as_slice());
    assert!(rt; matches!(Source::read(&mut reader, &mut buffer), Ok(0)));
    Ok(())
}

#[test]
fn input_hands_on_the_kind_of_an_error(rt: HostRuntime) {
    let mut buffer = [0; 4];
    let mut interrupted = Input::new(InterruptedReader::new("abc", 2, 1));
    match Source::read(&mut interrupted, &mut buffer) {
        Ok(_) => assert!(rt; false),
        Err(error) => assert!(rt; error.kind() == ErrorKind::Interrupted),
    }
    let mut failing = Input::new(FakeReader {
        rest: b"",
        most: 1,
        fails: true,
    });
    match Source::read(&mut failing, &mut buffer) {
        Ok(_) => assert!(rt; false),
        Err(error) => assert!(rt; error.kind() == ErrorKind::Other),
    }
}

#[test]
fn output_offers_the_whole_text(rt: HostRuntime) -> Result<(), Fail> {
    let text = vec![in rt.alloc(); b'a'; LONG]?;
    let mut writer = LapsingWriter::new(rt.alloc(), usize::MAX, Lapse::Fails(0));
    let taken = Sink::write(&mut Output::new(&mut writer), &text);
    assert!(rt; matches!(taken, Ok(LONG)));
    assert!(rt; writer.written.as_slice() == text.as_slice());
    assert_eq!(rt; writer.writes, 1);
    Ok(())
}

#[test]
fn output_flushes_where_nothing_was_written(rt: HostRuntime) {
    let mut writer = LapsingWriter::new(rt.alloc(), 1, Lapse::Fails(0));
    assert!(rt; Sink::flush(&mut Output::new(&mut writer)).is_ok());
    assert_eq!(rt; (writer.writes, writer.flushes), (0, 1));
}

#[test]
fn output_hands_on_the_kind_of_an_error(rt: HostRuntime) {
    for (lapse, kind) in [
        (Lapse::Fails(1), ErrorKind::Other),
        (Lapse::Interrupted(1), ErrorKind::Interrupted),
    ] {
        let mut writer = LapsingWriter::new(rt.alloc(), 1, lapse);
        match Sink::write(&mut Output::new(&mut writer), b"a") {
            Ok(_) => assert!(rt; false),
            Err(error) => assert!(rt; error.kind() == kind),
        }
    }
}

#[test]
fn output_hands_on_that_nothing_was_taken(rt: HostRuntime) {
    let mut writer = LapsingWriter::new(rt.alloc(), 1, Lapse::TakesNone(1));
    assert!(rt; matches!(Sink::write(&mut Output::new(&mut writer), b"a"), Ok(0)));
}

#[test]
fn output_hands_on_the_kind_of_an_error_of_a_flush(rt: HostRuntime) {
    for kind in [ErrorKind::Other, ErrorKind::Interrupted] {
        match Sink::flush(&mut Output::new(Unflushable { kind })) {
            Ok(()) => assert!(rt; false),
            Err(error) => assert!(rt; error.kind() == kind),
        }
    }
}
