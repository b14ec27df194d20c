//! The words of the command line.
use super::fakes::{FakeWords, FakeWriter};
use pb_election::Output;
use pb_run::{without_words, words_of};
use std::io;
use std::io::ErrorKind;
use std::test::Fail;

#[test]
fn words_are_taken_in_order(rt: HostRuntime) -> Result<(), Fail> {
    let list = [b"pbaudit".as_slice(), b"read", b"", b"\xc3\xa9 \"-%.pb"];
    let words = match words_of(&(FakeWords(&list), rt.alloc())) {
        Ok(words) => words,
        Err(_) => return Err(Fail::new("no words")),
    };
    assert!(rt; words.len() == 4);
    for (word, want) in words
        .iter()
        .zip(["pbaudit", "read", "", "\u{e9} \"-%.pb"].iter())
    {
        assert!(rt; word.as_str() == *want, "{want}");
    }
    Ok(())
}

#[test]
fn words_that_find_no_memory_are_a_memory_fault(rt: HostRuntime) -> Result<(), Fail> {
    let alloc = rt.alloc();
    let end = without_words(&io::Error::from(ErrorKind::OutOfMemory));
    let (mut out, mut err) = (FakeWriter::new(alloc), FakeWriter::new(alloc));
    assert_eq!(rt; end.tell(&mut Output::new(&mut out), &mut err), 4);
    assert!(rt; out.written.is_empty());
    assert!(rt; err.written.as_slice() == b"fault memory\n".as_slice());
    Ok(())
}
