//! Readers that note what a hint is made of.
use std::cell::Cell;
use std::io;
use std::io::Read;

/// Any reader, whose failure is noted by the operating system's number for it. It answers what the reader answers.
#[derive(Drop)]
pub struct WatchedReader<'a, R> {
    reader: R,
    failure: &'a Cell<Option<i32>>,
}

impl<'a, R: Read> WatchedReader<'a, R> {
    pub fn new(reader: R, failure: &'a Cell<Option<i32>>) -> WatchedReader<'a, R> {
        WatchedReader { reader, failure }
    }
}

impl<R: Read> Read for WatchedReader<'_, R> {
    fn read(&mut self, buf: &mut [u8]) -> io::Result<usize> {
        let answer = self.reader.read(buf);
        if let Err(error) = &answer {
            self.failure.set(error.raw_os_error());
        }
        answer
    }
}
