//! Readers and writers that are short, fail or never end.
use std::alloc::Global;
use std::io;
use std::io::{ErrorKind, Read, Write};

/// Gives its bytes, at most so many a read, and then fails or ends.
#[derive(Drop)]
pub struct FakeReader<'a> {
    pub rest: &'a [u8],
    pub most: usize,
    pub fails: bool,
}

impl Read for FakeReader<'_> {
    fn read(&mut self, buf: &mut [u8]) -> io::Result<usize> {
        let count = self.rest.len().min(self.most).min(buf.len());
        if count == 0 && self.fails {
            return Err(io::Error::from(ErrorKind::Other));
        }
        let (given, rest) = self.rest.split_at(count);
        buf[..count].copy_from_slice(given);
        self.rest = rest;
        Ok(count)
    }
}

/// Never ends, gives one byte a read, and counts its reads.
#[derive(Drop)]
pub struct EndlessReader {
    pub reads: u32,
}

impl Read for EndlessReader {
    fn read(&mut self, buf: &mut [u8]) -> io::Result<usize> {
        self.reads = self.reads.saturating_add(1);
        if buf.is_empty() {
            return Ok(0);
        }
        buf[0] = b'a';
        Ok(1)
    }
}

/// Gives its bytes, at most so many a read, but is interrupted once, at the read of this number. It counts its reads.
#[derive(Drop)]
pub struct InterruptedReader<'a> {
    pub rest: &'a [u8],
    pub most: usize,
    pub interrupted_at: usize,
    pub reads: usize,
}

impl InterruptedReader<'_> {
    /// Of a text. At read 0 it is never interrupted.
    pub fn new(text: &str, most: usize, interrupted_at: usize) -> InterruptedReader<'_> {
        InterruptedReader {
            rest: text.as_bytes(),
            most,
            interrupted_at,
            reads: 0,
        }
    }
}

impl Read for InterruptedReader<'_> {
    fn read(&mut self, buf: &mut [u8]) -> io::Result<usize> {
        self.reads = self.reads.saturating_add(1);
        if self.reads == self.interrupted_at {
            return Err(io::Error::from(ErrorKind::Interrupted));
        }
        let count = self.rest.len().min(self.most).min(buf.len());
        let (given, rest) = self.rest.split_at(count);
        buf[..count].copy_from_slice(given);
        self.rest = rest;
        Ok(count)
    }
}

/// How a writer fails that fails once. At write 0 it never does.
#[derive(Clone, Copy, PartialEq, Eq)]
pub enum Lapse {
    /// The write of this number fails.
    Fails(usize),
    /// The write of this number takes no byte.
    TakesNone(usize),
    /// The write of this number is interrupted.
    Interrupted(usize),
    /// The first flush fails.
    Unflushed,
}

/// Takes at most so many bytes a write, and fails once. It counts its writes and flushes.
#[derive(Drop)]
pub struct LapsingWriter {
    pub written: Vec<u8>,
    pub most: usize,
    pub lapse: Lapse,
    pub writes: usize,
    pub flushes: usize,
}

impl LapsingWriter {
    /// One that has taken nothing yet.
    pub fn new(alloc: Global, most: usize, lapse: Lapse) -> LapsingWriter {
        LapsingWriter {
            written: Vec::new(alloc),
            most,
            lapse,
            writes: 0,
            flushes: 0,
        }
    }
}

impl Write for LapsingWriter {
    fn write(&mut self, buf: &[u8]) -> io::Result<usize> {
        self.writes = self.writes.saturating_add(1);
        if self.lapse == Lapse::Fails(self.writes) {
            return Err(io::Error::from(ErrorKind::Other));
        }
        if self.lapse == Lapse::TakesNone(self.writes) {
            return Ok(0);
        }
        if self.lapse == Lapse::Interrupted(self.writes) {
            return Err(io::Error::from(ErrorKind::Interrupted));
        }
        let count = buf.len().min(self.most);
        self.written.extend_from_slice(&buf[..count])?;
        Ok(count)
    }

    fn flush(&mut self) -> io::Result<()> {
        self.flushes = self.flushes.saturating_add(1);
        if self.lapse == Lapse::Unflushed && self.flushes == 1 {
            return Err(io::Error::from(ErrorKind::Other));
        }
        Ok(())
    }
}
