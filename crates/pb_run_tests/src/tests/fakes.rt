//! Writers that keep what is written, and words of a command line.
use std::alloc::Global;
use std::env::{Env, FillError};
use std::io;
use std::io::{ErrorKind, IsTerminal, Write};

/// Keeps what is written, and fails once its room is full.
#[derive(Drop)]
pub struct FakeWriter {
    pub written: Vec<u8>,
    pub room: usize,
}

impl FakeWriter {
    /// A writer that takes all.
    pub fn new(alloc: Global) -> FakeWriter {
        FakeWriter {
            written: Vec::new(alloc),
            room: usize::MAX,
        }
    }
}

impl IsTerminal for FakeWriter {
    fn is_terminal(&self) -> bool {
        false
    }
}

impl Write for FakeWriter {
    fn write(&mut self, buf: &[u8]) -> io::Result<usize> {
        let count = buf.len().min(self.room);
        if count == 0 {
            return Err(io::Error::from(ErrorKind::Other));
        }
        self.written.extend_from_slice(&buf[..count])?;
        self.room -= count;
        Ok(count)
    }

    fn flush(&mut self) -> io::Result<()> {
        Ok(())
    }
}

/// The words of a command line, as bytes. No variable is set.
#[derive(Drop)]
pub struct FakeWords<'a>(pub &'a [&'a [u8]]);

impl Env for FakeWords<'_> {
    fn arg(&self, i: usize, buf: &mut [u8]) -> Result<usize, FillError> {
        let Some(word) = self.0.get(i) else {
            return Err(FillError::NotPresent);
        };
        let Some(front) = buf.get_mut(..word.len()) else {
            return Err(FillError::TooLong);
        };
        front.copy_from_slice(word);
        Ok(word.len())
    }

    fn var(&self, _name: &str, _buf: &mut [u8]) -> Result<usize, FillError> {
        Err(FillError::NotPresent)
    }

    fn var_at(&self, _i: usize, _buf: &mut [u8]) -> Result<usize, FillError> {
        Err(FillError::NotPresent)
    }
}
