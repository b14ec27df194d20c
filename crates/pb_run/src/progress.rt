//! Telling people who wait how far the work is.
use crate::seen::tell_seen;
use std::io::{IsTerminal, Write};

// So many letters of a name are shown that the line fits a terminal, since a line that is broken can't be cleared.
const MOST_SHOWN: usize = 50;

/// A line on a terminal that is written again and again. Elsewhere nothing is told.
#[derive(Drop)]
pub struct Progress<'a, E: Write + IsTerminal> {
    err: &'a mut E,
    is_terminal: bool,
    told: usize,
    total: usize,
}

impl<'a, E: Write + IsTerminal> Progress<'a, E> {
    /// Nothing is told yet of so many elections.
    pub fn new(err: &'a mut E, total: usize) -> Progress<'a, E> {
        let is_terminal = err.is_terminal();
        Progress {
            err,
            is_terminal,
            told: 0,
            total,
        }
    }

    /// Tells that the election of this name is next. What the terminal doesn't take is lost.
    pub fn tell(&mut self, name: &str) {
        self.told = self.told.saturating_add(1);
        if self.is_terminal {
            let shown = match name.char_indices().nth(MOST_SHOWN) {
                Some((end, _)) => &name[..end],
                None => name,
            };
            let _ = write!(self.err, "\r\x1b[K{} of {}: ", self.told, self.total);
            tell_seen(self.err, shown);
            let _ = self.err.write_all(b".pb");
        }
    }

    /// Clears the line.
    pub fn clear(&mut self) {
        if self.is_terminal {
            let _ = write!(self.err, "\r\x1b[K");
        }
    }
}
