//! The remarks of a hint.
use crate::excerpt::push_shown;
use std::alloc::{AllocError, Global};

/// A sentence on a file, and the line on which it is.
#[derive(Drop)]
pub struct Remark {
    /// The line, from 1. None where the sentence is on the whole file.
    pub line: Option<u64>,
    /// The sentence, without a point at its end.
    pub sentence: String,
}

impl Remark {
    /// Words on a line, or on the whole file.
    pub(crate) fn new(alloc: Global, line: Option<u64>, words: &str) -> Result<Remark, AllocError> {
        let sentence = String::from_str(alloc, words)?;
        Ok(Remark { line, sentence })
    }

    /// Adds the remark to a text as a line with its end: `NAME:LINE: SENTENCE`, or `NAME: SENTENCE` where it is on the
    /// whole file.
    pub fn push(&self, text: &mut String, name: &str) -> Result<(), AllocError> {
        push_shown(text, name)?;
        match self.line {
            Some(line) => writeln!(text, ":{line}: {}", self.sentence),
            None => writeln!(text, ": {}", self.sentence),
        }
    }
}
