//! The words of the command line.
use crate::end::End;
use pb_audit::Fault;
use std::env::Env;
use std::io::ErrorKind;
use std::{env, io};

/// The words of the command line, the first of which is the program's name.
pub fn words_of<R: Env + AllocGlobal>(rt: &R) -> Result<Vec<String>, End> {
    let words = env::args(rt).map_err(|error| without_words(&error))?;
    words
        .collect(rt.alloc())
        .map_err(|_| End::Faulted(Fault::Memory))
}

/// How the program ends where its words could not be had.
pub fn without_words(error: &io::Error) -> End {
    match error.kind() {
        ErrorKind::OutOfMemory => End::Faulted(Fault::Memory),
        _ => End::NotText,
    }
}
