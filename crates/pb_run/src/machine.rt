//! The files of the machine.
use crate::file::FileReader;
use crate::files::Files;
use crate::listed::{ListFault, Listed};
use crate::watched::WatchedReader;
use pb_audit::Loaded;
use pb_election::Input;
use std::alloc::{AllocError, Global};
use std::cell::Cell;
use std::fs;
use std::fs::{DirEntry, Files as _};
use std::io::{ErrorKind, Read};

/// The files of the machine, with the failure of the one that couldn't be read. What is at a path isn't said: a run is
/// proved for any files.
#[derive(Clone, Copy)]
pub struct Machine<'a> {
    rt: &'a HostRuntime,
    failure: &'a Cell<Option<i32>>,
}

impl<'a> Machine<'a> {
    pub fn new(rt: &'a HostRuntime, failure: &'a Cell<Option<i32>>) -> Machine<'a> {
        Machine { rt, failure }
    }
}

impl<'a> Files for Machine<'a> {
    type Input = Input<WatchedReader<'a, FileReader<'a>>>;

    ghost hands = { λ _ _ _ _. Unit {0} };

    ghost lists = { λ _ _ _ _. Unit {0} };

    fn at(&mut self, alloc: Global, path: &str) -> Result<Self::Input, AllocError> {
        let reader = FileReader::new(self.rt, String::from_str(alloc, path)?);
        Ok(Input::new(WatchedReader::new(reader, self.failure)))
    }

    /// Links in the folder are not followed.
    fn list(&mut self, alloc: Global, folder: &str) -> Result<Vec<Listed>, ListFault> {
        let mut listed = Vec::new(alloc);
        for entry in fs::read_dir(self.rt, folder)? {
            push_entry(alloc, &mut listed, &entry?)?;
        }
        Ok(listed)
    }

    fn failure(&self) -> Option<i32> {
        self.failure.get()
    }

    /// A regular file of at most 2^28 bytes can be read again. A pipe can't, and could wait for ever.
    fn again(&mut self, alloc: Global, path: &str) -> Result<Option<Vec<u8>>, AllocError> {
        match fs::metadata(self.rt, path) {
            Ok(metadata) if metadata.is_file() => {}
            _ => return Ok(None),
        }
        let reader = FileReader::new(self.rt, String::from_str(alloc, path)?);
        match Loaded::load(alloc, &mut Input::new(reader))? {
            Loaded::Bytes(bytes) => Ok(Some(bytes)),
            Loaded::Unread | Loaded::TooLong => Ok(None),
        }
    }

    fn first_not_text(
        &mut self,
        alloc: Global,
        folder: &str,
    ) -> Result<Option<Vec<u8>>, AllocError> {
        let path = format!(in alloc; "{folder}/")?;
        let mut names = Vec::new(alloc);
        let Ok(mut dir) = self.rt.open_dir(&path) else {
            return Ok(None);
        };
        if dir.read_to_end(&mut names).is_err() {
            return Ok(None);
        }
        let first = names
            .split(|byte| *byte == 0)
            .filter(|name| str::from_utf8(name).is_err())
            .min();
        match first {
            Some(name) => Ok(Some(Vec::from_slice(alloc, name)?)),
            None => Ok(None),
        }
    }
}

/// Adds what a folder lists.
fn push_entry(alloc: Global, listed: &mut Vec<Listed>, entry: &DirEntry) -> Result<(), ListFault> {
    let name = String::from_str(alloc, entry.file_name())?;
    let is_file = is_file(entry)?;
    listed
        .push(Listed { name, is_file })
        .map_err(AllocError::from)?;
    Ok(())
}

/// Whether this is a regular file, as far as it can be looked at.
fn is_file(entry: &DirEntry) -> Result<bool, ListFault> {
    match entry.file_type() {
        Ok(file_type) => Ok(file_type.is_file()),
        Err(error) if error.kind() == ErrorKind::OutOfMemory => Err(ListFault::Memory),
        Err(_) => Ok(true),
    }
}
