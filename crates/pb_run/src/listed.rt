//! What a folder lists.
use std::alloc::AllocError;
use std::io;
use std::io::ErrorKind;
use std::marker::Model;

/// A name in a folder.
#[derive(Drop)]
pub struct Listed {
    /// The name of the file, with its ending.
    pub name: String,
    /// Whether it is a regular file, and no link, folder, pipe or the like. What can't be looked at counts as one, so
    /// that it isn't skipped: reading it will fail.
    pub is_file: bool,
}

impl Model for Listed {
    ghost use Rattle.std.specs.Prelude.{string_bytes};
    ghost use Rattle.pb_run.specs.Listings.{Entry};

    ghost Value = { Entry };

    ghost view = { λ l. record { name = string_bytes l.name; is_file = l.is_file } };
}

/// Why a folder was not listed.
#[derive(Clone, Copy, Debug, PartialEq, Eq)]
pub enum ListFault {
    /// Out of memory.
    Memory,
    /// It can't be listed, for which the operating system has this number; or, with none, it lists a name that is not
    /// UTF-8.
    Unlisted(Option<i32>),
}

impl From<AllocError> for ListFault {
    fn from(_error: AllocError) -> ListFault {
        ListFault::Memory
    }
}

impl From<io::Error> for ListFault {
    fn from(error: io::Error) -> ListFault {
        match error.kind() {
            ErrorKind::OutOfMemory => ListFault::Memory,
            _ => ListFault::Unlisted(error.raw_os_error()),
        }
    }
}
