//! Inputs as they are given: files in memory, or readers that are read when their turn comes.
ghost use Rattle.std.specs.Prelude.{◌≡◌, IfOk};
ghost use Rattle.pb_records.specs.Loading.{Delivery};
ghost use Rattle.pb_reply.specs.Inside.Loaded.{delivery_of, lent};
ghost use Rattle.pb_reply.specs.Turns.{lends, reads};

use crate::loaded::{File, Loaded};
use pb_election::Source;
use std::alloc::{AllocError, Global};

/// What was taken of an input.
pub trait AsFile {
    // What was delivered of the input.
    ghost delivery: { Self → Delivery };

    /// The file, its bytes lent.
    fn as_file(&self) -> File<'_>
        ensures { lent result ≡ delivery self.now };
}

/// An input as it is given.
pub trait Given {
    // What is taken of it.
    type Taken: AsFile + Drop;

    // That it delivers this, by what it was before and is after.
    ghost delivers: { Self → Self → Delivery → Type 0 };

    /// Takes the input, whose turn has come. An error means out of memory.
    fn take(&mut self, alloc: Global) -> Result<Self::Taken, AllocError>
        ensures { IfOk result (λ taken. delivers self.old self.new (Self.Taken.delivery taken)) };
}

impl AsFile for Loaded {
    ghost delivery = { delivery_of };

    fn as_file(&self) -> File<'_> {
        match self {
            Loaded::Bytes(bytes) => File::in_memory(bytes),
            Loaded::Unread => File::Unread,
            Loaded::TooLong => File::TooLong,
        }
    }
}

impl<'a> AsFile for File<'a> {
    ghost delivery = { lent };

    fn as_file(&self) -> File<'_> {
        *self
    }
}

/// A reader is loaded when its turn comes, and its bytes are let go with what was taken.
impl<R: Source> Given for R {
    type Taken = Loaded;

    ghost delivers = { reads R.Source };

    fn take(&mut self, alloc: Global) -> Result<Loaded, AllocError> {
        Loaded::load(alloc, self)
    }
}

/// A file in memory is there at any time.
impl<'a> Given for File<'a> {
    type Taken = File<'a>;

    ghost delivers = { lends };

    fn take(&mut self, _alloc: Global) -> Result<File<'a>, AllocError> {
        Ok(*self)
    }
}
