//! Files in memory: their bytes, or why they are not there.
ghost use Rattle.std.specs.Prelude.{◌≡◌, IfOk, IfErr};
ghost use Rattle.pb_records.specs.Loading.{Delivered};
ghost use Rattle.pb_records.specs.Loading as delivery;
ghost use Rattle.pb_reply.specs.Inputs.{in_memory, most_bytes};
ghost use Rattle.pb_reply.specs.Inside.Loaded.{delivery_of, lent};
ghost use Rattle.pb_reply.specs.Inside.Taking.{IsUnloaded};

use crate::Unanswered;
use pb_election::{LoadFault, Source, load};
use pb_input::{InputFault, InputName, InputRefusal};
use std::alloc::{AllocError, Global};

/// How many bytes an input has at most: 2^28.
const MOST_BYTES: usize = 268_435_456;

/// A file that was loaded.
#[derive(Drop)]
pub enum Loaded {
    /// All of its bytes. With more than 2^28 of them it counts as too long.
    Bytes(Vec<u8>),
    /// It could not be read.
    Unread,
    /// It has more than 2^28 bytes.
    TooLong,
}

/// A file, its bytes lent.
#[derive(Clone, Copy)]
pub enum File<'a> {
    Bytes(&'a [u8]),
    Unread,
    TooLong,
}

impl Loaded {
    /// What a reader delivers of a file: its bytes, at most 2^28, or that it failed or has more. An error means out of
    /// memory.
    pub fn load<R: Source>(alloc: Global, source: &mut R) -> Result<Loaded, AllocError>
        ensures { IfOk result (λ loaded. Delivered (R.left source.old) (R.counts source.old) (R.counts source.new) most_bytes (delivery_of loaded)) }
    {
        match load(alloc, source, MOST_BYTES) {
            Ok(bytes) => Ok(Loaded::Bytes(bytes)),
            Err(LoadFault::Read) => Ok(Loaded::Unread),
            Err(LoadFault::TooLong) => Ok(Loaded::TooLong),
            Err(LoadFault::Memory) => Err(AllocError {}),
        }
    }
}

impl<'a> File<'a> {
    /// The file of these bytes.
    pub fn in_memory(bytes: &'a [u8]) -> File<'a>
        ensures { lent result ≡ in_memory bytes.entry.now }
    {
        if bytes.len() > MOST_BYTES {
            return File::TooLong;
        }
        File::Bytes(bytes)
    }
}

/// The bytes of an input of this name, where they are there.
pub fn bytes_of<'a>(input: InputName, file: File<'a>) -> Result<&'a [u8], Unanswered>
    ensures bytes { IfOk result (λ bytes. lent file.entry ≡ delivery.Bytes bytes.now) }
    ensures refused { IfErr result (IsUnloaded input (lent file.entry)) }
{
    match file {
        File::Bytes(bytes) => Ok(bytes),
        File::Unread => Err(Unanswered::Refused(InputRefusal {
            input,
            fault: InputFault::Unread,
        })),
        File::TooLong => Err(Unanswered::Refused(InputRefusal {
            input,
            fault: InputFault::TooLong,
        })),
    }
}
