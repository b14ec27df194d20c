//! Files as a run has them: at paths, and in folders.
ghost use Rattle.std.specs.Prelude.{List, ℕ, IfOk};
ghost use Rattle.pb_run.specs.Listings.{Entry};

use crate::listed::{ListFault, Listed};
use pb_audit::Loaded;
use pb_reply::Given;
use std::alloc::{AllocError, Global};

/// Files at paths, and folders: those of the machine, or others.
pub trait Files {
    /// A file, which is opened when its turn comes.
    type Input: Given<Taken = Loaded> + Drop;

    // That one file was handed out, of a path, by what the files were before and are after. Where none is handed out
    // they stay as they are.
    ghost hands: { Self → Self → List ℕ → Self.Input → Type 0 };

    // That a folder was listed, and what it has.
    ghost lists: { Self → Self → List ℕ → List Entry → Type 0 };

    /// The file at a path, which isn't opened yet. An error means out of memory.
    fn at(&mut self, alloc: Global, path: &str) -> Result<Self::Input, AllocError>
        ensures { IfOk result (hands self.old self.new path.now) };

    /// What a folder lists, in any order.
    fn list(&mut self, alloc: Global, folder: &str) -> Result<Vec<Listed>, ListFault>
        ensures { IfOk result (λ listed. lists self.old self.new folder.now listed.items) };

    /// The operating system's number for the last failure of a read, where there was one.
    fn failure(&self) -> Option<i32>;

    /// The bytes of a file that can be read again. An error means out of memory.
    fn again(&mut self, alloc: Global, path: &str) -> Result<Option<Vec<u8>>, AllocError>;

    /// Of the names in a folder that aren't UTF-8, the first in byte order. An error means out of memory.
    fn first_not_text(
        &mut self,
        alloc: Global,
        folder: &str,
    ) -> Result<Option<Vec<u8>>, AllocError>;
}
