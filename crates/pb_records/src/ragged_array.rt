//! Many short lists, one behind the other in one array.
ghost use Rattle.std.specs.Prelude.{◌≡◌, ◌+◌, ◌<◌, ◌^◌, ◌∷◌, ◌++◌, [], if◌then◌else◌, length, is_ok, IfOk, slice_index_or};
ghost use Rattle.std.specs.List.{sum_by};

use std::alloc::{AllocError, Global};
use std::marker::Model;

/// Lists that stand one behind the other in one array, so that each is lent as a slice and none has an array of its
/// own. They are numbered from 0, and have fewer than 2^32 entries together.
#[derive(Drop)]
pub struct RaggedArray<T> {
    entries: Vec<T>,
    // Where each list starts in the array, and then the array's length.
    starts: Vec<u32>,
}

impl<T> Model for RaggedArray<T> {
    ghost use Rattle.std.specs.Prelude.{List, length};
    ghost use Rattle.std.specs.Coded.{coded_list};

    ghost Value = { List (List T) };

    ghost coded = { coded_list (coded_list T.code) };

    ghost use Rattle.pb_records.specs.Flat.{AreStarts, cut_at_starts};

    ghost view = { λ a. cut_at_starts a.starts.items a.entries.items };

    ghost invariant = { λ a. AreStarts a.starts.items (length a.entries.items) };
}

impl<T: Copy> RaggedArray<T> {
    /// No lists yet.
    pub fn new(alloc: Global) -> Result<RaggedArray<T>, AllocError>
        ensures { IfOk result (λ runs. runs ≡ []) }
    {
        let mut starts = Vec::new(alloc);
        starts.push(0)?;
        Ok(RaggedArray {
            entries: Vec::new(alloc),
            starts,
        })
    }

    /// Adds a list at the end. Out of memory, the lists are as before.
    pub fn push(&mut self, run: &[T]) -> Result<(), AllocError>
        requires { sum_by length self.old + length run.now < 2 ^ 32 }
        ensures { self.new ≡ (if is_ok result then self.old ++ run.now ∷ [] else self.old) }
    {
        let end = self.entries.len() + run.len();
        self.starts.push(end as u32)?;
        if self.entries.extend_from_slice(run).is_err() {
            self.starts.pop();
            return Err(AllocError);
        }
        Ok(())
    }

    /// How many lists there are.
    pub fn len(&self) -> usize
        ensures { result ≡ length self.now }
    {
        self.starts.len() - 1
    }

    /// How many entries all lists have together.
    pub fn total_len(&self) -> usize
        ensures { result ≡ sum_by length self.now }
    {
        self.entries.len()
    }

    /// The list of a number, from 0.
    pub fn get(&self, place: usize) -> &[T]
        requires { place < length self.now }
        ensures { result.now ≡ slice_index_or self.now place [] }
    {
        let start = self.starts[place] as usize;
        let end = self.starts[place + 1] as usize;
        &self.entries[start..end]
    }
}
