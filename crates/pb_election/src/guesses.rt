//! Guesses where the ids of projects stand, which cost less than a search.
use std::alloc::{AllocError, Global};

/// How many slots there are: far more than most elections have projects, and few enough for a processor's cache.
const SLOTS: usize = 1 << 15;

/// An odd number whose bits are mixed well, by which a word is multiplied.
const MULTIPLIER: u64 = 0x9E37_79B9_7F4A_7C15;

/// How far the bits of a slot stand up in a word of 64.
const SHIFT: u32 = 49;

/// Of each slot the index at which the last id stands that was noted for it, and 0 before the first. A guess is only a
/// place to look at first: another id can stand there.
#[derive(Drop)]
pub(crate) struct Guesses {
    slots: Vec<u16>,
}

impl Guesses {
    /// Nothing was noted.
    pub fn new(alloc: Global) -> Result<Guesses, AllocError> {
        let slots = vec![in alloc; 0u16; SLOTS]?;
        Ok(Guesses { slots })
    }

    /// Notes at which index an id stands.
    pub fn note(&mut self, id: &str, index: usize) {
        let Ok(index) = u16::try_from(index) else {
            return;
        };
        if let Some(slot) = self.slots.get_mut(slot_of(id)) {
            *slot = index;
        }
    }

    /// The index at which an id may stand.
    pub fn guess(&self, id: &str) -> usize {
        match self.slots.get(slot_of(id)) {
            Some(index) => usize::from(*index),
            None => 0,
        }
    }
}

// The slot of an id, by its first eight bytes and its last eight, by its last eight, four or three, or by all of fewer.
fn slot_of(id: &str) -> usize {
    let word = match id.as_bytes() {
        [a, b, c, d, e, f, g, h, .., s, t, u, v, w, x, y, z] => {
            let first = u64::from_le_bytes([*a, *b, *c, *d, *e, *f, *g, *h]);
            let last = u64::from_le_bytes([*s, *t, *u, *v, *w, *x, *y, *z]);
            first.wrapping_mul(MULTIPLIER) ^ last
        }
        [.., a, b, c, d, e, f, g, h] => u64::from_le_bytes([*a, *b, *c, *d, *e, *f, *g, *h]),
        [.., a, b, c, d] => u64::from(u32::from_le_bytes([*a, *b, *c, *d])),
        [.., a, b, c] => u64::from(u32::from_le_bytes([*a, *b, *c, 0])),
        short => short
            .iter()
            .fold(0u64, |word, byte| word << 8 | u64::from(*byte)),
    };
    (word.wrapping_mul(MULTIPLIER) >> SHIFT) as usize
}
