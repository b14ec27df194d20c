//! How many steps a look-up takes in a set of ids, counted beside the set. No answer depends on the count: were it
//! wrong, answers would take longer and be the same.
use std::alloc::{AllocError, Global};
use std::hash::{BuildHasher, BuildHasherDefault, FoldHasher};

/// The most steps that a look-up of an id may take. Ids that nobody made to collide need about 10.
const MOST_STEPS: u32 = 32;

/// How many places `indexmap` gives a group, and how many of them it fills on average before it takes more groups.
const PLACES: usize = 12;

const LOAD: usize = 9;

/// The places of the table of an `IndexSet` of ids: the tags of its hashes, 0 where a place is free, and the hashes in
/// the order of the ids. It does what `indexmap` does with its fixed seed.
#[derive(Drop)]
pub(crate) struct Steps {
    groups: Vec<[u8; PLACES]>,
    hashes: Vec<u32>,
}

impl Steps {
    /// Of a set without ids.
    pub fn new(alloc: Global) -> Steps {
        Steps {
            groups: Vec::new(alloc),
            hashes: Vec::new(alloc),
        }
    }

    /// One more id. Tells whether a look-up takes too many steps with it.
    pub fn exceed(&mut self, id: &str) -> Result<bool, AllocError> {
        let hash = hash_of(id);
        self.hashes.push(hash)?;
        if self.hashes.len() <= LOAD.saturating_mul(self.groups.len()) {
            return Ok(takes_too_many(self.groups.as_mut_slice(), hash));
        }
        let count = self.groups.len().saturating_mul(2).max(1);
        self.groups.clear();
        self.groups.resize(count, [0; PLACES])?;
        let mut exceeded = false;
        for hash in &self.hashes {
            exceeded |= takes_too_many(self.groups.as_mut_slice(), *hash);
        }
        Ok(exceeded)
    }
}

// The hash by which `indexmap` places an id.
fn hash_of(id: &str) -> u32 {
    let hasher: BuildHasherDefault<FoldHasher> = BuildHasherDefault::new();
    let hash = hasher.hash_one(id);
    ((hash ^ (hash >> 32)) & 0xFFFF_FFFF) as u32
}

// Puts a hash into the first free place, from its own group on. Tells whether a look-up that goes there takes too many
// steps: one for each group that it leaves, and one for each text that it compares because the tag is the same.
fn takes_too_many(groups: &mut [[u8; PLACES]], hash: u32) -> bool {
    let tag = ((hash >> 24) as u8).max(1);
    let last = groups.len().saturating_sub(1);
    let mut at = hash as usize & last;
    let mut steps = 0u32;
    for _ in 0..=MOST_STEPS {
        let Some(group) = groups.get_mut(at) else {
            return false;
        };
        let (is_put, compared) = put(group, tag);
        steps = steps.saturating_add(compared);
        if is_put {
            return steps > MOST_STEPS;
        }
        steps = steps.saturating_add(1);
        at = at.wrapping_add(1) & last;
    }
    true
}

// Puts a tag into the first free place of a group, and tells whether there is one, and how many places before it have
// the same tag.
fn put(group: &mut [u8; PLACES], tag: u8) -> (bool, u32) {
    let mut same = 0u32;
    for place in group.iter_mut() {
        if *place == 0 {
            *place = tag;
            return (true, same);
        }
        same = same.saturating_add(u32::from(*place == tag));
    }
    (false, same)
}
