//! The keys of META.
ghost use Rattle.std.specs.Prelude.{◌≡◌};
ghost use Rattle.csv.specs.Records.{fields_of};
ghost use Rattle.pb_election.specs.Names.{lower};
ghost use Rattle.pb_election.specs.Inside.SoFar as so_far;
ghost use Rattle.pb_election.specs.Rows as rows;

use crate::markers::is_named;
use csv::StringRecord;
use pb_money::read_whole;
use pb_records::cell;

/// The greatest count that a row of META declares; a greater one is as if it were not there.
const MOST_DECLARED: u128 = 1_000_000_000_000_000_000;

/// A key of META that is read.
#[derive(Clone, Copy)]
pub enum Key {
    Budget,
    VoteType,
    NumProjects,
    NumVotes,
}

/// Which of the keys have stood in META so far.
#[derive(Clone, Copy)]
pub struct Keys {
    pub budget: bool,
    pub vote_type: bool,
    pub num_projects: bool,
    pub num_votes: bool,
}

impl Keys {
    /// Whether this key has stood.
    pub(crate) fn has_stood(self, key: Key) -> bool
        ensures { result ≡ so_far.has_stood self key }
    {
        match key {
            Key::Budget => self.budget,
            Key::VoteType => self.vote_type,
            Key::NumProjects => self.num_projects,
            Key::NumVotes => self.num_votes,
        }
    }
}

fn key_named(name: &str) -> Option<Key>
    ensures { result ≡ rows.key_named (lower name.now) }
{
    if is_named(name, "budget") {
        return Some(Key::Budget);
    }
    if is_named(name, "vote_type") {
        return Some(Key::VoteType);
    }
    if is_named(name, "num_projects") {
        return Some(Key::NumProjects);
    }
    if is_named(name, "num_votes") {
        return Some(Key::NumVotes);
    }
    None
}

/// The key of a row of META, where it is one that is read.
#[tactic(auto, unfolding(crate::specs::Rows::key_in))]
pub(crate) fn key_in(row: &StringRecord) -> Option<Key>
    ensures { result ≡ rows.key_in (fields_of row.now) }
{
    key_named(cell(row, 0))
}

/// Whether a value of `vote_type` is that of approval votes.
pub(crate) fn is_approval(value: &str) -> bool
    ensures { result ≡ rows.is_approval value.now }
{
    is_named(value, "approval")
}

/// The count that a value declares: a whole number of at most 10^18, and else none.
#[tactic(auto, unfolding(crate::specs::Rows::count_in))]
pub(crate) fn count_in(value: &str) -> Option<u64>
    ensures { result ≡ rows.count_in value.now }
{
    match read_whole(value.as_bytes(), MOST_DECLARED) {
        Ok(count) => Some(count as u64),
        Err(_) => None,
    }
}
