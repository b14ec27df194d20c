//! The supporters of an unfunded project who come nearest to being passed over.
ghost use Rattle.std.specs.Prelude.{◌≡◌, ◌≢◌, ◌==◌, ◌≤◌, ◌<◌, ◌+◌, ◌-◌, ◌*◌, ◌%◌, ◌^◌, ◌-ℤ◌, ℕ, pos, IfOk, IfSome, filter, length, slice_index, sum_by};
ghost use Rattle.std.specs.Int.{bit_at};
ghost use Rattle.pb_election.specs.Instance.{IsProject, IsSet, all_projects, cost_of, most_projects, most_voters, projects, voters};
ghost use Rattle.pb_election.specs.Outcome.{OutcomeFits, most_total};
ghost use Rattle.pb_price.specs.NearestGroup as spec;
ghost use Rattle.pb_price.specs.Inside.Reached.{AreCounted, AreReached, AreSupporters, GetWord, IsSmallGroup, IsWordOf, funded_with_bit, nearer_of};

use crate::OnGroups;
use pb_election::{Election, Outcome};
use std::alloc::{AllocError, Global};

/// The supporters of an unfunded project, and what was funded for them.
#[derive(Clone, Copy)]
pub struct NearestGroup {
    /// The project, from 1.
    pub project: u32,
    /// How many supporters it has.
    pub supporters: u32,
    /// What the funded projects that at least one of them approves cost together, in millionths.
    pub funded_for: u128,
}

/// The unfunded project whose supporters come nearest to what a yes to prices says of groups, with their figures: their
/// share of the limit is above what the project costs and was funded for them together by most, or below it by least. Of
/// several it is the first; `None` where little is said, and where there are no voters or no unfunded project. Takes memory
/// for the projects alone, and a pass over the ballots for each 128 projects. The outcome is to fit the election. An error
/// means out of memory.
pub fn nearest_to(
    alloc: Global,
    election: &Election,
    outcome: &Outcome,
    said: OnGroups,
) -> Result<Option<NearestGroup>, AllocError>
    requires { OutcomeFits outcome.now election.now }
    ensures found { IfOk result (λ nearest. nearest ≡ spec.nearest_to said election.now (outcome.now).marks) }
    ensures project { IfOk result (λ nearest. IfSome nearest (λ g. IsProject election.now g.project)) }
    ensures voters { IfOk result (λ nearest. IfSome nearest (λ _. 0 < voters election.now)) }
{
    match said {
        OnGroups::Strict | OnGroups::Weak if election.voters() > 0 => {
            nearest_group(alloc, election, outcome)
        }
        _ => Ok(None),
    }
}

// The unfunded project whose supporters come nearest to being passed over; `None` where no project is unfunded.
fn nearest_group(
    alloc: Global,
    election: &Election,
    outcome: &Outcome,
) -> Result<Option<NearestGroup>, AllocError>
    requires { OutcomeFits outcome.now election.now }
    ensures found { IfOk result (λ nearest. nearest ≡ spec.nearest_group election.now (outcome.now).marks) }
    ensures project { IfOk result (λ nearest. IfSome nearest (λ g. IsProject election.now g.project)) }
{
    let counts = supporter_counts(alloc, election)?;
    let mut words = Vec::new(alloc);
    let mut nearest = None;
    for k in 0..election.projects() {
        words = words_for(alloc, election, k, words)?;
        if !outcome.has(k + 1) {
            let group = NearestGroup {
                project: k + 1,
                supporters: counts[k as usize],
                funded_for: cost_of_reached(election, outcome, &words, k % 128),
            };
            nearest = Some(nearer(election, nearest, group));
        }
    }
    Ok(nearest)
}

impl NearestGroup {
    // By how much the supporters' share is above what the project costs and was funded for them: negative where it is
    // below. Both are taken as many times as there are voters.
    fn surplus(&self, election: &Election) -> i128
        requires project { IsProject election.now (self.now).project }
        requires supporters { (self.now).supporters ≤ most_voters }
        requires small { (self.now).funded_for ≤ most_total }
        ensures { result ≡ pos ((self.now).supporters * (election.now).limit) -ℤ pos (voters election.now * (cost_of election.now (self.now).project + (self.now).funded_for)) }
    {
        let share = u128::from(self.supporters) * u128::from(election.limit().millionths());
        let cost = u128::from(election.cost(self.project).millionths());
        let bound = u128::from(election.voters()) * (cost + self.funded_for);
        share as i128 - bound as i128
    }
}

// The nearer of the one that is known, if there is one, and another behind it.
fn nearer(election: &Election, known: Option<NearestGroup>, group: NearestGroup) -> NearestGroup
    requires known { IfSome known (IsSmallGroup election.now) }
    requires group { IsSmallGroup election.now group }
    ensures { result ≡ nearer_of election.now known group }
{
    match known {
        Some(nearest) if group.surplus(election) <= nearest.surplus(election) => nearest,
        _ => group,
    }
}

// How many supporters each project has.
fn supporter_counts(alloc: Global, election: &Election) -> Result<Vec<u32>, AllocError>
    ensures { IfOk result (λ counts. AreSupporters (voters election.now) election.now counts.items) }
{
    let mut counts = vec![in alloc; 0; election.projects() as usize]?;
    for k in 0..election.voters() {
        count_ballot(&mut counts, election.ballot(k + 1));
    }
    Ok(counts)
}

// Counts a ballot at each project that it has.
fn count_ballot(counts: &mut [u32], ballot: &[u32])
    requires ballot { IsSet 1 (length counts.old) ballot.now }
    requires few { (c : ℕ) → slice_index counts.old c < 2 ^ 32 - 1 }
    ensures { AreCounted counts.old counts.new ballot.now }
{
    for j in ballot {
        counts[*j as usize - 1] += 1;
    }
}

// The words of the block of the project behind k. They are known, unless it is the first of its block.
fn words_for(
    alloc: Global,
    election: &Election,
    k: u32,
    known: Vec<u128>,
) -> Result<Vec<u128>, AllocError>
    requires project { k < projects election.now }
    requires known { 0 < k % 128 → AreReached (voters election.now) election.now (k - k % 128) known.items }
    ensures { IfOk result (λ words. AreReached (voters election.now) election.now (k - k % 128) words.items) }
{
    if k % 128 == 0 {
        reached_by_block(alloc, election, k)
    } else {
        Ok(known)
    }
}

// For each project a word of the projects of a block with which it has a supporter in common: the 128 projects behind
// `low`.
fn reached_by_block(alloc: Global, election: &Election, low: u32) -> Result<Vec<u128>, AllocError>
    requires { low ≤ projects election.now }
    ensures { IfOk result (λ words. AreReached (voters election.now) election.now low words.items) }
{
    let mut words = vec![in alloc; 0; election.projects() as usize]?;
    for k in 0..election.voters() {
        let ballot = election.ballot(k + 1);
        let word = word_of(ballot, low);
        if word != 0 {
            add_word(&mut words, ballot, word);
        }
    }
    Ok(words)
}

// A word of the projects of a block that a ballot has.
fn word_of(ballot: &[u32], low: u32) -> u128
    requires { low ≤ most_projects }
    ensures { IsWordOf ballot.now low result }
{
    let mut word = 0;
    for j in ballot {
        if low < *j && *j <= low + 128 {
            word = with_bit(word, *j - low - 1);
        }
    }
    word
}

// Adds the bits of a word to the words of the projects of a ballot.
fn add_word(words: &mut [u128], ballot: &[u32], word: u128)
    requires { IsSet 1 (length words.old) ballot.now }
    ensures { GetWord word words.old words.new ballot.now }
{
    for j in ballot {
        words[*j as usize - 1] |= word;
    }
}

// A word with one more bit.
fn with_bit(word: u128, k: u32) -> u128
    requires { k < 128 }
    ensures set { bit_at result k ≡ 1 }
    ensures others { (i : ℕ) → i ≢ k → bit_at result i ≡ bit_at word i }
{
    word | (1 << k)
}

// Whether a word has a bit.
fn has_bit(word: u128, k: u32) -> bool
    requires { k < 128 }
    ensures { result ≡ (bit_at word k == 1) }
{
    (word >> k) & 1 == 1
}

// What the funded projects cost together, in millionths, whose words have a bit.
fn cost_of_reached(election: &Election, outcome: &Outcome, words: &[u128], place: u32) -> u128
    requires outcome { OutcomeFits outcome.now election.now }
    requires words { length words.now ≡ projects election.now }
    requires place { place < 128 }
    ensures value { result ≡ sum_by (cost_of election.now) (filter (funded_with_bit (outcome.now).marks words.now place) (all_projects election.now)) }
    ensures small { result ≤ most_total }
{
    let mut cost = 0;
    for k in 0..election.projects() {
        if outcome.has(k + 1) && has_bit(words[k as usize], place) {
            cost += u128::from(election.cost(k + 1).millionths());
        }
    }
    cost
}
