//! Ballots.
ghost use Rattle.std.specs.Prelude.{◌≡◌, ◌≤◌, ◌==◌, ◌∷◌, ◌++◌, true, false, Some, length, map, position, IfOk, MatchOption};
ghost use Rattle.std.specs.List.{list_all, list_any};
ghost use Rattle.std.specs.Option.{option_copied};
ghost use Rattle.std.specs.Str.{byte};
ghost use Rattle.pb_election.specs.Names.{is_among};
ghost use Rattle.pb_election.specs.Inside.Ids.{position_in};
ghost use Rattle.pb_election.specs.Instance.{most_projects};
ghost use Rattle.pb_election.specs.Rows.{names_in, positions_of};

use crate::ids::Ids;
use pb_records::clean;
use std::alloc::AllocError;

fn first_comma(text: &str) -> Option<usize>
    ensures { result ≡ position (λ b. b == byte ",") text.now }
{
    text.as_bytes().iter().position(|byte| *byte == b',')
}

// The piece of a text before its first comma, and what stands behind that comma.
fn cut_first(text: &str) -> (&str, Option<&str>)
    ensures piece { list_any (λ b. b == byte ",") result.0.now ≡ false }
    ensures rest { MatchOption (option_copied result.1) (text.now ≡ result.0.now)
        (λ rest. text.now ≡ result.0.now ++ byte "," ∷ rest) }
{
    match first_comma(text) {
        Some(comma) => (&text[..comma], Some(&text[comma + 1..])),
        None => (text, None),
    }
}

// Puts the positions of the ids that a vote names into a list, in the vote's order and in place of what it held, and
// tells whether each of them is kept.
fn find_positions(ids: &Ids, vote: &str, found: &mut Vec<u32>) -> Result<bool, AllocError>
    requires { length ids.now ≤ most_projects }
    ensures known { IfOk result (λ known. known ≡ list_all (is_among ids.now) (names_in vote.now)) }
    ensures found { IfOk result (λ known. known ≡ true → map Some found.new.items ≡ map (position_in ids.now) (names_in vote.now)) }
{
    found.clear();
    let mut left = Some(vote);
    while let Some(text) = left {
        let (piece, rest) = cut_first(text);
        left = rest;
        let name = clean(piece);
        if !name.is_empty() {
            let Some(position) = ids.position(name) else {
                return Ok(false);
            };
            found.push(position as u32)?;
        }
    }
    Ok(true)
}

/// Puts the ballot that a vote states into a list in place of what it held, as the positions of its projects from 1,
/// rising. Tells whether each text that the vote names is the id of a project; where not, the list is left open.
pub(crate) fn ballot_in(ids: &Ids, vote: &str, ballot: &mut Vec<u32>) -> Result<bool, AllocError>
    requires { length ids.now ≤ most_projects }
    ensures known { IfOk result (λ known. known ≡ list_all (is_among ids.now) (names_in vote.now)) }
    ensures ballot { IfOk result (λ known. known ≡ true → ballot.new.items ≡ positions_of (names_in vote.now) ids.now) }
{
    if !find_positions(ids, vote, ballot)? {
        return Ok(false);
    }
    // Also tells the proof that no id is kept twice.
    prove!(ids.len() <= 20000);
    ballot.sort_unstable();
    ballot.dedup();
    Ok(true)
}
