//! The members of a group that is shown.

ghost use Rattle.std.specs.Prelude.{◌≡◌, ℕ, IfOk, List};
ghost use Rattle.pb_election.specs.Instance.{IsProject};
ghost use Rattle.pb_election.specs.Outcome.{OutcomeFits};
ghost use Rattle.pb_cohesion.specs.Closest.{IsShown, most_got, up_to};

use super::order::got_by;
use pb_certificate::Measure;
use pb_election::{Election, Outcome};
use std::alloc::{AllocError, Global};

/// The supporters of a project that got at most so much, rising. With the most that a member got by the figures of a
/// project, these are the members of the group that is shown. The outcome is to fit the election. An error means out of
/// memory.
pub fn members_up_to(
    alloc: Global,
    election: &Election,
    outcome: &Outcome,
    measure: Measure,
    project: u32,
    most: u128,
) -> Result<Vec<u32>, AllocError>
    requires outcome { OutcomeFits outcome.now election.now }
    requires project { IsProject election.now project }
    ensures members { IfOk result (λ members. members.items ≡ up_to measure election.now (outcome.now).marks project most) }
    ensures shown { (s : List ℕ) → IsShown measure election.now (outcome.now).marks s project → most ≡ most_got measure election.now (outcome.now).marks s → IfOk result (λ members. members.items ≡ s) }
{
    let mut members = Vec::new(alloc);
    for k in 0..election.voters() {
        let i = k + 1;
        if election.approves(i, project) && got_by(election, outcome, measure, i) <= most {
            members.push(i)?;
        }
    }
    Ok(members)
}
