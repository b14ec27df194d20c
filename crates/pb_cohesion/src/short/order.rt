//! The voters in the order of what they got.

ghost use Rattle.std.specs.Prelude.{◌≡◌, ◌≤◌, IfOk, length};
ghost use Rattle.pb_election.specs.Instance.{IsVoter, most_voters};
ghost use Rattle.pb_election.specs.Outcome.{OutcomeFits};
ghost use Rattle.pb_cohesion.specs.Inside.Counting.{AreByGot, NeedsAreSmall};
ghost use Rattle.pb_cohesion.specs.Short.{got};

use crate::worths::worth_of_funded;
use pb_certificate::Measure;
use pb_election::{Election, Outcome};
use std::alloc::{AllocError, Global};

/// All voters, each behind what it got, and those first that got the least.
pub(crate) fn voters_by_got(
    alloc: Global,
    election: &Election,
    outcome: &Outcome,
    measure: Measure,
) -> Result<Vec<(u128, u32)>, AllocError>
    requires { OutcomeFits outcome.now election.now }
    ensures order { IfOk result (λ order. AreByGot measure election.now (outcome.now).marks order.items) }
    ensures few { IfOk result (λ order. length order.items ≤ most_voters) }
    ensures small { IfOk result (λ order. NeedsAreSmall measure election.now order.items) }
{
    let voters = election.voters();
    let mut order = Vec::with_capacity(alloc, voters as usize)?;
    for k in 0..voters {
        order.push((got_by(election, outcome, measure, k + 1), k + 1))?;
    }
    order.sort_unstable_by_key(|one: &(u128, u32)| one.0);
    Ok(order)
}

/// What a voter got.
pub(crate) fn got_by(election: &Election, outcome: &Outcome, measure: Measure, i: u32) -> u128
    requires outcome { OutcomeFits outcome.now election.now }
    requires voter { IsVoter election.now i }
    ensures { result ≡ got measure election.now (outcome.now).marks i }
{
    worth_of_funded(election, outcome, &measure, election.ballot(i))
}
