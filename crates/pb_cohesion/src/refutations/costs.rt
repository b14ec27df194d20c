//! What is paid at least and at most by the weights of a refutation, each cost by its weight.

ghost use Rattle.std.specs.Prelude.{◌≡◌, ◌≤◌, ◌^◌};
ghost use Rattle.pb_election.specs.Instance.{IsProject};
ghost use Rattle.pb_election.specs.Outcome.{OutcomeFits};
ghost use Rattle.pb_cohesion.specs.RefutationFindings.{paid_at_least, paid_or_left_at_most};
ghost use Rattle.pb_cohesion.specs.Refutations.{at_least, at_most};

use pb_certificate::{Refutation, Role};
use pb_election::{Election, Outcome};

/// What is paid at least, and what is paid and left at most, by the weights of all projects and of Cover.
pub(crate) fn costs(election: &Election, outcome: &Outcome, refutation: &Refutation) -> (u128, u128)
    requires { OutcomeFits outcome.now election.now }
    ensures least { result.0 ≡ at_least election.now (outcome.now).marks refutation.now }
    ensures most { result.1 ≡ at_most election.now (outcome.now).marks refutation.now }
{
    let mut at_least = u128::from(refutation.cover()) * u128::from(election.limit().millionths());
    let mut at_most = 0;
    for k in 0..election.projects() {
        let (least, most) = costs_of(election, outcome, refutation, k + 1);
        at_least += least;
        at_most += most;
    }
    (at_least, at_most)
}

// What the weight of a project adds to what is paid at least, and to what is paid and left at most.
fn costs_of(election: &Election, outcome: &Outcome, refutation: &Refutation, j: u32) -> (u128, u128)
    requires outcome { OutcomeFits outcome.now election.now }
    requires project { IsProject election.now j }
    ensures least { result.0 ≡ paid_at_least election.now (outcome.now).marks refutation.now j }
    ensures most { result.1 ≡ paid_or_left_at_most election.now (outcome.now).marks refutation.now j }
    ensures small_least { result.0 ≤ 10 ^ 30 }
    ensures small_most { result.1 ≤ 10 ^ 30 }
{
    let cost = u128::from(refutation.weight(j)) * u128::from(election.cost(j).millionths());
    match (outcome.has(j), refutation.role(j)) {
        (true, Some(Role::Least)) => (cost, 0),
        (true, Some(Role::Most)) => (0, cost),
        (true, _) => (0, 0),
        (false, _) => (0, cost),
    }
}
