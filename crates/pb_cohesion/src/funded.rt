//! What an outcome costs.

ghost use Rattle.std.specs.Prelude.{◌≡◌, ◌≤◌};
ghost use Rattle.pb_election.specs.Outcome.{OutcomeFits, most_total};
ghost use Rattle.pb_cohesion.specs.Outcome.{total};

use pb_election::{Election, Outcome};

/// What the funded projects cost together, in millionths, at most 2 * 10^22. The outcome is to fit the election.
pub fn cost_of_funded(election: &Election, outcome: &Outcome) -> u128
    requires { OutcomeFits outcome.now election.now }
    ensures value { result ≡ total election.now (outcome.now).marks }
    ensures small { result ≤ most_total }
{
    let mut cost = 0;
    for k in 0..election.projects() {
        if outcome.has(k + 1) {
            cost += u128::from(election.cost(k + 1).millionths());
        }
    }
    cost
}
