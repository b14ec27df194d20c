//! What a share of the limit has to come to.

ghost use Rattle.std.specs.Prelude.{◌≡◌, ◌≤◌, ◌*◌, nat_le};
ghost use Rattle.pb_election.specs.Instance as spec;
ghost use Rattle.pb_election.specs.Instance.{IsProject};
ghost use Rattle.pb_cohesion.specs.Closest.{most_need};
ghost use Rattle.pb_cohesion.specs.Short.{need};

use pb_certificate::Measure;
use pb_election::Election;

/// What a share has to come to for a project, on top of what one member got.
pub(crate) fn needed(election: &Election, measure: Measure, c: u32, got: u128) -> u128
    requires project { IsProject election.now c }
    requires small { need measure election.now c got ≤ most_need }
    ensures { result ≡ need measure election.now c got }
{
    let cost = u128::from(election.cost(c).millionths());
    match measure {
        Measure::ByCount => cost * got + cost,
        Measure::ByCost => cost + got,
    }
}

/// Whether the share of so many voters comes to that.
pub(crate) fn is_enough(election: &Election, voters: u32, need: u128) -> bool
    requires { need ≤ most_need }
    ensures { result ≡ nat_le (spec.voters election.now * need) (voters * (election.now).limit) }
{
    let share = u128::from(voters) * u128::from(election.limit().millionths());
    u128::from(election.voters()) * need <= share
}
