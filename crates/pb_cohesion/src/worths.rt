//! Costs and worths of sets of projects.

ghost use Rattle.std.specs.Prelude.{◌≡◌, ◌≤◌, ◌*◌, filter, length};
ghost use Rattle.pb_money.specs.Money.{most_money};
ghost use Rattle.pb_election.specs.Instance as spec;
ghost use Rattle.pb_election.specs.Outcome.{OutcomeFits, has};
ghost use Rattle.pb_cohesion.specs.Groups.{AreProjects, sat};

use crate::Satisfaction;
use pb_election::{Election, Outcome};

/// What the projects of a set cost together, in millionths.
pub(crate) fn cost_of_all(election: &Election, projects: &[u32]) -> u128
    requires { AreProjects election.now projects.now }
    ensures value { result ≡ spec.cost_of_all election.now projects.now }
    ensures small { result ≤ length projects.now * most_money }
{
    let mut total = 0;
    for j in projects {
        total += u128::from(election.cost(*j).millionths());
    }
    total
}

/// What the projects of a set are worth together.
pub(crate) fn worth_of_all<S: Satisfaction>(
    election: &Election,
    satisfaction: &S,
    projects: &[u32],
) -> u128
    requires { AreProjects election.now projects.now }
    ensures value { result ≡ sat (S.meaning satisfaction.now election.now) projects.now }
    ensures small { result ≤ length projects.now * most_money }
{
    let mut total = 0;
    for j in projects {
        total += satisfaction.worth(election, *j);
    }
    total
}

/// What the funded projects of a set are worth together.
pub(crate) fn worth_of_funded<S: Satisfaction>(
    election: &Election,
    outcome: &Outcome,
    satisfaction: &S,
    projects: &[u32],
) -> u128
    requires outcome { OutcomeFits outcome.now election.now }
    requires projects { AreProjects election.now projects.now }
    ensures value { result ≡ sat (S.meaning satisfaction.now election.now) (filter (has (outcome.now).marks) projects.now) }
    ensures small { result ≤ length projects.now * most_money }
{
    let mut total = 0;
    for j in projects {
        if outcome.has(*j) {
            total += satisfaction.worth(election, *j);
        }
    }
    total
}
