//! What projects are worth to the voters that approve them.

ghost use Rattle.std.specs.Prelude.{◌≡◌, ◌≤◌, ℕ};
ghost use Rattle.pb_money.specs.Money.{most_money};
ghost use Rattle.pb_election.specs.Instance.{Instance, IsProject};
ghost use Rattle.pb_cohesion.specs.Satisfactions.{by_cost, by_count, worth_by};

use pb_certificate::Measure;
use pb_election::Election;

/// A measure of what projects are worth to the voters that approve them. The worth of several projects is the sum of
/// theirs.
pub trait Satisfaction {
    // What each project of an election is worth, by its number.
    ghost meaning: { Self → Instance → ℕ → ℕ };

    /// What project `j` of the election is worth: at most 10^18. Projects are numbered from 1.
    fn worth(&self, election: &Election, j: u32) -> u128
        requires { IsProject election.now j }
        ensures value { result ≡ meaning self.now election.now j }
        ensures small { result ≤ most_money };
}

/// Satisfaction by counting: each project is worth 1.
#[derive(Clone, Copy, Debug, PartialEq, Eq)]
pub struct Count;

impl Satisfaction for Count {
    ghost meaning = { λ s e. by_count };

    fn worth(&self, _election: &Election, _j: u32) -> u128 {
        1
    }
}

/// Satisfaction by cost: each project is worth what it costs, in millionths of the currency.
#[derive(Clone, Copy, Debug, PartialEq, Eq)]
pub struct Cost;

impl Satisfaction for Cost {
    ghost meaning = { λ s e. by_cost e };

    fn worth(&self, election: &Election, j: u32) -> u128 {
        u128::from(election.cost(j).millionths())
    }
}

/// The satisfaction that a violation certificate states: by counting or by cost.
impl Satisfaction for Measure {
    ghost meaning = { worth_by };

    fn worth(&self, election: &Election, j: u32) -> u128 {
        match self {
            Measure::ByCount => Count.worth(election, j),
            Measure::ByCost => Cost.worth(election, j),
        }
    }
}
