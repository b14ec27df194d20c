//! How often the weights of a refutation count the budgets of the voters, where prices are stable.

ghost use Rattle.std.specs.Prelude.{◌≡◌, ◌≤◌, ◌+◌, ◌*◌, filter, length};
ghost use Rattle.pb_election.specs.Instance.{IsSet, most_projects};
ghost use Rattle.pb_election.specs.Outcome.{OutcomeFits, has};
ghost use Rattle.pb_certificate.specs.Refutations.{most_weight};
ghost use Rattle.pb_cohesion.specs.Amounts.{largest_by};
ghost use Rattle.pb_cohesion.specs.Refutations.{above, counts, is_made_up, least_below, positive_part, stable_budgets_counted};

use super::budgets::{counted, most_counted, taken_left};
use pb_certificate::Refutation;
use pb_election::{Election, Outcome};

/// How often the weights count the budgets of all voters, at most, where prices are stable.
pub(crate) fn stable_budgets(
    election: &Election,
    outcome: &Outcome,
    refutation: &Refutation,
) -> u128
    requires { OutcomeFits outcome.now election.now }
    ensures { result ≡ stable_budgets_counted election.now (outcome.now).marks refutation.now }
{
    let mut total = u128::from(election.voters()) * u128::from(refutation.cover());
    for k in 0..election.voters() {
        let ballot = election.ballot(k + 1);
        let left = taken_left(outcome, refutation, ballot);
        total += u128::from(stable_counted(outcome, refutation, ballot, left));
    }
    total
}

// So often the budget of the voter of a ballot counts at the most, where its unfunded projects weigh so much: found by
// halving, since what is made up for at a number is made up for at each larger one.
fn stable_counted(outcome: &Outcome, refutation: &Refutation, ballot: &[u32], left: u64) -> u64
    requires ballot { IsSet 1 (length (outcome.now).marks) ballot.now }
    requires short { length ballot.now ≤ most_projects }
    requires few { left ≤ most_projects * most_weight }
    ensures value { result ≡ least_below (largest_by (λ j. positive_part (counts refutation.now left j)) (filter (has (outcome.now).marks) ballot.now)) (is_made_up refutation.now left (filter (has (outcome.now).marks) ballot.now)) }
    ensures small { result ≤ (most_projects + 1) * most_weight }
{
    let mut low = 0;
    let mut high = most_counted(outcome, refutation, ballot, left);
    while low < high {
        let middle = low + (high - low) / 2;
        if is_made_up(outcome, refutation, ballot, left, middle) {
            high = middle;
        } else {
            low = middle + 1;
        }
    }
    high
}

// Whether offers make up for what the funded projects of a ballot count above x.
fn is_made_up(outcome: &Outcome, refutation: &Refutation, ballot: &[u32], left: u64, x: u64) -> bool
    requires ballot { IsSet 1 (length (outcome.now).marks) ballot.now }
    requires short { length ballot.now ≤ most_projects }
    requires few { left ≤ most_projects * most_weight }
    ensures { result ≡ is_made_up refutation.now left (filter (has (outcome.now).marks) ballot.now) x }
{
    counted_above(outcome, refutation, ballot, left, x) <= u128::from(x.min(left))
}

// What the funded projects of a ballot count above x, together.
fn counted_above(
    outcome: &Outcome,
    refutation: &Refutation,
    ballot: &[u32],
    left: u64,
    x: u64,
) -> u128
    requires ballot { IsSet 1 (length (outcome.now).marks) ballot.now }
    requires short { length ballot.now ≤ most_projects }
    requires few { left ≤ most_projects * most_weight }
    ensures { result ≡ above refutation.now left (filter (has (outcome.now).marks) ballot.now) x }
{
    let mut above = 0;
    for j in ballot {
        if outcome.has(*j) {
            above += u128::from(counted(refutation, *j, left).saturating_sub(x));
        }
    }
    above
}
