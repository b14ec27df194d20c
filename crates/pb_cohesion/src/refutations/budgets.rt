//! How often the weights of a refutation count the budgets of the voters, and how often they take them.

ghost use Rattle.std.specs.Prelude.{◌≡◌, ◌≤◌, ◌+◌, ◌*◌, filter, length, not, sum_by};
ghost use Rattle.pb_election.specs.Instance.{IsSet, most_projects};
ghost use Rattle.pb_election.specs.Outcome.{OutcomeFits, has};
ghost use Rattle.pb_certificate.specs.Refutations.{most_weight, weight};
ghost use Rattle.pb_cohesion.specs.Amounts.{largest_by};
ghost use Rattle.pb_cohesion.specs.Refutations.{budgets_counted, budgets_taken, counts, positive_part};

use pb_certificate::{Refutation, Role};
use pb_election::{Election, Outcome};

/// How often the weights count the budgets of all voters, at most, and how often they take them.
pub(crate) fn budgets(
    election: &Election,
    outcome: &Outcome,
    refutation: &Refutation,
) -> (u128, u128)
    requires { OutcomeFits outcome.now election.now }
    ensures counted { result.0 ≡ budgets_counted election.now (outcome.now).marks refutation.now }
    ensures taken { result.1 ≡ budgets_taken election.now (outcome.now).marks refutation.now }
{
    let mut counted = u128::from(election.voters()) * u128::from(refutation.cover());
    let mut taken = 0;
    for k in 0..election.voters() {
        let ballot = election.ballot(k + 1);
        let left = taken_left(outcome, refutation, ballot);
        counted += u128::from(most_counted(outcome, refutation, ballot, left));
        taken += u128::from(left);
    }
    (counted, taken)
}

/// What the unfunded projects of a ballot weigh together.
pub(super) fn taken_left(outcome: &Outcome, refutation: &Refutation, ballot: &[u32]) -> u64
    requires ballot { IsSet 1 (length (outcome.now).marks) ballot.now }
    requires few { length ballot.now ≤ most_projects }
    ensures value { result ≡ sum_by (weight refutation.now) (filter (λ j. not (has (outcome.now).marks j)) ballot.now) }
    ensures small { result ≤ most_projects * most_weight }
{
    let mut total = 0;
    for j in ballot {
        if !outcome.has(*j) {
            total += refutation.weight(*j);
        }
    }
    total
}

/// So often a payment counts at the most, over the funded projects of a ballot, where its unfunded ones weigh so much.
pub(super) fn most_counted(
    outcome: &Outcome,
    refutation: &Refutation,
    ballot: &[u32],
    left: u64,
) -> u64
    requires ballot { IsSet 1 (length (outcome.now).marks) ballot.now }
    requires few { left ≤ most_projects * most_weight }
    ensures value { result ≡ largest_by (λ j. positive_part (counts refutation.now left j)) (filter (has (outcome.now).marks) ballot.now) }
    ensures small { result ≤ (most_projects + 1) * most_weight }
{
    let mut most = 0;
    for j in ballot {
        if outcome.has(*j) {
            most = most.max(counted(refutation, *j, left));
        }
    }
    most
}

/// So often a payment for a funded project counts.
pub(super) fn counted(refutation: &Refutation, j: u32, left: u64) -> u64
    requires project { 1 ≤ j }
    requires few { left ≤ most_projects * most_weight }
    ensures value { result ≡ positive_part (counts refutation.now left j) }
    ensures small { result ≤ (most_projects + 1) * most_weight }
{
    let weight = refutation.weight(j);
    match refutation.role(j) {
        Some(Role::Least) => left + weight,
        Some(Role::Most) => left.saturating_sub(weight),
        Some(Role::Left) | None => left,
    }
}
