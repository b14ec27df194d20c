//! What each test of a refutation comes to, also of those behind the first that fails.

ghost use Rattle.std.specs.Prelude.{◌≡◌, ◌≤◌, not};
ghost use Rattle.pb_election.specs.Outcome.{OutcomeFits};
ghost use Rattle.pb_certificate.specs.Refutations.{WeightsFit, row_of};
ghost use Rattle.pb_cohesion.specs.RefutationFindings as spec;
ghost use Rattle.pb_cohesion.specs.Refutations.{suits};

use super::budgets::budgets;
use super::costs::costs;
use super::stable_budgets::stable_budgets;
use crate::{MisplacedRows, RefutationFindings};
use pb_certificate::{Refutation, Role};
use pb_election::{Election, Outcome};

/// What each test of a refutation comes to by the weights of a certificate, for stable prices too where these are asked
/// about. The outcome and the certificate are to fit the election. Takes no memory.
pub fn refutation_findings(
    election: &Election,
    outcome: &Outcome,
    refutation: &Refutation,
    stable: bool,
) -> RefutationFindings
    requires outcome { OutcomeFits outcome.now election.now }
    requires refutation { WeightsFit refutation.now election.now }
    ensures { result ≡ spec.refutation_findings stable election.now (outcome.now).marks refutation.now }
{
    let (counted, taken) = budgets(election, outcome, refutation);
    let (at_least, at_most) = costs(election, outcome, refutation);
    RefutationFindings {
        misplaced: misplaced_rows(election, outcome, refutation),
        cover: refutation.cover(),
        counted,
        counted_stable: stable.then(|| stable_budgets(election, outcome, refutation)),
        taken,
        at_least,
        at_most,
    }
}

// The projects whose row is not one for projects that are funded so.
fn misplaced_rows(election: &Election, outcome: &Outcome, refutation: &Refutation) -> MisplacedRows
    requires { OutcomeFits outcome.now election.now }
    ensures { result ≡ spec.misplaced_rows election.now (outcome.now).marks refutation.now }
{
    let mut misplaced = MisplacedRows {
        first: None,
        count: 0,
    };
    for k in 0..election.projects() {
        let j = k + 1;
        if is_misplaced(refutation, j, outcome.has(j)) {
            misplaced.first = misplaced.first.or(Some(j));
            misplaced.count += 1;
        }
    }
    misplaced
}

// Whether a project has a row that is not one for projects that are funded so.
fn is_misplaced(refutation: &Refutation, j: u32, is_funded: bool) -> bool
    requires { 1 ≤ j }
    ensures { result ≡ not (suits is_funded (row_of refutation.now j)) }
{
    match refutation.role(j) {
        Some(Role::Left) => is_funded,
        Some(Role::Least | Role::Most) => !is_funded,
        None => false,
    }
}
