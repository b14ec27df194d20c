//! Whether a violation certificate proves a violation.

ghost use Rattle.std.specs.Prelude.{◌≡◌, ◌≤◌, ◌↔◌, ◌*◌, ℕ, Bool, List, nat_lt};
ghost use Rattle.pb_election.specs.Instance as spec;
ghost use Rattle.pb_election.specs.Outcome.{OutcomeFits, most_total};
ghost use Rattle.pb_certificate.specs.Violations.{ClaimFits};
ghost use Rattle.pb_cohesion.specs.FirstV.{FirstV, violation_verdict_of};
ghost use Rattle.pb_cohesion.specs.Groups.{Violates};
ghost use Rattle.pb_cohesion.specs.ViolationFindings as found;

use crate::explaining::violation_findings;
use crate::{Satisfaction, ViolationFailure, ViolationFindings, ViolationVerdict};
use pb_certificate::Violation;
use pb_election::{Election, Outcome};

/// Whether the group and the demand of a certificate are a violation, or else the first test that fails. The outcome
/// and the certificate are to fit the election. Takes no memory.
pub fn check_violation<S: Satisfaction>(
    election: &Election,
    outcome: &Outcome,
    violation: &Violation,
    satisfaction: &S,
) -> ViolationVerdict
    requires outcome { OutcomeFits outcome.now election.now }
    requires violation { ClaimFits violation.now election.now }
    ensures first { result ≡ violation_verdict_of (FirstV (S.meaning satisfaction.now election.now) election.now (outcome.now).marks (violation.now).group (violation.now).demand) }
    ensures violation { (result ≡ ViolationVerdict.Violation) ↔ Violates (S.meaning satisfaction.now election.now) election.now (outcome.now).marks (violation.now).group (violation.now).demand }
{
    violation_findings(election, outcome, violation, satisfaction).verdict(election)
}

impl ViolationFindings {
    /// The verdict that the findings tell: a violation, where each test holds by them, or else the first test that
    /// fails, with its first culprit. The election is to be the one that they were found for, and `cost` at most
    /// 2 * 10^22, as it is in what `violation_findings` answers.
    pub fn verdict(&self, election: &Election) -> ViolationVerdict
        requires { (self.now).cost ≤ most_total }
        ensures { (worth : ℕ → ℕ) (w : List Bool) (s t : List ℕ) → self.now ≡ found.violation_findings worth election.now w s t → result ≡ violation_verdict_of (FirstV worth election.now w s t) }
    {
        match self.first_failure(election) {
            None => ViolationVerdict::Violation,
            Some(failure) => ViolationVerdict::Failed(failure),
        }
    }

    // The first test that fails.
    fn first_failure(&self, election: &Election) -> Option<ViolationFailure>
        requires { (self.now).cost ≤ most_total }
        ensures { (worth : ℕ → ℕ) (w : List Bool) (s t : List ℕ) → self.now ≡ found.violation_findings worth election.now w s t → result ≡ FirstV worth election.now w s t }
    {
        if self.members == 0 {
            return Some(ViolationFailure::V1);
        }
        if let Some((i, j)) = self.unapproved.first {
            return Some(ViolationFailure::V2(i, j));
        }
        if self.share_is_too_small(election) {
            return Some(ViolationFailure::V3);
        }
        self.satisfied.first.map(ViolationFailure::V4)
    }

    // Whether the group's share of the limit is less than the demanded projects cost.
    fn share_is_too_small(&self, election: &Election) -> bool
        requires { (self.now).cost ≤ most_total }
        ensures { result ≡ nat_lt ((self.now).members * (election.now).limit) (spec.voters election.now * (self.now).cost) }
    {
        let share = u128::from(self.members) * u128::from(election.limit().millionths());
        share < u128::from(election.voters()) * self.cost
    }
}
