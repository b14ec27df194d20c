//! What is found of weights: whether they prove that no prices support an outcome.
ghost use Rattle.std.specs.Prelude.{◌≡◌, IfOk, string_bytes};
ghost use Rattle.pb_certificate.specs.Refutations.{WeightsFit};
ghost use Rattle.pb_report.specs.CanBeTold.{WeightsCanBeTold};
ghost use Rattle.pb_report.specs.Found as spec;
ghost use Rattle.pb_report.specs.Found.{FindsWeights};
ghost use Rattle.pb_reply.specs.Inside.Loaded.{lent};
ghost use Rattle.pb_reply.specs.Inside.Taking.{IfTaken};
ghost use Rattle.pb_reply.specs.Lines.{refutation_line};
ghost use Rattle.pb_reply.specs.Replies.{refutation_status};

use pb_certificate::Refutation;
use pb_cohesion::{RefutationFindings, RefutationVerdict, refutation_findings};
use pb_election::{DecidedElection, Election};
use pb_reply::{File, Status, Unanswered, refutation_line, refutation_of, refutation_status};
use std::alloc::{AllocError, Global};

/// What is found of weights.
#[derive(Drop)]
pub struct WeightsFound {
    pub refutation: Refutation,
    pub verdict: RefutationVerdict,
    /// What each test comes to.
    pub findings: RefutationFindings,
}

impl WeightsFound {
    /// The line of the verdict. An error means out of memory.
    pub fn line(&self, alloc: Global, election: &Election) -> Result<String, AllocError>
        requires { WeightsCanBeTold election.now self.now }
        ensures { IfOk result (λ line. string_bytes line ≡ refutation_line election.now (self.now).verdict) }
    {
        refutation_line(alloc, election, self.verdict)
    }

    /// Yes, or the test that fails first.
    pub fn status(&self) -> Status
        ensures { result ≡ refutation_status (self.now).verdict }
    {
        refutation_status(self.verdict)
    }
}

/// What is found of the weights that a refutation states, against all prices or, where `stable` is asked for, against
/// stable ones.
pub fn weights_in(
    alloc: Global,
    decided: &DecidedElection,
    certificate: File<'_>,
    stable: bool,
) -> Result<WeightsFound, Unanswered>
    // What the certificate states are weights, and this is found of them; or why it is refused.
    ensures taken { IfTaken result (FindsWeights stable (decided.now).election (decided.now).outcome.marks (lent certificate.entry)) }

    // The projects that it names are those of the election.
    ensures told { IfOk result (WeightsCanBeTold (decided.now).election) }
{
    let refutation = refutation_of(alloc, certificate, decided.election())?;
    Ok(found_of_weights(decided, refutation, stable))
}

/// What is found of weights.
#[tactic(auto, using(pb_reply::proofs::Culprits::refutation_names_projects))]
fn found_of_weights(decided: &DecidedElection, refutation: Refutation, stable: bool) -> WeightsFound
    requires { WeightsFit refutation (decided.now).election }
    ensures found { result ≡ spec.weights_found stable (decided.now).election (decided.now).outcome.marks refutation }
    ensures told { WeightsCanBeTold (decided.now).election result }
{
    let (election, outcome) = (decided.election(), decided.outcome());
    let findings = refutation_findings(election, outcome, &refutation, stable);
    WeightsFound {
        verdict: findings.verdict(),
        refutation,
        findings,
    }
}
