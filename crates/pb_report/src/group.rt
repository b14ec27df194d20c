//! What is found of a group and its demand.
ghost use Rattle.std.specs.Prelude.{◌≡◌, IfOk, string_bytes};
ghost use Rattle.pb_certificate.specs.Violations.{ClaimFits};
ghost use Rattle.pb_election.specs.Instance.{IsSet, projects};
ghost use Rattle.pb_report.specs.CanBeTold.{GroupCanBeTold};
ghost use Rattle.pb_report.specs.Found as spec;
ghost use Rattle.pb_report.specs.Found.{FindsGroup};
ghost use Rattle.pb_reply.specs.Inside.Loaded.{lent};
ghost use Rattle.pb_reply.specs.Inside.Taking.{IfTaken};
ghost use Rattle.pb_reply.specs.Lines.{violation_line};
ghost use Rattle.pb_reply.specs.Replies.{violation_status};

use pb_certificate::{Measure, Violation};
use pb_cohesion::{ViolationFindings, ViolationVerdict, violation_findings};
use pb_election::{DecidedElection, Election};
use pb_input::InputName;
use pb_reply::{File, Status, Unanswered, violation_line, violation_of, violation_status};
use std::alloc::{AllocError, Global};

/// What is found of a group and its demand, by the measure that the certificate states: whether the group was treated worse
/// than it deserves. Peters, Pierczyński and Skowron (2021) define extended justified representation.
#[derive(Drop)]
pub struct GroupFound {
    pub violation: Violation,
    pub verdict: ViolationVerdict,
    /// What each test comes to.
    pub findings: ViolationFindings,
}

impl GroupFound {
    /// By what voters are satisfied.
    pub fn measure(&self) -> Measure
        ensures { result ≡ (self.now).violation.measure }
    {
        self.violation.satisfaction()
    }

    /// The line of the verdict. An error means out of memory.
    pub fn line(&self, alloc: Global, election: &Election) -> Result<String, AllocError>
        requires { GroupCanBeTold election.now self.now }
        ensures { IfOk result (λ line. string_bytes line ≡ violation_line election.now (self.now).verdict) }
    {
        violation_line(alloc, election, self.verdict)
    }

    /// Yes, or the test that fails first.
    pub fn status(&self) -> Status
        ensures { result ≡ violation_status (self.now).verdict }
    {
        violation_status(self.verdict)
    }
}

/// What is found of the group and the demand that a violation certificate states, as the input of this name.
pub fn group_in(
    alloc: Global,
    decided: &DecidedElection,
    input: InputName,
    certificate: File<'_>,
) -> Result<GroupFound, Unanswered>
    // What the certificate states is a group and its demand, and this is found of them; or why it is refused.
    ensures taken { IfTaken result (FindsGroup input (decided.now).election (decided.now).outcome.marks (lent certificate.entry)) }

    // The projects that it names are those of the election.
    ensures told { IfOk result (GroupCanBeTold (decided.now).election) }
{
    let violation = violation_of(alloc, input, certificate, decided.election())?;
    Ok(found_of_group(decided, violation))
}

/// What is found of a group and its demand.
#[tactic(auto, using(pb_reply::proofs::Culprits::violation_names_projects))]
fn found_of_group(decided: &DecidedElection, violation: Violation) -> GroupFound
    requires violation { ClaimFits violation (decided.now).election }
    requires demand { IsSet 1 (projects (decided.now).election) violation.demand }
    ensures found { result ≡ spec.group_found (decided.now).election (decided.now).outcome.marks violation }
    ensures told { GroupCanBeTold (decided.now).election result }
{
    let election = decided.election();
    let measure = violation.satisfaction();
    let findings = violation_findings(election, decided.outcome(), &violation, &measure);
    GroupFound {
        violation,
        verdict: findings.verdict(election),
        findings,
    }
}
