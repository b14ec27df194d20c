//! What is found of all groups of voters: whether one falls short, which an election and its outcome decide.
ghost use Rattle.std.specs.Prelude.{◌≡◌, IfOk, string_bytes};
ghost use Rattle.pb_cohesion.specs.Closest.{AreAllFigures};
ghost use Rattle.pb_report.specs.CanBeTold.{GroupsCanBeTold};
ghost use Rattle.pb_report.specs.Found as spec;
ghost use Rattle.pb_reply.specs.Lines.{groups_line};
ghost use Rattle.pb_reply.specs.Replies.{groups_status};

use pb_certificate::Measure;
use pb_cohesion::{GroupFigures, GroupsVerdict, first_short, group_figures};
use pb_election::{DecidedElection, Election};
use pb_reply::{Status, groups_line, groups_status};
use std::alloc::{AllocError, Global};

/// What is found of groups, by a measure: for each unfunded project with a supporter the group that is shown.
#[derive(Drop)]
pub struct GroupsFound {
    pub measure: Measure,
    pub figures: Vec<GroupFigures>,
}

impl GroupsFound {
    /// The verdict.
    pub fn verdict(&self) -> GroupsVerdict
        ensures { result ≡ spec.groups_verdict self.now }
    {
        GroupsVerdict::by(first_short(&self.figures))
    }

    /// The line of the verdict. An error means out of memory.
    #[tactic(auto, using(crate::proofs::Told::verdict_names))]
    pub fn line(&self, alloc: Global, election: &Election) -> Result<String, AllocError>
        requires { GroupsCanBeTold election.now self.now }
        ensures { IfOk result (λ line. string_bytes line ≡ groups_line (self.now).measure election.now (spec.groups_verdict self.now)) }
    {
        groups_line(alloc, election, self.measure, self.verdict())
    }

    /// Yes, or no where a group falls short.
    pub fn status(&self) -> Status
        ensures { result ≡ groups_status (spec.groups_verdict self.now) }
    {
        groups_status(self.verdict())
    }
}

/// What is found of all groups of an election with its outcome, by this measure. An error means out of memory.
pub fn groups_in(
    alloc: Global,
    decided: &DecidedElection,
    measure: Measure,
) -> Result<GroupsFound, AllocError>
    ensures measure { IfOk result (λ groups. groups.measure ≡ measure) }
    ensures figures { IfOk result (λ groups. AreAllFigures measure (decided.now).election (decided.now).outcome.marks groups.figures.items) }

    // The projects that it names are those of the election.
    ensures told { IfOk result (GroupsCanBeTold (decided.now).election) }
{
    let (election, outcome) = (decided.election(), decided.outcome());
    let figures = group_figures(alloc, election, outcome, measure)?;
    Ok(GroupsFound { measure, figures })
}
