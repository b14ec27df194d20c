//! Whether a group of voters falls short, which an election and its outcome decide.
ghost use Rattle.std.specs.Prelude.{◌≡◌, IfOk};
ghost use Rattle.pb_audit.specs.Groups.{explained_groups_rules, group_margin_rules, group_margins_reply, groups_rules};
ghost use Rattle.pb_report.specs.CanBeTold.{GroupsCanBeTold};
ghost use Rattle.pb_reply.specs.Replies.{as_table};

use crate::figured::FigureAudit;
use crate::objects::group_margins_object;
use crate::rendering::Rendering;
use pb_certificate::Measure;
use pb_election::DecidedElection;
use pb_explain::group_margins_text;
use pb_reply::{Reply, Status, Table};
use pb_report::{GroupsFound, Report};
use std::alloc::{AllocError, Global};

/// The audit that answers whether a group falls short by a measure.
#[derive(Drop)]
pub(crate) struct GroupsAudit {
    pub(crate) measure: Measure,
}

impl FigureAudit for GroupsAudit {
    type Told = Reply;

    ghost rules = { λ audit. groups_rules audit.measure };

    fn measure(&self) -> Measure {
        self.measure
    }

    fn reply_on(
        &self,
        alloc: Global,
        decided: &DecidedElection,
        groups: GroupsFound,
        notes: &mut Vec<String>,
    ) -> Result<Reply, AllocError> {
        Rendering::of(Report::Groups(groups)).reply(alloc, decided, notes)
    }
}

/// The audit that explains it by the group that is shown.
#[derive(Drop)]
pub(crate) struct ExplainGroupsAudit {
    pub(crate) measure: Measure,
}

impl FigureAudit for ExplainGroupsAudit {
    type Told = Reply;

    ghost rules = { λ audit. explained_groups_rules audit.measure };

    fn measure(&self) -> Measure {
        self.measure
    }

    fn reply_on(
        &self,
        alloc: Global,
        decided: &DecidedElection,
        groups: GroupsFound,
        notes: &mut Vec<String>,
    ) -> Result<Reply, AllocError> {
        Rendering::explaining(Report::Groups(groups)).reply(alloc, decided, notes)
    }
}

/// The audit that answers with the table of margins of groups.
#[derive(Drop)]
pub(crate) struct GroupMarginAudit {
    pub(crate) measure: Measure,
}

impl FigureAudit for GroupMarginAudit {
    type Told = Table;

    ghost rules = { λ audit. group_margin_rules audit.measure };

    fn measure(&self) -> Measure {
        self.measure
    }

    fn reply_on(
        &self,
        alloc: Global,
        decided: &DecidedElection,
        groups: GroupsFound,
        _notes: &mut Vec<String>,
    ) -> Result<Table, AllocError> {
        margins_of_groups(alloc, decided, &groups)
    }
}

/// The table of margins of groups, with the object.
fn margins_of_groups(
    alloc: Global,
    decided: &DecidedElection,
    groups: &GroupsFound,
) -> Result<Table, AllocError>
    requires { GroupsCanBeTold (decided.now).election groups.now }
    ensures { IfOk result (λ table. table ≡ as_table (group_margins_reply (groups.now).measure (decided.now).election (decided.now).outcome.marks (groups.now).figures.items)) }
{
    Ok(Table {
        text: group_margins_text(alloc, groups.measure, decided.election(), &groups.figures)?,
        object: group_margins_object(alloc, decided, groups)?,
        status: Status::Yes,
    })
}
