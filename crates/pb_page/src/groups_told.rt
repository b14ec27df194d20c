//! What is told of groups that fall short.
ghost use Rattle.std.specs.Prelude.{◌≡◌, IfOk, string_bytes};
ghost use Rattle.pb_case.specs.Shown.{ShowsLine};
ghost use Rattle.pb_page.specs.Taken.{AreShortFigures, TellsOfGroups};
ghost use Rattle.pb_reply.specs.Lines.{groups_line};
ghost use Rattle.pb_report.specs.CanBeTold.{GroupsCanBeTold};
ghost use Rattle.pb_report.specs.Found.{groups_verdict};

use crate::telling::{PageTold, costs_of};
use pb_case::shown_line;
use pb_certificate::Measure;
use pb_cohesion::{cost_of_funded, shown_of};
use pb_election::{DecidedElection, Election};
use pb_figures::{CertificateFigures, ShortFigures, Style, Told};
use pb_price::Mode;
use pb_report::{GroupsFound, groups_in};
use std::alloc::{AllocError, Global};

/// What is told of groups that fall short by this measure.
pub(crate) fn groups_told(
    alloc: Global,
    decided: &DecidedElection,
    measure: Measure,
    style: Style,
) -> Result<PageTold, AllocError>
    ensures told { IfOk result (TellsOfGroups measure (decided.now).election (decided.now).outcome.marks) }
    ensures style { IfOk result (λ t. t.told.style ≡ style) }
{
    let groups = groups_in(alloc, decided, measure)?;
    let line = groups_shown(alloc, decided.election(), &groups)?;
    let status = groups.status();
    let figures = short_figures(alloc, decided, groups)?;
    Ok(PageTold {
        told: Told {
            style,
            mode: Mode::PLAIN,
            line,
            found: CertificateFigures::Groups(figures),
        },
        nearest: None,
        status,
    })
}

// The line of the verdict, as it is shown.
fn groups_shown(
    alloc: Global,
    election: &Election,
    groups: &GroupsFound,
) -> Result<String, AllocError>
    requires { GroupsCanBeTold election.now groups.now }
    ensures { IfOk result (λ line. ShowsLine (groups_line (groups.now).measure election.now (groups_verdict groups.now)) (string_bytes line)) }
{
    let line = groups.line(alloc, election)?;
    shown_line(alloc, &line)
}

// The figures of all groups.
fn short_figures(
    alloc: Global,
    decided: &DecidedElection,
    groups: GroupsFound,
) -> Result<ShortFigures, AllocError>
    requires { GroupsCanBeTold (decided.now).election groups }
    ensures { IfOk result (AreShortFigures (decided.now).election (decided.now).outcome.marks groups) }
{
    let (election, outcome) = (decided.election(), decided.outcome());
    let costs = costs_of(alloc, election)?;
    let shown = shown_of(&groups.figures);
    Ok(ShortFigures {
        measure: groups.measure,
        groups: groups.figures,
        shown,
        costs,
        limit: election.limit().millionths(),
        funded: cost_of_funded(election, outcome),
        voters: election.voters(),
    })
}
