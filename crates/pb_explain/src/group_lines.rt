//! What is said of groups behind the table of a yes to prices.
ghost use Rattle.std.specs.Prelude.{◌≡◌, ◌<◌, ◌++◌, IfOk, IfSome, OnOk, map, string_bytes};
ghost use Rattle.pb_election.specs.Instance.{IsProject, voters};
ghost use Rattle.pb_explain.specs.GroupLines as spec;

use crate::amounts::{Amount, MILLION};
use crate::rows::push_line;
use pb_election::Election;
use pb_price::{NearestGroup, OnGroups};
use std::alloc::{AllocError, Global};

const NOT_SHOWN: &str =
    "of groups of voters this says little: all voter budgets together are less than the limit";

const WITHIN_REACH: &str =
    "take any voters who all approve an unfunded project: their equal part of the limit is no more than that project's cost plus the cost of all funded projects that at least one of them approves";

const BELOW_REACH: &str =
    "take any voters who all approve an unfunded project: their equal part of the limit is less than that project's cost plus the cost of all funded projects that at least one of them approves";

/// Adds what a yes to prices says of every group, and the figures of the unfunded project whose supporters come nearest to
/// that, where there is one. It is to be a project of the election, which has voters. An error means out of memory, after
/// which some of the lines may have been added.
pub fn push_group_lines(
    alloc: Global,
    lines: &mut Vec<String>,
    election: &Election,
    said: OnGroups,
    nearest: Option<NearestGroup>,
) -> Result<(), AllocError>
    requires project { IfSome nearest (λ g. IsProject election.now g.project) }
    requires voters { IfSome nearest (λ _. 0 < voters election.now) }
    ensures { OnOk result (map string_bytes lines.new.items ≡ map string_bytes lines.old.items ++ spec.group_lines election.now said nearest) }
{
    push_line(lines, String::from_str(alloc, claim(said))?)?;
    match nearest {
        Some(group) => push_line(lines, nearest_line(alloc, election, &group)?),
        None => Ok(()),
    }
}

fn claim(said: OnGroups) -> &'static str
    ensures { result.now ≡ spec.claim said }
{
    match said {
        OnGroups::Strict => BELOW_REACH,
        OnGroups::Weak => WITHIN_REACH,
        OnGroups::Little => NOT_SHOWN,
    }
}

fn nearest_line(
    alloc: Global,
    election: &Election,
    group: &NearestGroup,
) -> Result<String, AllocError>
    requires project { IsProject election.now (group.now).project }
    requires voters { 0 < voters election.now }
    ensures { IfOk result (λ line. string_bytes line ≡ spec.nearest_line election.now group.now) }
{
    let project = election.id(group.project);
    let supporters = u128::from(group.supporters);
    // Each millionth is cut into as many parts as there are voters.
    let share = Amount(
        MILLION * u64::from(election.voters()),
        supporters * u128::from(election.limit().millionths()),
    );
    let cost = Amount(
        MILLION,
        u128::from(election.cost(group.project).millionths()),
    );
    let funded_for = Amount(MILLION, group.funded_for);
    format!(in alloc;
        "nearest to that comes project {project}: the share of its {supporters} supporters is {share}, it costs {cost}, and {funded_for} was funded for them"
    )
}
