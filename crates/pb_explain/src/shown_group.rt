//! The table of the group that is shown of an election.
ghost use Rattle.std.specs.Prelude.{◌≡◌, ◌≢◌, ◌≤◌, ◌*◌, ◌^◌, ◌∷◌, ◌++◌, [], IfOk, IfSome, OnOk, map, string_bytes};
ghost use Rattle.pb_election.specs.Instance.{IsProject, voters};
ghost use Rattle.pb_explain.specs.ShownGroup as spec;
ghost use Rattle.pb_explain.specs.ShownGroup.{CanBeShown};

use crate::amounts::{Amount, MILLION};
use crate::rows::push_line;
use crate::violation_table::{Worth, measure_words};
use pb_certificate::Measure;
use pb_cohesion::GroupFigures;
use pb_election::Election;
use std::alloc::{AllocError, Global};

const NO_GROUP: &str = "nobody approves a project that isn't funded, so there is no group to show";

/// Adds the lines of the group that is shown, where there is one, or else a line that says so: its project with its
/// supporters, its members, what its share of the limit has to come to by this measure, what it comes to, and what is
/// over or missing. Amounts are told in units of the currency, and exactly, and the project by its id. The figures are to
/// be of this election. An error means out of memory, after which some of the lines may have been added.
pub fn push_shown_group(
    alloc: Global,
    lines: &mut Vec<String>,
    measure: Measure,
    election: &Election,
    shown: Option<GroupFigures>,
) -> Result<(), AllocError>
    requires { IfSome shown (CanBeShown election.now) }
    ensures { OnOk result (map string_bytes lines.new.items ≡ map string_bytes lines.old.items ++ spec.shown_table measure election.now shown) }
{
    if election.voters() == 0 {
        return push_no_group(alloc, lines);
    }
    match shown {
        Some(group) => push_group(alloc, lines, measure, election, &group),
        None => push_no_group(alloc, lines),
    }
}

/// Adds the line that says that there is no group.
fn push_no_group(alloc: Global, lines: &mut Vec<String>) -> Result<(), AllocError>
    ensures { OnOk result (map string_bytes lines.new.items ≡ map string_bytes lines.old.items ++ (spec.no_group ∷ [])) }
{
    push_line(lines, String::from_str(alloc, NO_GROUP)?)
}

/// Adds the lines of a group.
fn push_group(
    alloc: Global,
    lines: &mut Vec<String>,
    measure: Measure,
    election: &Election,
    group: &GroupFigures,
) -> Result<(), AllocError>
    requires group { CanBeShown election.now group.now }
    requires voters { voters election.now ≢ 0 }
    ensures { OnOk result (map string_bytes lines.new.items ≡ map string_bytes lines.old.items ++ spec.group_lines measure election.now group.now) }
{
    push_line(lines, project_line(alloc, election, group)?)?;
    push_line(lines, members_line(alloc, measure, group)?)?;
    push_line(lines, need_line(alloc, measure, group)?)?;
    push_line(lines, share_line(alloc, election, group)?)?;
    push_line(lines, difference_line(alloc, election, group)?)
}

fn project_line(
    alloc: Global,
    election: &Election,
    group: &GroupFigures,
) -> Result<String, AllocError>
    requires { IsProject election.now (group.now).project }
    ensures { IfOk result (λ line. string_bytes line ≡ spec.project_told election.now (group.now).project (group.now).supporters) }
{
    let supporters = group.supporters;
    let voters = election.voters();
    let project = election.id(group.project);
    let cost = Amount(
        MILLION,
        u128::from(election.cost(group.project).millionths()),
    );
    format!(in alloc;
        "Project     {supporters} of {voters} voters approve project {project}, which costs {cost}"
    )
}

fn members_line(alloc: Global, measure: Measure, group: &GroupFigures) -> Result<String, AllocError>
    ensures { IfOk result (λ line. string_bytes line ≡ spec.members_told measure (group.now).voters (group.now).most) }
{
    let members = group.voters;
    let most = Worth(measure, group.most);
    let by = measure_words(measure);
    format!(in alloc; "Group       {members} of these: all who got at most {most} {by}")
}

fn need_line(alloc: Global, measure: Measure, group: &GroupFigures) -> Result<String, AllocError>
    ensures { IfOk result (λ line. string_bytes line ≡ spec.need_told measure (group.now).need) }
{
    let need = Amount(MILLION, group.need);
    let why = need_words(measure);
    format!(in alloc; "Need        {need}: {why}")
}

fn need_words(measure: Measure) -> &'static str
    ensures { result.now ≡ spec.need_words measure }
{
    match measure {
        Measure::ByCount => {
            "the cost of the project, for each one that a member got at most and once more"
        }
        Measure::ByCost => "the cost of the project and the most that a member got",
    }
}

fn share_line(
    alloc: Global,
    election: &Election,
    group: &GroupFigures,
) -> Result<String, AllocError>
    requires group { CanBeShown election.now group.now }
    requires voters { voters election.now ≢ 0 }
    ensures { IfOk result (λ line. string_bytes line ≡ spec.share_told (10 ^ 6 * voters election.now) (spec.share_of election.now group.now)) }
{
    let share = Amount(parts_per_unit(election), share_of(election, group));
    format!(in alloc; "Share       {share}: the equal part of the limit for so many voters")
}

fn difference_line(
    alloc: Global,
    election: &Election,
    group: &GroupFigures,
) -> Result<String, AllocError>
    requires group { CanBeShown election.now group.now }
    requires voters { voters election.now ≢ 0 }
    ensures { IfOk result (λ line. string_bytes line ≡ spec.difference_told (10 ^ 6 * voters election.now) (spec.need_of election.now group.now) (spec.share_of election.now group.now)) }
{
    let need = need_of(election, group);
    let share = share_of(election, group);
    if need <= share {
        let over = Amount(parts_per_unit(election), share - need);
        return format!(in alloc;
            "Over        {over}: the share is enough, so the group falls short"
        );
    }
    let missing = Amount(parts_per_unit(election), need - share);
    format!(in alloc; "Missing     {missing}: no group falls short, and this one comes closest")
}

// Each millionth is cut into as many parts as there are voters.
fn parts_per_unit(election: &Election) -> u64
    ensures { result ≡ 10 ^ 6 * voters election.now }
{
    MILLION * u64::from(election.voters())
}

/// What the share of a group has to come to, in parts of a millionth of which there are as many as voters.
pub(crate) fn need_of(election: &Election, group: &GroupFigures) -> u128
    requires { CanBeShown election.now group.now }
    ensures value { result ≡ spec.need_of election.now group.now }
    ensures small { result ≤ 10 ^ 29 }
{
    u128::from(election.voters()) * group.need
}

/// What it comes to, in these parts.
pub(crate) fn share_of(election: &Election, group: &GroupFigures) -> u128
    requires { CanBeShown election.now group.now }
    ensures value { result ≡ spec.share_of election.now group.now }
    ensures small { result ≤ 10 ^ 24 }
{
    u128::from(group.voters) * u128::from(election.limit().millionths())
}
