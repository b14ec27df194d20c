//! The answer on groups that fall short.
ghost use Rattle.std.specs.Prelude.{◌≡◌, ◌≤◌, ◌*◌, ◌^◌, All, IfOk, IfSome};
ghost use Rattle.serde_json.specs.View.{view};
ghost use Rattle.pb_election.specs.Instance.{IsProject, most_voters};
ghost use Rattle.pb_json.specs.Groups as spec;
ghost use Rattle.pb_json.specs.Members.{amount, or_null};

use crate::elections::{election_json, outcome_json};
use crate::members::{amount, answer, balance};
use crate::places::{failed_json, project_json};
use crate::violations::measure_word;
use pb_certificate::Measure;
use pb_cohesion::{FailedAt, GroupFigures, first_short, shown_of};
use pb_election::{DecidedElection, Election};
use pb_price::NearestGroup;
use serde_json::{Value, json};
use std::alloc::{AllocError, Global};

/// The answer on groups that fall short by this measure: whether one does, for which project first, and the figures of
/// one group: after a no the largest that falls short for that project, and after a yes the one whose share of the limit
/// covers most of what it has to come to. The figures are to be those of `group_figures`. An error means out of memory.
pub fn groups_json(
    alloc: Global,
    measure: Measure,
    decided: &DecidedElection,
    figures: &[GroupFigures],
) -> Result<Value, AllocError>
    requires figures { All (spec.CanBeTold (decided.now).election) figures.now }
    ensures { IfOk result (λ v. view v ≡ spec.groups_json measure (decided.now).election (decided.now).outcome.marks figures.now) }
{
    let election = decided.election();
    let short = first_short(figures);
    json!(in alloc; {
        "answer": answer(is_yes(short)),
        "election": election_json(alloc, election)?,
        "failed": failed_or_null(alloc, election, short)?,
        "group": group_or_null(alloc, election, shown_of(figures))?,
        "kind": "groups",
        "measure": measure_word(measure),
        "outcome": outcome_json(alloc, decided)?,
        "version": 1u32,
    })
}

// Whether there is none for which a group falls short.
fn is_yes(short: Option<GroupFigures>) -> bool
    ensures { result ≡ spec.is_yes short }
{
    match short {
        None => true,
        Some(_) => false,
    }
}

// The project for which a group falls short, or null.
fn failed_or_null(
    alloc: Global,
    election: &Election,
    short: Option<GroupFigures>,
) -> Result<Value, AllocError>
    requires { IfSome short (spec.CanBeTold election.now) }
    ensures { IfOk result (λ v. view v ≡ spec.failed_groups election.now short) }
{
    match short {
        Some(first) => failed_json(alloc, election, &FailedAt::short_for(first.project)),
        None => Ok(Value::Null),
    }
}

// The figures of a group, or null.
fn group_or_null(
    alloc: Global,
    election: &Election,
    group: Option<GroupFigures>,
) -> Result<Value, AllocError>
    requires { IfSome group (spec.CanBeTold election.now) }
    ensures { IfOk result (λ v. view v ≡ or_null (spec.group_json election.now) group) }
{
    match group {
        Some(group) => group_json(alloc, election, &group),
        None => Ok(Value::Null),
    }
}

/// The figures of a group, which are to be of a project of this election.
pub(crate) fn group_json(
    alloc: Global,
    election: &Election,
    group: &GroupFigures,
) -> Result<Value, AllocError>
    requires { spec.CanBeTold election.now group.now }
    ensures { IfOk result (λ v. view v ≡ spec.group_json election.now group.now) }
{
    json!(in alloc; {
        "cost": cost_json(alloc, election, group)?,
        "missing": missing_json(alloc, election, group)?,
        "most": amount(alloc, group.most)?,
        "need": amount(alloc, group.need)?,
        "number": group.project,
        "project": project_json(alloc, election, Some(group.project))?,
        "share": share_json(alloc, election, group)?,
        "supporters": group.supporters,
        "voters": group.voters,
    })
}

fn cost_json(alloc: Global, election: &Election, group: &GroupFigures) -> Result<Value, AllocError>
    requires { spec.CanBeTold election.now group.now }
    ensures { IfOk result (λ v. view v ≡ spec.cost_json election.now group.now) }
{
    amount(alloc, u128::from(election.cost(group.project).millionths()))
}

fn missing_json(
    alloc: Global,
    election: &Election,
    group: &GroupFigures,
) -> Result<Value, AllocError>
    requires { spec.CanBeTold election.now group.now }
    ensures { IfOk result (λ v. view v ≡ spec.missing_json election.now group.now) }
{
    let needed = u128::from(election.voters()) * group.need;
    let missing = needed as i128 - limits(election, group) as i128;
    json!(in alloc; {
        "denominator": election.voters(),
        "numerator": balance(alloc, missing)?,
    })
}

fn share_json(alloc: Global, election: &Election, group: &GroupFigures) -> Result<Value, AllocError>
    requires { spec.CanBeTold election.now group.now }
    ensures { IfOk result (λ v. view v ≡ spec.share_json election.now group.now) }
{
    json!(in alloc; {
        "denominator": election.voters(),
        "numerator": amount(alloc, limits(election, group))?,
    })
}

// The limit as often as the group has voters.
fn limits(election: &Election, group: &GroupFigures) -> u128
    requires { spec.CanBeTold election.now group.now }
    ensures value { result ≡ (group.now).voters * (election.now).limit }
    ensures small { result ≤ most_voters * 10 ^ 18 }
{
    u128::from(group.voters) * u128::from(election.limit().millionths())
}

/// The figures of the unfunded project whose supporters come nearest to what a yes to prices says of groups, or null.
pub(crate) fn nearest_or_null(
    alloc: Global,
    election: &Election,
    nearest: Option<NearestGroup>,
) -> Result<Value, AllocError>
    requires { IfSome nearest (λ g. IsProject election.now g.project) }
    ensures { IfOk result (λ v. view v ≡ or_null (spec.nearest_json election.now) nearest) }
{
    match nearest {
        Some(group) => nearest_json(alloc, election, group),
        None => Ok(Value::Null),
    }
}

fn nearest_json(
    alloc: Global,
    election: &Election,
    nearest: NearestGroup,
) -> Result<Value, AllocError>
    requires { IsProject election.now nearest.project }
    ensures { IfOk result (λ v. view v ≡ spec.nearest_json election.now nearest) }
{
    let cost = u128::from(election.cost(nearest.project).millionths());
    json!(in alloc; {
        "cost": amount(alloc, cost)?,
        "funded_for": amount(alloc, nearest.funded_for)?,
        "number": nearest.project,
        "project": project_json(alloc, election, Some(nearest.project))?,
        "share": nearest_share_json(alloc, election, nearest)?,
        "supporters": nearest.supporters,
    })
}

fn nearest_share_json(
    alloc: Global,
    election: &Election,
    nearest: NearestGroup,
) -> Result<Value, AllocError>
    ensures { IfOk result (λ v. view v ≡ spec.over_voters election.now (amount (nearest.supporters * (election.now).limit))) }
{
    let limits = u128::from(nearest.supporters) * u128::from(election.limit().millionths());
    json!(in alloc; {
        "denominator": election.voters(),
        "numerator": amount(alloc, limits)?,
    })
}
