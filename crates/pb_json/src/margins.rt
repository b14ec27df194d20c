//! The answers with the figures of each project by prices, and with those of each group.
ghost use Rattle.std.specs.Prelude.{◌≡◌, All, IfOk};
ghost use Rattle.serde_json.specs.View.{view};
ghost use Rattle.pb_election.specs.Instance.{IsProject};
ghost use Rattle.pb_json.specs.Groups.{CanBeTold};
ghost use Rattle.pb_json.specs.Margins as spec;

use crate::elections::{election_json, outcome_json};
use crate::groups::group_json;
use crate::members::{amount, answer, balance, push_value};
use crate::places::project_json;
use crate::violations::measure_word;
use pb_certificate::Measure;
use pb_cohesion::GroupFigures;
use pb_election::{DecidedElection, Election};
use pb_price::{Margins, ProjectMargins};
use serde_json::{Value, json};
use std::alloc::{AllocError, Global};

/// The answer with the figures of each project by prices, in the order of the election. Amounts are in grains. The
/// margins are to be of this election: where there are more or fewer than it has projects, what is over isn't told. An
/// error means out of memory.
pub fn margins_json(
    alloc: Global,
    decided: &DecidedElection,
    margins: &Margins,
) -> Result<Value, AllocError>
    ensures { IfOk result (λ v. view v ≡ spec.margins_json (decided.now).election (decided.now).outcome.marks (margins.now).grains_per_unit (margins.now).projects.items) }
{
    let election = decided.election();
    json!(in alloc; {
        "answer": answer(true),
        "election": election_json(alloc, election)?,
        "grains_per_unit": margins.grains_per_unit,
        "kind": "margins",
        "outcome": outcome_json(alloc, decided)?,
        "projects": projects_json(alloc, election, &margins.projects)?,
        "version": 1u32,
    })
}

/// The answer with the figures of each of these groups, in their order, by this measure. The figures are to be those of
/// `group_figures`. An error means out of memory.
pub fn group_margins_json(
    alloc: Global,
    measure: Measure,
    decided: &DecidedElection,
    figures: &[GroupFigures],
) -> Result<Value, AllocError>
    requires { All (CanBeTold (decided.now).election) figures.now }
    ensures { IfOk result (λ v. view v ≡ spec.group_margins_json measure (decided.now).election (decided.now).outcome.marks figures.now) }
{
    let election = decided.election();
    json!(in alloc; {
        "answer": answer(true),
        "election": election_json(alloc, election)?,
        "groups": each_group_json(alloc, election, figures)?,
        "kind": "group_margins",
        "measure": measure_word(measure),
        "outcome": outcome_json(alloc, decided)?,
        "version": 1u32,
    })
}

// A list of the projects with their figures.
fn projects_json(
    alloc: Global,
    election: &Election,
    figures: &[ProjectMargins],
) -> Result<Value, AllocError>
    ensures { IfOk result (λ v. view v ≡ spec.projects_json election.now figures.now) }
{
    let mut list = Vec::new(alloc);
    let told = figures.len().min(election.projects() as usize);
    for k in 0..told {
        let project = margin_json(alloc, election, k as u32 + 1, &figures[k])?;
        push_value(&mut list, project)?;
    }
    Ok(Value::Array(list))
}

// A project by its number, with its figures.
fn margin_json(
    alloc: Global,
    election: &Election,
    number: u32,
    figures: &ProjectMargins,
) -> Result<Value, AllocError>
    requires { IsProject election.now number }
    ensures { IfOk result (λ v. view v ≡ spec.margin_json election.now (number, figures.now)) }
{
    json!(in alloc; {
        "cost": amount(alloc, figures.cost)?,
        "funded": figures.funded,
        "left": balance(alloc, figures.left)?,
        "number": number,
        "offer": balance(alloc, figures.offer)?,
        "paid": amount(alloc, figures.paid)?,
        "project": project_json(alloc, election, Some(number))?,
        "supporters": figures.supporters,
    })
}

// A list of the groups with their figures.
fn each_group_json(
    alloc: Global,
    election: &Election,
    figures: &[GroupFigures],
) -> Result<Value, AllocError>
    requires { All (CanBeTold election.now) figures.now }
    ensures { IfOk result (λ v. view v ≡ spec.each_group_json election.now figures.now) }
{
    let mut list = Vec::new(alloc);
    for group in figures {
        push_value(&mut list, group_json(alloc, election, group)?)?;
    }
    Ok(Value::Array(list))
}
