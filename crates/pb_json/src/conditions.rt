//! The conditions on prices, by what each of them comes to.
ghost use Rattle.std.specs.Prelude.{◌≡◌, IfOk, IfSome};
ghost use Rattle.serde_json.specs.View.{view};
ghost use Rattle.pb_price.specs.Condition.{FindingsNameProjects, FoundNamesProjects, found};
ghost use Rattle.pb_json.specs.Places.{NamesProject, place_at};
ghost use Rattle.pb_json.specs.Prices as spec;
ghost use Rattle.pb_json.specs.Prices.{FindingCanBeTold};

use crate::members::{amount, balance, push_value};
use crate::places::{At, Place, pair_or_null, place_or_null, project_json, voter_json};
use pb_election::Election;
use pb_price::{Comparison, Condition, Finding, Findings, Found, Mode, PaymentFinding};
use serde_json::{Value, json};
use std::alloc::{AllocError, Global};

/// A list of the conditions, in their order.
pub(crate) fn conditions_json(
    alloc: Global,
    mode: Mode,
    election: &Election,
    findings: &Findings,
) -> Result<Value, AllocError>
    requires { FindingsNameProjects election.now findings.now }
    ensures { IfOk result (λ v. view v ≡ spec.conditions_json mode election.now findings.now) }
{
    let mut list = Vec::new(alloc);
    for condition in Condition::all() {
        let asked = condition.is_asked(mode);
        let found = findings.found(*condition);
        push_value(
            &mut list,
            found_json(alloc, election, condition.name(), asked, found)?,
        )?;
    }
    Ok(Value::Array(list))
}

// A condition, by what it comes to.
#[tactic(auto, using(crate::proofs::Named::voters_name_none, crate::proofs::Named::projects_named))]
fn found_json(
    alloc: Global,
    election: &Election,
    name: &str,
    asked: bool,
    found: Found,
) -> Result<Value, AllocError>
    requires { FoundNamesProjects election.now found }
    ensures { IfOk result (λ v. view v ≡ spec.found_json election.now name.now asked found) }
{
    let (holds, culprits) = (found.holds(), found.culprits());
    let (first, shown) = match found {
        Found::Totals(_, total, limit) => {
            let sum = amount(alloc, total)?;
            let shown = sums_json(alloc, election, sum, limit, Place::nowhere())?;
            (Value::Null, shown)
        }
        Found::Payments(found) => (pair_or_null(alloc, election, found.first)?, Value::Null),
        Found::Voters(found) => finding_members(alloc, election, At::Voter, found)?,
        Found::Projects(found) => finding_members(alloc, election, At::Project, found)?,
    };
    condition_json(alloc, name, asked, holds, culprits, first, shown)
}

// The first culprit of a finding on voters or on projects, and the sums that it shows.
fn finding_members(
    alloc: Global,
    election: &Election,
    at: At,
    found: Finding,
) -> Result<(Value, Value), AllocError>
    requires { FindingCanBeTold election.now at found }
    ensures { IfOk result (λ q. (view q.0 ≡ spec.first_at election.now at found) × (view q.1 ≡ spec.comparison_or_null election.now at found.shown)) }
{
    let first = place_or_null(alloc, election, at.place_if(found.first))?;
    Ok((first, comparison_or_null(alloc, election, at, found.shown)?))
}

// A condition, by what its members say.
fn condition_json(
    alloc: Global,
    name: &str,
    asked: bool,
    holds: bool,
    culprits: u64,
    first: Value,
    shown: Value,
) -> Result<Value, AllocError>
    ensures { IfOk result (λ v. view v ≡ spec.condition_json name.now asked holds culprits (view first) (view shown)) }
{
    json!(in alloc; {
        "asked": asked,
        "culprits": culprits,
        "first": first,
        "holds": holds,
        "name": name,
        "shown": shown,
    })
}

// The sums that a condition compares at one place, or null.
fn comparison_or_null(
    alloc: Global,
    election: &Election,
    at: At,
    shown: Option<Comparison>,
) -> Result<Value, AllocError>
    requires { IfSome shown (λ m. NamesProject election.now (place_at at m.at)) }
    ensures { IfOk result (λ v. view v ≡ spec.comparison_or_null election.now at shown) }
{
    match shown {
        Some(here) => {
            let sum = balance(alloc, here.amount)?;
            sums_json(alloc, election, sum, here.bound, at.place(here.at))
        }
        None => Ok(Value::Null),
    }
}

// A sum, what it is compared with, and where.
fn sums_json(
    alloc: Global,
    election: &Election,
    sum: Value,
    bound: u128,
    place: Place,
) -> Result<Value, AllocError>
    requires { NamesProject election.now place }
    ensures { IfOk result (λ v. view v ≡ spec.sums_json election.now (view sum) bound place) }
{
    json!(in alloc; {
        "amount": sum,
        "bound": amount(alloc, bound)?,
        "project": project_json(alloc, election, place.project)?,
        "voter": voter_json(place.voter),
    })
}
