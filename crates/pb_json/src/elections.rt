//! An election, and an outcome of it.
ghost use Rattle.std.specs.Prelude.{◌≡◌, ◌++◌, IfOk, OnOk, map, option_map};
ghost use Rattle.serde_json.specs.View.{view};
ghost use Rattle.pb_election.specs.Outcome.{OutcomeFits};
ghost use Rattle.pb_json.specs.Elections as spec;

use crate::members::{amount, count_or_null, push_value};
use pb_cohesion::cost_of_funded;
use pb_election::{DecidedElection, Election, Outcome, UnusedColumns};
use serde_json::{Value, json};
use std::alloc::{AllocError, Global};

/// What an election has: how many projects and voters, also by what its file says, how many projects its own outcome
/// funds, where it states one, the limit, of how many projects `selected` says neither yes nor no, and the columns of
/// VOTES that aren't used. An error means out of memory.
pub fn election_json(alloc: Global, election: &Election) -> Result<Value, AllocError>
    ensures { IfOk result (λ v. view v ≡ spec.election_json election.now) }
{
    let limit = u128::from(election.limit().millionths());
    json!(in alloc; {
        "declared_projects": count_or_null(election.declared_projects()),
        "declared_voters": count_or_null(election.declared_votes()),
        "funded": count_or_null(funded_count(alloc, election)?),
        "limit": amount(alloc, limit)?,
        "other_selected": election.other_selected(),
        "projects": election.projects(),
        "unused_columns": columns_json(alloc, election.unused_columns())?,
        "voters": election.voters(),
    })
}

/// What the funded projects cost, and how many they are. An error means out of memory.
pub fn outcome_json(alloc: Global, decided: &DecidedElection) -> Result<Value, AllocError>
    ensures { IfOk result (λ v. view v ≡ spec.outcome_json (decided.now).election (decided.now).outcome.marks) }
{
    let (election, outcome) = (decided.election(), decided.outcome());
    json!(in alloc; {
        "cost": amount(alloc, cost_of_funded(election, outcome))?,
        "funded": funded(election, outcome),
    })
}

/// The answer on an election that was read. An error means out of memory.
pub fn read_json(alloc: Global, election: &Election) -> Result<Value, AllocError>
    ensures { IfOk result (λ v. view v ≡ spec.read_json election.now) }
{
    json!(in alloc; {
        "answer": "yes",
        "election": election_json(alloc, election)?,
        "kind": "election",
        "version": 1u32,
    })
}

/// How many projects the election's own outcome funds, where it states one.
fn funded_count(alloc: Global, election: &Election) -> Result<Option<u64>, AllocError>
    ensures { IfOk result (λ count. count ≡ option_map spec.funded (election.now).selected) }
{
    if !election.has_selected() {
        return Ok(None);
    }
    let Ok(outcome) = Outcome::selected(alloc, election) else {
        return Err(AllocError {});
    };
    Ok(Some(u64::from(funded(election, &outcome))))
}

/// How many projects an outcome of the election funds.
fn funded(election: &Election, outcome: &Outcome) -> u32
    requires { OutcomeFits outcome.now election.now }
    ensures { result ≡ spec.funded (outcome.now).marks }
{
    let mut count = 0;
    for j in 0..election.projects() {
        if outcome.has(j + 1) {
            count += 1;
        }
    }
    count
}

/// The names of the columns of VOTES that weigh votes and aren't used.
fn columns_json(alloc: Global, unused: UnusedColumns) -> Result<Value, AllocError>
    ensures { IfOk result (λ v. view v ≡ spec.columns_json unused) }
{
    let mut names = Vec::new(alloc);
    push_column(alloc, &mut names, "weight", unused.weight)?;
    push_column(alloc, &mut names, "points", unused.points)?;
    push_column(alloc, &mut names, "sign", unused.sign)?;
    Ok(Value::Array(names))
}

/// Adds the name of a column, where the file has it.
fn push_column(
    alloc: Global,
    names: &mut Vec<Value>,
    name: &str,
    has: bool,
) -> Result<(), AllocError>
    ensures { OnOk result (map view names.new.items ≡ map view names.old.items ++ spec.column name.now has) }
{
    if !has {
        return Ok(());
    }
    push_value(names, Value::try_from_str(alloc, name)?)
}
