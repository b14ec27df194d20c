//! Where a condition or a test is false.
ghost use Rattle.std.specs.Prelude.{◌≡◌, IfOk, IfSome, option_map};
ghost use Rattle.serde_json.specs.View.{view};
ghost use Rattle.pb_cohesion.specs.Failed.{NamesProject};
ghost use Rattle.pb_election.specs.Instance.{IsProject};
ghost use Rattle.pb_json.specs.Places as spec;

use pb_cohesion::FailedAt;
use pb_election::Election;
use serde_json::{Value, json};
use std::alloc::{AllocError, Global};

/// The voter and the project at which something stands, where it does at one. Both are numbered from 1.
#[derive(Clone, Copy)]
pub(crate) struct Place {
    pub(crate) voter: Option<u32>,
    pub(crate) project: Option<u32>,
}

impl Place {
    pub(crate) fn nowhere() -> Place
        ensures { result ≡ spec.nowhere }
    {
        Place {
            voter: None,
            project: None,
        }
    }

    pub(crate) fn at_voter(i: u32) -> Place
        ensures { result ≡ spec.at_voter i }
    {
        Place {
            voter: Some(i),
            project: None,
        }
    }

    pub(crate) fn at_project(j: u32) -> Place
        ensures { result ≡ spec.at_project j }
    {
        Place {
            voter: None,
            project: Some(j),
        }
    }

    pub(crate) fn at_both(i: u32, j: u32) -> Place
        ensures { result ≡ spec.at_both (i, j) }
    {
        Place {
            voter: Some(i),
            project: Some(j),
        }
    }
}

/// Whether something stands at a voter or at a project, by its number.
#[derive(Clone, Copy)]
pub(crate) enum At {
    Voter,
    Project,
}

impl At {
    /// The place of this number.
    pub(crate) fn place(self, number: u32) -> Place
        ensures { result ≡ spec.place_at self number }
    {
        match self {
            At::Voter => Place::at_voter(number),
            At::Project => Place::at_project(number),
        }
    }

    /// The place of this number, where there is one.
    pub(crate) fn place_if(self, number: Option<u32>) -> Option<Place>
        ensures { result ≡ option_map (spec.place_at self) number }
    {
        match number {
            Some(number) => Some(self.place(number)),
            None => None,
        }
    }
}

/// A voter by its number, or null.
pub(crate) fn voter_json(voter: Option<u32>) -> Value
    ensures { view result ≡ spec.voter_json voter }
{
    match voter {
        Some(i) => Value::from(i),
        None => Value::Null,
    }
}

/// A project by its id, or null.
pub(crate) fn project_json(
    alloc: Global,
    election: &Election,
    project: Option<u32>,
) -> Result<Value, AllocError>
    requires { IfSome project (IsProject election.now) }
    ensures { IfOk result (λ v. view v ≡ spec.project_json election.now project) }
{
    match project {
        Some(j) => Value::try_from_str(alloc, election.id(j)),
        None => Ok(Value::Null),
    }
}

/// A voter and a project.
pub(crate) fn place_json(
    alloc: Global,
    election: &Election,
    place: Place,
) -> Result<Value, AllocError>
    requires { spec.NamesProject election.now place }
    ensures { IfOk result (λ v. view v ≡ spec.place_json election.now place) }
{
    json!(in alloc; {
        "project": project_json(alloc, election, place.project)?,
        "voter": voter_json(place.voter),
    })
}

/// A voter and a project, or null.
pub(crate) fn place_or_null(
    alloc: Global,
    election: &Election,
    place: Option<Place>,
) -> Result<Value, AllocError>
    requires { IfSome place (spec.NamesProject election.now) }
    ensures { IfOk result (λ v. view v ≡ spec.place_or_null election.now place) }
{
    match place {
        Some(place) => place_json(alloc, election, place),
        None => Ok(Value::Null),
    }
}

/// A voter and a project together, or null.
pub(crate) fn pair_or_null(
    alloc: Global,
    election: &Election,
    pair: Option<(u32, u32)>,
) -> Result<Value, AllocError>
    requires { IfSome pair (λ q. IsProject election.now q.1) }
    ensures { IfOk result (λ v. view v ≡ spec.pair_or_null election.now pair) }
{
    match pair {
        Some((i, j)) => place_json(alloc, election, Place::at_both(i, j)),
        None => Ok(Value::Null),
    }
}

/// A condition or a test that fails, by its name, and where it does.
pub(crate) fn failed_json(
    alloc: Global,
    election: &Election,
    failed: &FailedAt,
) -> Result<Value, AllocError>
    requires { NamesProject election.now failed.now }
    ensures { IfOk result (λ v. view v ≡ spec.failed_json election.now failed.now) }
{
    json!(in alloc; {
        "name": failed.name,
        "project": project_json(alloc, election, failed.project)?,
        "voter": voter_json(failed.voter),
    })
}
