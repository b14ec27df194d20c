//! How a condition or a test that fails is told.
ghost use Rattle.std.specs.Prelude.{◌≡◌};
ghost use Rattle.pb_cohesion.specs.Failed as spec;

use crate::{RefutationFailure, ViolationFailure};
use std::marker::Model;

/// A condition or a test that fails, with the voter and the project at which it does.
#[derive(Drop)]
pub struct FailedAt {
    /// Its number: 1 Feasible, 2 Exhaustive, 3 Cover, 4 to 8 C1 to C5, 9 S5; 11 to 14 V1 to V4; 21 to 23 U1 to U3; 31
    /// that a group falls short.
    pub number: u32,
    /// Its name.
    pub name: &'static str,
    /// The voter, numbered from 1, where it fails at one.
    pub voter: Option<u32>,
    /// The project, numbered from 1, where it fails at one.
    pub project: Option<u32>,
}

impl Model for FailedAt {
    ghost use Rattle.pb_cohesion.specs.Failed.{Failed};

    ghost Value = { Failed };

    ghost view = { λ f. record { number = f.number; name = f.name.now; voter = f.voter; project = f.project } };
}

impl FailedAt {
    /// What fails, by its number and its name, at a voter and a project.
    pub fn new(
        number: u32,
        name: &'static str,
        voter: Option<u32>,
        project: Option<u32>,
    ) -> FailedAt
        ensures { result ≡ spec.failed number name.entry.now voter project }
    {
        FailedAt {
            number,
            name,
            voter,
            project,
        }
    }

    /// That a group falls short, for this project.
    pub fn short_for(project: u32) -> FailedAt
        ensures { result ≡ spec.short_failed project }
    {
        FailedAt::new(31, "EJR+", None, Some(project))
    }
}

impl ViolationFailure {
    /// The test that fails, with where it does.
    pub fn failed_at(self) -> FailedAt
        ensures { result ≡ spec.violation_failed self }
    {
        match self {
            ViolationFailure::V1 => FailedAt::new(11, "V1", None, None),
            ViolationFailure::V2(i, j) => FailedAt::new(12, "V2", Some(i), Some(j)),
            ViolationFailure::V3 => FailedAt::new(13, "V3", None, None),
            ViolationFailure::V4(i) => FailedAt::new(14, "V4", Some(i), None),
        }
    }
}

impl RefutationFailure {
    /// The test that fails, with where it does.
    pub fn failed_at(self) -> FailedAt
        ensures { result ≡ spec.refutation_failed self }
    {
        match self {
            RefutationFailure::U1(j) => FailedAt::new(21, "U1", None, Some(j)),
            RefutationFailure::U2 => FailedAt::new(22, "U2", None, None),
            RefutationFailure::U3 => FailedAt::new(23, "U3", None, None),
        }
    }
}
