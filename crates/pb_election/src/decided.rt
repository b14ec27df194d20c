//! An election with its outcome.
ghost use Rattle.std.specs.Prelude.{◌≡◌};
ghost use Rattle.pb_election.specs.Outcome.{OutcomeFits};

use crate::{Election, Outcome};
use std::marker::Model;

/// An election with its outcome, which says of each of its projects whether it is funded.
#[derive(Drop)]
pub struct DecidedElection {
    election: Election,
    outcome: Outcome,
}

impl Model for DecidedElection {
    ghost use Rattle.pb_election.specs.Outcome.{Decided, OutcomeFits};

    ghost Value = { Decided };

    ghost view = { λ d. record { election = d.election; outcome = d.outcome } };

    ghost invariant = { λ d. OutcomeFits d.outcome d.election };
}

impl DecidedElection {
    /// The election with this outcome, which has a mark for each of its projects.
    pub fn new(election: Election, outcome: Outcome) -> DecidedElection
        requires { OutcomeFits outcome election }
        ensures election { result.election ≡ election }
        ensures outcome { result.outcome ≡ outcome }
    {
        DecidedElection { election, outcome }
    }

    /// The election.
    pub fn election(&self) -> &Election
        ensures { result.now ≡ (self.now).election }
    {
        &self.election
    }

    /// Which of its projects are funded.
    pub fn outcome(&self) -> &Outcome
        ensures value { result.now ≡ (self.now).outcome }
        ensures fits { OutcomeFits (self.now).outcome (self.now).election }
    {
        &self.outcome
    }
}
