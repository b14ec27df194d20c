//! Inputs: their names, and why one is refused.
#![tactic(auto)]

ghost use Rattle.std.specs.Prelude.{◌≡◌};
ghost use Rattle.pb_input.specs.Faults.{fault_name, fault_number, fault_record, name_of};
ghost use Rattle.pb_input.specs.Faults as spec;

use pb_certificate::{CertFault, CertRefusal};
use pb_election::{ElectionFault, Refusal as ElectionRefusal};

/// The inputs, by the names that refusals are printed with.
#[derive(Clone, Copy, Debug, PartialEq, Eq)]
pub enum InputName {
    Election,
    Outcome,
    Certificate,
    /// The price certificate, where a violation certificate stands beside it.
    Prices,
    /// The violation certificate, where a price certificate stands beside it.
    Violation,
    /// The folder of elections.
    Folder,
}

/// Why an input is refused.
#[derive(Clone, Copy, Debug, PartialEq, Eq)]
pub enum InputFault {
    /// It can't be read, or a folder can't be listed.
    Unread,
    /// It has more than 2^28 bytes.
    TooLong,
    /// It is no election, or an election without an outcome of its own.
    Election(ElectionRefusal),
    /// It is no certificate, or no outcome file, for the election.
    Certificate(CertRefusal),
}

/// An input that is refused, and why.
#[derive(Clone, Copy, Debug, PartialEq, Eq)]
pub struct InputRefusal {
    /// Which input is refused.
    pub input: InputName,
    /// Why, and at which of its records.
    pub fault: InputFault,
}

impl InputName {
    /// The name that refusals are printed with.
    pub fn name(&self) -> &'static str
        ensures { result.now ≡ name_of self.now }
    {
        match self {
            InputName::Election => "election",
            InputName::Outcome => "outcome",
            InputName::Certificate => "certificate",
            InputName::Prices => "prices",
            InputName::Violation => "violation",
            InputName::Folder => "folder",
        }
    }
}

impl InputFault {
    /// The number that the fault is printed with.
    pub fn number(&self) -> u32
        ensures { result ≡ fault_number self.now }
    {
        match self {
            InputFault::Unread => 18,
            InputFault::TooLong => 19,
            InputFault::Election(refusal) => refusal.number(),
            InputFault::Certificate(refusal) => refusal.number(),
        }
    }

    /// The name that the fault is printed with.
    pub fn name(&self) -> &'static str
        ensures { result.now ≡ fault_name self.now }
    {
        match self {
            InputFault::Unread => "Read",
            InputFault::TooLong => "TooLong",
            InputFault::Election(refusal) => refusal.name(),
            InputFault::Certificate(refusal) => refusal.name(),
        }
    }

    /// The record at which the fault stands, from 1, or 0 where it stands at none.
    pub fn record_number(&self) -> u64
        ensures { result ≡ fault_record self.now }
    {
        match self {
            InputFault::Unread | InputFault::TooLong => 0,
            InputFault::Election(refusal) => refusal.record_number,
            InputFault::Certificate(refusal) => refusal.record_number,
        }
    }

    /// Whether the fault is not one of the input: out of memory.
    pub fn wants_memory(&self) -> bool
        ensures { result ≡ spec.wants_memory self.now }
    {
        match self {
            InputFault::Unread | InputFault::TooLong => false,
            InputFault::Election(refusal) => matches!(refusal.fault, ElectionFault::Memory),
            InputFault::Certificate(refusal) => matches!(refusal.fault, CertFault::Memory),
        }
    }
}
