//! Why a file is refused as an election.
ghost use Rattle.std.specs.Prelude.{◌≡◌};
ghost use Rattle.pb_election.specs.Faults.{fault_name, fault_number, no_memory};

use std::alloc::AllocError;

/// A fault of an election's file in Pabulib's format. Of the faults at one record the first in this order is answered.
#[derive(Clone, Copy, Debug, PartialEq, Eq)]
pub enum ElectionFault {
    /// A field of the record is not UTF-8.
    NotUtf8,
    /// The first record that is not blank does not mark META; or all records are blank, and the fault is at the end.
    NoMeta,
    /// The record behind a section's marker is another marker in place of the header; or there is none, and the fault
    /// is at the end.
    NoHeader,
    /// The file ends before PROJECTS or before VOTES is marked. At the end.
    MissingSection,
    /// A marker among the rows of a section that is not the next section's, as a second META.
    UnexpectedSection,
    /// PROJECTS is marked, and META had no `budget` or no `vote_type`.
    MissingKey,
    /// A row of META states a key that is read and that stood before.
    RepeatedKey,
    /// The `vote_type` is not `approval`.
    NotApproval,
    /// The `budget`, or the cost of a project, is not an amount of money within the limits.
    BadMoney,
    /// The header of PROJECTS lacks `project_id` or `cost`, or that of VOTES lacks `vote`.
    MissingColumn,
    /// A header names a column that is read twice.
    RepeatedColumn,
    /// The id of a project is empty, or has a byte below 32 or the byte 127.
    BadId,
    /// The id of a project is that of an earlier one.
    RepeatedProject,
    /// A vote names what is no project's id.
    UnknownProject,
    /// The row of project 20,001 or of voter 1,000,001, or the row with which the ballots have more than 20,000,000
    /// approvals together.
    TooMany,
    /// Out of memory. No record causes it.
    Memory,
    /// The file has no column `selected`, so it states no outcome. Only `Outcome::selected` answers it.
    NoOutcome,
}

/// Why a file is refused as an election, and where.
#[derive(Clone, Copy, Debug, PartialEq, Eq)]
pub struct Refusal {
    /// Why. Of several faults at one record this is the first in the order of `ElectionFault`.
    pub fault: ElectionFault,
    /// The record at which the fault stands. Records are numbered from 1, blank ones included, and the end of the file
    /// is one more than their number. 0 for `Memory` and `NoOutcome`.
    pub record_number: u64,
}

impl Refusal {
    /// The number of the fault, from 1 for `NotUtf8` to 17 for `NoOutcome`, in the order of `ElectionFault`.
    pub fn number(&self) -> u32
        ensures { result ≡ fault_number (self.now).fault }
    {
        match self.fault {
            ElectionFault::NotUtf8 => 1,
            ElectionFault::NoMeta => 2,
            ElectionFault::NoHeader => 3,
            ElectionFault::MissingSection => 4,
            ElectionFault::UnexpectedSection => 5,
            ElectionFault::MissingKey => 6,
            ElectionFault::RepeatedKey => 7,
            ElectionFault::NotApproval => 8,
            ElectionFault::BadMoney => 9,
            ElectionFault::MissingColumn => 10,
            ElectionFault::RepeatedColumn => 11,
            ElectionFault::BadId => 12,
            ElectionFault::RepeatedProject => 13,
            ElectionFault::UnknownProject => 14,
            ElectionFault::TooMany => 15,
            ElectionFault::Memory => 16,
            ElectionFault::NoOutcome => 17,
        }
    }

    /// The name of the fault, as `ElectionFault` spells it.
    pub fn name(&self) -> &'static str
        ensures { result.now ≡ fault_name (self.now).fault }
    {
        match self.fault {
            ElectionFault::NotUtf8 => "NotUtf8",
            ElectionFault::NoMeta => "NoMeta",
            ElectionFault::NoHeader => "NoHeader",
            ElectionFault::MissingSection => "MissingSection",
            ElectionFault::UnexpectedSection => "UnexpectedSection",
            ElectionFault::MissingKey => "MissingKey",
            ElectionFault::RepeatedKey => "RepeatedKey",
            ElectionFault::NotApproval => "NotApproval",
            ElectionFault::BadMoney => "BadMoney",
            ElectionFault::MissingColumn => "MissingColumn",
            ElectionFault::RepeatedColumn => "RepeatedColumn",
            ElectionFault::BadId => "BadId",
            ElectionFault::RepeatedProject => "RepeatedProject",
            ElectionFault::UnknownProject => "UnknownProject",
            ElectionFault::TooMany => "TooMany",
            ElectionFault::Memory => "Memory",
            ElectionFault::NoOutcome => "NoOutcome",
        }
    }
}

impl From<AllocError> for Refusal {
    ghost from_gives = { λ _ r. r ≡ no_memory };

    fn from(_error: AllocError) -> Refusal {
        Refusal {
            fault: ElectionFault::Memory,
            record_number: 0,
        }
    }
}
