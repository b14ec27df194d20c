//! Why a file is refused.
ghost use Rattle.std.specs.Prelude.{◌≡◌};
ghost use Rattle.pb_certificate.specs.Faults.{fault_name, fault_number, no_memory, refusal_where_stopped};

use pb_records::{FaultAt, Stop};
use std::alloc::AllocError;

/// Why a file is refused as a certificate or as an outcome file.
#[derive(Clone, Copy, Debug, PartialEq, Eq)]
pub enum CertFault {
    /// A field of the record is not UTF-8.
    NotUtf8,
    /// A head record that is not as the form asks, or the end before the last of them. A number out of its range is
    /// `BadNumber`.
    BadHead,
    /// A row has another number of fields than three in a price certificate or a refutation and two in the other files,
    /// where empty ones at its end do not count, or begins with a word that is no kind of row in this file.
    BadRow,
    /// The denominator is not a whole number from 1 to 10^9, the voter budget or a payment none up to 10^21, a weight of
    /// a refutation none up to 10^12, or a voter is not written in digits. It does not come from outcome files.
    BadNumber,
    /// A voter's number is 0, or more than the election has voters. It does not come from refutations and outcome files.
    UnknownVoter,
    /// An id is that of no project of the election.
    UnknownProject,
    /// A row of a price certificate has a lower voter than the row before it.
    OutOfOrder,
    /// A row of a price certificate is on a voter and a project that stood together in an earlier row, with the payment
    /// 0 too; a row of the other files names a voter or a project that an earlier row named, with the weight 0 too.
    Repeated,
    /// A price certificate has more than 10,000,000 rows: this is the next one.
    TooMany,
    /// Out of memory. No record causes it.
    Memory,
}

/// Why a file is refused, and where.
#[derive(Clone, Copy, Debug, PartialEq, Eq)]
pub struct CertRefusal {
    /// Why it is refused.
    pub fault: CertFault,
    /// The record at which the fault stands. Records are numbered from 1, blank ones included, and the end of the file
    /// is one more than their number. 0 for `Memory`.
    pub record_number: u64,
}

impl CertRefusal {
    // Out of memory.
    const NO_MEMORY: CertRefusal = CertRefusal {
        fault: CertFault::Memory,
        record_number: 0,
    };

    /// The number that stands for the fault in a report, from 20 for `NotUtf8` to 29 for `Memory`, in the order of
    /// `CertFault`.
    pub fn number(&self) -> u32
        ensures { result ≡ fault_number (self.now).fault }
    {
        match self.fault {
            CertFault::NotUtf8 => 20,
            CertFault::BadHead => 21,
            CertFault::BadRow => 22,
            CertFault::BadNumber => 23,
            CertFault::UnknownVoter => 24,
            CertFault::UnknownProject => 25,
            CertFault::OutOfOrder => 26,
            CertFault::Repeated => 27,
            CertFault::TooMany => 28,
            CertFault::Memory => 29,
        }
    }

    /// The name that stands for the fault in a report, as `CertFault` spells it.
    pub fn name(&self) -> &'static str
        ensures { result.now ≡ fault_name (self.now).fault }
    {
        match self.fault {
            CertFault::NotUtf8 => "NotUtf8",
            CertFault::BadHead => "BadHead",
            CertFault::BadRow => "BadRow",
            CertFault::BadNumber => "BadNumber",
            CertFault::UnknownVoter => "UnknownVoter",
            CertFault::UnknownProject => "UnknownProject",
            CertFault::OutOfOrder => "OutOfOrder",
            CertFault::Repeated => "Repeated",
            CertFault::TooMany => "TooMany",
            CertFault::Memory => "Memory",
        }
    }
}

impl From<AllocError> for CertRefusal {
    ghost from_gives = { λ _ r. r ≡ no_memory };

    fn from(_error: AllocError) -> CertRefusal {
        CertRefusal::NO_MEMORY
    }
}

impl From<Stop<FaultAt<CertFault>>> for CertRefusal {
    ghost from_gives = { λ stop r. r ≡ refusal_where_stopped stop };

    fn from(stop: Stop<FaultAt<CertFault>>) -> CertRefusal {
        match stop {
            Stop::Fault(at) => CertRefusal {
                fault: at.fault,
                record_number: at.record_number,
            },
            Stop::Memory => CertRefusal::NO_MEMORY,
        }
    }
}
