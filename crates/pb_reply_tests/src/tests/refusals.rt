//! Refusals, for what is wanted.
use pb_certificate::{CertFault, CertRefusal};
use pb_election::{ElectionFault, Refusal as ElectionRefusal};
use pb_input::{InputFault, InputName, InputRefusal};
use pb_reply::Status;

/// The status of a reply on an input that is refused for this fault.
pub fn refused(input: InputName, fault: InputFault) -> Status {
    Status::Refused(InputRefusal { input, fault })
}

/// An election's fault at a record.
pub fn in_election(fault: ElectionFault, record_number: u64) -> InputFault {
    InputFault::Election(ElectionRefusal {
        fault,
        record_number,
    })
}

/// A fault of another file at a record.
pub fn in_certificate(fault: CertFault, record_number: u64) -> InputFault {
    InputFault::Certificate(CertRefusal {
        fault,
        record_number,
    })
}
