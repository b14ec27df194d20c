//! The faults of refusals, and the kinds of files, by their numbers.
ghost use Rattle.std.specs.Prelude.{◌≡◌, ◌≢◌, ◌==◌, ◌||◌, if◌then◌else◌, IfSome, IfNone};
ghost use Rattle.pb_certificate.specs.Faults as certificates;
ghost use Rattle.pb_election.specs.Faults as elections;
ghost use Rattle.pb_input.specs.Faults.{fault_number, fault_record};
ghost use Rattle.pb_certificate.specs.declared.refusal.CertFault.{CertFault};
ghost use Rattle.pb_election.specs.declared.refusal.ElectionFault.{ElectionFault};
ghost use Rattle.pb_input.specs.declared.InputFault.{InputFault};

use pb_certificate::{CertFault, CertRefusal};
use pb_election::{ElectionFault, Refusal};
use pb_hints::FileKind;
use pb_input::InputFault;

/// The fault that refusals print with this number, at this record. None where no fault has it. A file that can't be
/// read, and one that is too long, are refused at no record.
pub(crate) fn fault_of(number: u32, record_number: u64) -> Option<InputFault>
    ensures number { IfSome result (λ fault. fault_number fault ≡ number) }
    ensures record_number { IfSome result (λ fault. fault_record fault ≡ (if (number == 18) || (number == 19) then 0 else record_number)) }
    ensures none { IfNone result ((fault : InputFault) → fault_number fault ≢ number) }
{
    match number {
        18 => Some(InputFault::Unread),
        19 => Some(InputFault::TooLong),
        1..=17 => {
            let fault = election_fault(number)?;
            Some(InputFault::Election(Refusal {
                fault,
                record_number,
            }))
        }
        _ => {
            let fault = certificate_fault(number)?;
            Some(InputFault::Certificate(CertRefusal {
                fault,
                record_number,
            }))
        }
    }
}

fn election_fault(number: u32) -> Option<ElectionFault>
    ensures number { IfSome result (λ fault. elections.fault_number fault ≡ number) }
    ensures none { IfNone result ((fault : ElectionFault) → elections.fault_number fault ≢ number) }
{
    Some(match number {
        1 => ElectionFault::NotUtf8,
        2 => ElectionFault::NoMeta,
        3 => ElectionFault::NoHeader,
        4 => ElectionFault::MissingSection,
        5 => ElectionFault::UnexpectedSection,
        6 => ElectionFault::MissingKey,
        7 => ElectionFault::RepeatedKey,
        8 => ElectionFault::NotApproval,
        9 => ElectionFault::BadMoney,
        10 => ElectionFault::MissingColumn,
        11 => ElectionFault::RepeatedColumn,
        12 => ElectionFault::BadId,
        13 => ElectionFault::RepeatedProject,
        14 => ElectionFault::UnknownProject,
        15 => ElectionFault::TooMany,
        16 => ElectionFault::Memory,
        17 => ElectionFault::NoOutcome,
        _ => return None,
    })
}

fn certificate_fault(number: u32) -> Option<CertFault>
    ensures number { IfSome result (λ fault. certificates.fault_number fault ≡ number) }
    ensures none { IfNone result ((fault : CertFault) → certificates.fault_number fault ≢ number) }
{
    Some(match number {
        20 => CertFault::NotUtf8,
        21 => CertFault::BadHead,
        22 => CertFault::BadRow,
        23 => CertFault::BadNumber,
        24 => CertFault::UnknownVoter,
        25 => CertFault::UnknownProject,
        26 => CertFault::OutOfOrder,
        27 => CertFault::Repeated,
        28 => CertFault::TooMany,
        29 => CertFault::Memory,
        _ => return None,
    })
}

/// The kind of a file by its number: 0 an election, 1 an outcome file, 2 a price certificate, 3 a violation certificate,
/// 4 a certificate of any kind, and 5 a refutation.
pub(crate) fn kind_of(number: u8) -> Option<FileKind> {
    match number {
        0 => Some(FileKind::Election),
        1 => Some(FileKind::Outcome),
        2 => Some(FileKind::Prices),
        3 => Some(FileKind::Violation),
        4 => Some(FileKind::Certificate),
        5 => Some(FileKind::Refutation),
        _ => None,
    }
}
