//! The hint on a file that is refused.
use crate::causes::{encoding_cause, first_record_cause};
use crate::remark::Remark;
use crate::scene::Scene;
use crate::{FileKind, certificates, elections};
use pb_certificate::{CertFault, Kind};
use pb_election::ElectionFault;
use pb_input::InputFault;
use std::alloc::{AllocError, Global};

/// What a person is told of a file of this kind that is refused for this fault: one or two remarks. The first says what
/// is wrong, on the line at which the refused record begins, where there is one. The second, if there is one, names a
/// cause that stands elsewhere or that is often met.
///
/// The bytes are those of the refused file, where they can be had, and of the election beside which it is read, where
/// they can: with them it is told which voter or project may be meant. They may be others than those that were refused:
/// the hint speaks of what they hold. The error is that memory ran out.
pub fn hint(
    alloc: Global,
    kind: FileKind,
    fault: InputFault,
    file: Option<&[u8]>,
    election: Option<&[u8]>,
) -> Result<Vec<Remark>, AllocError> {
    let record_number = fault.record_number();
    let scene = match file {
        Some(file) if record_number > 0 && suits(kind, fault) => {
            Scene::open(
                alloc,
                kind_of(alloc, kind, file, record_number)?,
                record_number,
                file,
                election,
            )?
        }
        _ => None,
    };
    match scene {
        Some(scene) => scene.remarks(fault),
        None => without_bytes(alloc, fault),
    }
}

/// Whether a file of this kind can have the fault.
fn suits(kind: FileKind, fault: InputFault) -> bool {
    match fault {
        InputFault::Election(_) => kind == FileKind::Election,
        InputFault::Certificate(_) => kind != FileKind::Election,
        InputFault::Unread | InputFault::TooLong => false,
    }
}

/// What the file is by its own first record, where it may be a certificate of any kind.
fn kind_of(
    alloc: Global,
    kind: FileKind,
    file: &[u8],
    record_number: u64,
) -> Result<FileKind, AllocError> {
    if kind != FileKind::Certificate {
        return Ok(kind);
    }
    Ok(match pb_certificate::kind_of(alloc, file)? {
        Kind::Violation => FileKind::Violation,
        Kind::Refutation => FileKind::Refutation,
        Kind::Prices if record_number > 1 => FileKind::Prices,
        Kind::Prices => kind,
    })
}

/// What can be told without the bytes of the file.
fn without_bytes(alloc: Global, fault: InputFault) -> Result<Vec<Remark>, AllocError> {
    let words = match fault {
        InputFault::Unread => "reading it failed",
        InputFault::TooLong => "the file has more than 268,435,456 bytes (2^28)",
        InputFault::Election(refusal) => elections::general(refusal.fault),
        InputFault::Certificate(refusal) => certificates::general(refusal.fault),
    };
    let mut remarks = Vec::new(alloc);
    let sentence = match fault.record_number() {
        0 => String::from_str(alloc, words)?,
        record_number => format!(in alloc; "record {record_number}: {words}")?,
    };
    remarks.push(Remark {
        line: None,
        sentence,
    })?;
    Ok(remarks)
}

impl Scene<'_> {
    /// The remark on the record, and behind it that on its cause, if there is one.
    fn remarks(&self, fault: InputFault) -> Result<Vec<Remark>, AllocError> {
        let sentence = match fault {
            InputFault::Election(refusal) => self.election_sentence(refusal.fault)?,
            InputFault::Certificate(refusal) => self.certificate_sentence(refusal.fault)?,
            InputFault::Unread | InputFault::TooLong => return without_bytes(self.alloc, fault),
        };
        let line = self.line();
        let mut remarks = Vec::new(self.alloc);
        remarks.push(Remark { line, sentence })?;
        if let Some(cause) = self.cause(fault)? {
            remarks.push(cause)?;
        }
        Ok(remarks)
    }

    /// What often causes the fault, or stands elsewhere and causes it here: the first of these that is found.
    fn cause(&self, fault: InputFault) -> Result<Option<Remark>, AllocError> {
        if let Some(remark) = self.cause_in_bytes(fault)? {
            return Ok(Some(remark));
        }
        if let Some(remark) = self.quote_here()? {
            return Ok(Some(remark));
        }
        if let Some(remark) = self.cause_of(fault)? {
            return Ok(Some(remark));
        }
        self.quote_before()
    }

    /// That the file isn't text, or another one.
    fn cause_in_bytes(&self, fault: InputFault) -> Result<Option<Remark>, AllocError> {
        if is_not_utf8(fault) {
            return self.remark(encoding_cause(self.file()));
        }
        if self.story.records > 0 || self.is_end() {
            return Ok(None);
        }
        first_record_cause(
            self.alloc,
            self.file(),
            self.row().get(0).unwrap_or(""),
            self.kind,
        )
    }

    fn cause_of(&self, fault: InputFault) -> Result<Option<Remark>, AllocError> {
        match fault {
            InputFault::Election(refusal) => self.election_cause(refusal.fault),
            InputFault::Certificate(refusal) => self.certificate_cause(refusal.fault),
            InputFault::Unread | InputFault::TooLong => Ok(None),
        }
    }
}

fn is_not_utf8(fault: InputFault) -> bool {
    match fault {
        InputFault::Election(refusal) => refusal.fault == ElectionFault::NotUtf8,
        InputFault::Certificate(refusal) => refusal.fault == CertFault::NotUtf8,
        InputFault::Unread | InputFault::TooLong => false,
    }
}
