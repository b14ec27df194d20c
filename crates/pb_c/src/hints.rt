//! Hints as texts for C.
ghost use Rattle.std.specs.Prelude.{◌≡◌, IfOk};
ghost use Rattle.pb_reply.specs.declared.status.Status.TheVariants.{Yes};

use crate::faults::{fault_of, kind_of};
use pb_audit::{Answer, Status};
use pb_hints::{Remark, hint};
use std::alloc::{AllocError, Global};

/// The hint on a refused file, as an answer that is always a yes: a sentence a line, each but the first behind the line of
/// the file on which it is, where it is on one. That of the first, on which the refused record begins, is given as `line`,
/// or 0 where there is none. Where no fault or no kind of file has the number, the text is empty.
pub(crate) fn hint_answer(
    alloc: Global,
    input: u8,
    number: u32,
    record_number: u64,
    file: &[u8],
    election: Option<&[u8]>,
    line: &mut u64,
) -> Result<Answer<Status>, AllocError>
    ensures { IfOk result (λ answer. answer.status ≡ Yes) }
{
    *line = 0;
    let mut text = String::new(alloc);
    if let (Some(kind), Some(fault)) = (kind_of(input), fault_of(number, record_number)) {
        let remarks = hint(alloc, kind, fault, Some(file), election)?;
        *line = line_of(&remarks).unwrap_or(0);
        for sentence in &sentences_of(alloc, &remarks)? {
            text.push_str(sentence)?;
            text.push('\n')?;
        }
    }
    Ok(Answer {
        text: text.into_bytes(),
        status: Status::Yes,
    })
}

/// The line of the first remark, where it is on one.
pub(crate) fn line_of(remarks: &[Remark]) -> Option<u64> {
    remarks.first()?.line
}

/// The sentences of remarks, each but the first behind the line of the file on which it is, where it is on one.
pub(crate) fn sentences_of(alloc: Global, remarks: &[Remark]) -> Result<Vec<String>, AllocError> {
    let mut sentences = Vec::new(alloc);
    for remark in remarks {
        let mut text = String::new(alloc);
        match remark.line {
            Some(line) if !sentences.is_empty() => write!(text, "line {line}: ")?,
            _ => {}
        }
        text.push_str(&remark.sentence)?;
        sentences.push(text)?;
    }
    Ok(sentences)
}
