//! The whole report on a question: what stands beside the answer, and the answer behind it.
ghost use Rattle.std.specs.Prelude.{◌≡◌, ◌∷◌, [], IfOk, map, option_map, string_bytes};
ghost use Rattle.serde_json.specs.Written.{compact_text};
ghost use Rattle.pb_audit.specs.Questions.{Answers};
ghost use Rattle.pb_c.specs.Files.{given_file};
ghost use Rattle.pb_c.specs.Whole.{IsWhole, refusal_in};
ghost use Rattle.pb_json.specs.Beside.{beside_json};
ghost use Rattle.pb_reply.specs.Inputs.{in_memory};
ghost use Rattle.pb_reply.specs.Replies.{text_of};
ghost use Rattle.pb_reply.specs.Turns.{gives, gives_file};
ghost use Rattle.pb_reply.specs.declared.answer.Format.TheVariants.{JsonAndLines};

use crate::answers::noted_answer_on;
use crate::hints::{line_of, sentences_of};
use pb_audit::{Answer, Format, InputName, InputRefusal, Question, Status};
use pb_hints::{FileKind, Remark, hint};
use pb_json::{Object, beside_json};
use std::alloc::{AllocError, Global};

/// The report on a question: a line with what stands beside the answer, the notes, the refusal and its hint, as a JSON
/// object; and behind it the answer, as one JSON object in a line where it is one, and as lines.
pub(crate) fn report_on(
    alloc: Global,
    question: Question,
    election: &[u8],
    outcome: &[u8],
    has_outcome: bool,
    certificate: &[u8],
    violation: &[u8],
) -> Result<Answer<Status>, AllocError>
    ensures { IfOk result (IsWhole (Answers JsonAndLines question (gives (in_memory election.now)) (gives_file (option_map in_memory (given_file has_outcome outcome.now))) (gives (in_memory certificate.now)) (gives (in_memory violation.now)))) }
{
    let mut notes = Vec::new(alloc);
    let answer = noted_answer_on(
        alloc,
        Format::JsonAndLines,
        question,
        election,
        outcome,
        has_outcome,
        certificate,
        violation,
        &mut notes,
    )?;
    let refusal = refusal_in(answer.status);
    let remarks = match refusal {
        Some(refusal) => {
            let (kind, file) = match refusal.input {
                InputName::Election => (FileKind::Election, election),
                InputName::Outcome => (FileKind::Outcome, outcome),
                InputName::Violation => (FileKind::Violation, violation),
                _ => (kind_of(question), certificate),
            };
            remarks_on(alloc, refusal, kind, file, election)?
        }
        None => Vec::new(alloc),
    };
    whole(alloc, &notes, &answer.text, answer.status, &remarks)
}

/// What stands beside an answer of this text and status, and the text behind it.
fn whole(
    alloc: Global,
    notes: &[String],
    text: &[u8],
    status: Status,
    remarks: &[Remark],
) -> Result<Answer<Status>, AllocError>
    ensures { IfOk result (IsWhole (λ own. own ≡ record { text = text.now; status = status })) }
{
    let sentences = sentences_of(alloc, remarks)?;
    let line = line_of(remarks);
    let mut whole = beside_line(alloc, notes, refusal_in(status), line, &sentences)?.into_bytes();
    whole.extend_from_slice(text)?;
    Ok(Answer {
        text: whole,
        status,
    })
}

/// The line of what stands beside an answer, with its end.
fn beside_line(
    alloc: Global,
    notes: &[String],
    refusal: Option<InputRefusal>,
    line: Option<u64>,
    sentences: &[String],
) -> Result<String, AllocError>
    ensures { IfOk result (λ text. string_bytes text ≡ text_of (compact_text (beside_json (map string_bytes notes.now) refusal line (map string_bytes sentences.now)) ∷ [])) }
{
    let beside = beside_json(alloc, notes, refusal, line, sentences)?;
    let mut text = Object::new(beside).text(alloc)?;
    text.push('\n')?;
    Ok(text)
}

/// The refusal that a status tells.
fn refusal_in(status: Status) -> Option<InputRefusal>
    ensures { result ≡ refusal_in status }
{
    match status {
        Status::Refused(refusal) => Some(refusal),
        _ => None,
    }
}

/// What a person is told of a file that is refused. The election tells more of another file.
fn remarks_on(
    alloc: Global,
    refusal: InputRefusal,
    kind: FileKind,
    file: &[u8],
    election: &[u8],
) -> Result<Vec<Remark>, AllocError> {
    let beside = match kind {
        FileKind::Election => None,
        _ => Some(election),
    };
    hint(alloc, kind, refusal.fault, Some(file), beside)
}

/// What the certificate of a question is to be.
fn kind_of(question: Question) -> FileKind {
    match question {
        Question::Violation => FileKind::Violation,
        Question::Refutation(_) => FileKind::Refutation,
        Question::Explain(_) => FileKind::Certificate,
        _ => FileKind::Prices,
    }
}
