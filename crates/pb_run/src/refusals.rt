//! What people are told beside an answer: notes on the election, and why a file is refused.
use crate::asking::{Ask, asked_by};
use crate::files::Files;
use pb_audit::{InputFault, InputName, InputRefusal, Question};
use pb_certificate::CertFault;
use pb_command::Task;
use pb_hints::{FileKind, Remark, hint, push_quoted, push_shown};
use std::alloc::{AllocError, Global};
use std::io;
use std::io::Write;

/// Tells on `err` why an input of a task was refused. What `err` does not take is lost, and nothing is told if memory
/// runs out.
pub fn tell_hint<F: Files, E: Write>(
    alloc: Global,
    files: &mut F,
    task: &Task,
    refusal: InputRefusal,
    err: &mut E,
) {
    if let Some((kind, path)) = input_of(task, refusal.input) {
        let remarks = match refusal.fault {
            InputFault::Unread => unread(alloc, path, files.failure(), "reading it failed"),
            _ => remarks_on(alloc, files, task, refusal, kind, path),
        };
        if let Ok(remarks) = remarks {
            tell_remarks(alloc, path.unwrap_or("standard input"), &remarks, err);
        }
    }
}

/// Tells on `err` the notes on the election of a task, a line for each; those of `read` are part of its answer. What `err`
/// does not take is lost, and nothing is told if memory runs out.
pub fn tell_notes<E: Write>(alloc: Global, task: &Task, notes: &[String], err: &mut E) {
    let Some((_, Some(path))) = input_of(task, InputName::Election) else {
        return;
    };
    if let Task::Read { .. } = task {
        return;
    }
    let mut text = String::new(alloc);
    let pushed = notes
        .iter()
        .try_for_each(|note| push_note(&mut text, path, note));
    if pushed.is_ok() {
        let _ = err.write_all(text.as_bytes());
    }
}

fn push_note(text: &mut String, path: &str, note: &str) -> Result<(), AllocError> {
    push_shown(text, path)?;
    writeln!(text, ": {note}")
}

/// Tells on `err` why a folder was not listed.
pub fn tell_unlisted<F: Files, E: Write>(
    alloc: Global,
    files: &mut F,
    folder: &str,
    failure: Option<i32>,
    err: &mut E,
) {
    if let Ok(remarks) = unlisted(alloc, files, folder, failure) {
        tell_remarks(alloc, folder, &remarks, err);
    }
}

/// Why a folder was not listed.
fn unlisted<F: Files>(
    alloc: Global,
    files: &mut F,
    folder: &str,
    failure: Option<i32>,
) -> Result<Vec<Remark>, AllocError> {
    if failure.is_some() {
        return unread(alloc, Some(folder), failure, "");
    }
    let words = not_text_words(alloc, files, folder)?;
    unread(alloc, Some(folder), failure, words.as_str())
}

/// That a folder has a file whose name isn't UTF-8, with the name, where that can be read again.
fn not_text_words<F: Files>(
    alloc: Global,
    files: &mut F,
    folder: &str,
) -> Result<String, AllocError> {
    let mut words = String::from_str(alloc, "it has a file whose name isn't UTF-8")?;
    if let Some(name) = files.first_not_text(alloc, folder)? {
        words.push_str(": ")?;
        push_quoted(&mut words, &name)?;
    }
    Ok(words)
}

fn tell_remarks<E: Write>(alloc: Global, name: &str, remarks: &[Remark], err: &mut E) {
    let name = if name.is_empty() { "''" } else { name };
    let mut text = String::new(alloc);
    let pushed = remarks
        .iter()
        .try_for_each(|remark| remark.push(&mut text, name));
    if pushed.is_ok() {
        let _ = err.write_all(text.as_bytes());
    }
}

/// Why an input couldn't be read, or these words where the operating system gives no number for it.
fn unread(
    alloc: Global,
    path: Option<&str>,
    failure: Option<i32>,
    words: &str,
) -> Result<Vec<Remark>, AllocError> {
    let sentence = match (path, failure) {
        (Some(""), _) => String::from_str(alloc, "the path is empty")?,
        (_, Some(number)) => reason_of(alloc, number)?,
        (_, None) => String::from_str(alloc, words)?,
    };
    let mut remarks = Vec::new(alloc);
    remarks.push(Remark {
        line: None,
        sentence,
    })?;
    if path == Some("-") {
        remarks.push(Remark {
            line: None,
            sentence: String::from_str(alloc, "standard input is /dev/stdin")?,
        })?;
    }
    Ok(remarks)
}

/// What is told of an input of this kind and path, by what it holds now.
fn remarks_on<F: Files>(
    alloc: Global,
    files: &mut F,
    task: &Task,
    refusal: InputRefusal,
    kind: FileKind,
    path: Option<&str>,
) -> Result<Vec<Remark>, AllocError> {
    let bytes = match path {
        Some(path) if refusal.fault.record_number() > 0 => files.again(alloc, path)?,
        _ => None,
    };
    let election = match input_of(task, InputName::Election) {
        Some((_, Some(path))) if asks_for_election(refusal.fault) => files.again(alloc, path)?,
        _ => None,
    };
    hint(
        alloc,
        kind,
        refusal.fault,
        bytes.as_deref(),
        election.as_deref(),
    )
}

/// Whether a hint tells more where the election is there beside which the refused file was read.
fn asks_for_election(fault: InputFault) -> bool {
    match fault {
        InputFault::Certificate(refusal) => matches!(
            refusal.fault,
            CertFault::UnknownVoter | CertFault::UnknownProject | CertFault::BadNumber
        ),
        _ => false,
    }
}

/// What an input of a task is to be, as far as the task tells, and its path; none for standard input.
fn input_of(task: &Task, input: InputName) -> Option<(FileKind, Option<&str>)> {
    match asked_by(task) {
        Some((paths, ask)) => Some((kind_of(ask, input), Some(paths.of_input(input)?))),
        None => match task {
            Task::Read { .. } => Some((FileKind::Election, None)),
            _ => None,
        },
    }
}

/// What an input is to be of which this is asked.
fn kind_of(ask: Ask, input: InputName) -> FileKind {
    match (input, ask) {
        (InputName::Election, _) => FileKind::Election,
        (InputName::Outcome, _) => FileKind::Outcome,
        (InputName::Violation, _) | (_, Ask::Question(Question::Violation, _)) => {
            FileKind::Violation
        }
        (_, Ask::Question(Question::Refutation(_), _)) => FileKind::Refutation,
        (_, Ask::Question(Question::Explain(_), _) | Ask::Page(_, _)) => FileKind::Certificate,
        _ => FileKind::Prices,
    }
}

/// What the operating system says of a failure of this number.
fn reason_of(alloc: Global, number: i32) -> Result<String, AllocError> {
    let text = io::Error::from_raw_os_error(number).to_string(alloc)?;
    match text.split_once(" (os error") {
        Some((reason, _)) => String::from_str(alloc, reason),
        None => Ok(text),
    }
}
