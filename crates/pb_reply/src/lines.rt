//! The lines of the answers.
ghost use Rattle.std.specs.Prelude.{◌≡◌, ◌∷◌, ◌++◌, [], IfOk, OnOk, map, string_bytes};
ghost use Rattle.pb_reply.specs.Replies.{text_of};
ghost use Rattle.pb_reply.specs.Lines as spec;

use pb_cohesion::cost_of_funded;
use pb_election::{DecidedElection, Election, UnusedColumns};
use pb_input::InputRefusal;
use std::alloc::{AllocError, Global};

/// Adds a line and its end to a text.
pub fn push_line(text: &mut String, line: &str) -> Result<(), AllocError>
    ensures { OnOk result (string_bytes text.new ≡ string_bytes text.old ++ text_of (line.now ∷ [])) }
{
    text.push_str(line)?;
    text.push_str("\n")
}

/// The line on an election that was read. How many projects are funded is None where the election states no outcome.
pub fn read_line(
    alloc: Global,
    election: &Election,
    funded: Option<u32>,
) -> Result<String, AllocError>
    requires { funded ≡ spec.number_of_funded election.now }
    ensures { IfOk result (λ line. string_bytes line ≡ spec.read_line election.now) }
{
    let (voters, projects) = (election.voters(), election.projects());
    match funded {
        Some(count) => format!(in alloc; "read {voters} voters {projects} projects {count} funded"),
        None => format!(in alloc; "read {voters} voters {projects} projects no outcome"),
    }
}

/// Adds the notes on an election, each where it is due.
pub fn push_notes(
    alloc: Global,
    lines: &mut Vec<String>,
    election: &Election,
) -> Result<(), AllocError>
    ensures { OnOk result (map string_bytes lines.new.items ≡ map string_bytes lines.old.items ++ spec.notes election.now) }
{
    push_count_notes(alloc, lines, election)?;
    push_selected_note(alloc, lines, election.other_selected())?;
    push_column_notes(alloc, lines, election.unused_columns())
}

/// Adds the note that the funded projects cost more than the limit, where they do.
pub fn push_limit_note(
    alloc: Global,
    lines: &mut Vec<String>,
    decided: &DecidedElection,
) -> Result<(), AllocError>
    ensures { OnOk result (map string_bytes lines.new.items ≡ map string_bytes lines.old.items ++ spec.limit_note (decided.now).election (decided.now).outcome.marks) }
{
    let limit = decided.election().limit();
    if cost_of_funded(decided.election(), decided.outcome()) <= u128::from(limit.millionths()) {
        return Ok(());
    }
    push_whole(lines, limit_words(alloc)?)
}

fn limit_words(alloc: Global) -> Result<String, AllocError>
    ensures { IfOk result (λ line. string_bytes line ≡ spec.limit_words) }
{
    String::from_str(alloc, "note: the funded projects cost more than the limit")
}

/// Adds a line to a list of lines.
fn push_whole(lines: &mut Vec<String>, line: String) -> Result<(), AllocError>
    ensures { OnOk result (map string_bytes lines.new.items ≡ map string_bytes lines.old.items ++ (string_bytes line ∷ [])) }
{
    lines.push(line)?;
    Ok(())
}

/// Adds the notes that the declared counts are not the counted ones, each where it is due.
fn push_count_notes(
    alloc: Global,
    lines: &mut Vec<String>,
    election: &Election,
) -> Result<(), AllocError>
    ensures { OnOk result (map string_bytes lines.new.items ≡ map string_bytes lines.old.items ++ spec.count_notes election.now) }
{
    push_count_note(
        alloc,
        lines,
        "num_projects",
        election.declared_projects(),
        election.projects(),
    )?;
    push_count_note(
        alloc,
        lines,
        "num_votes",
        election.declared_votes(),
        election.voters(),
    )
}

/// Adds the note that a declared count is not the counted one, where it is due.
fn push_count_note(
    alloc: Global,
    lines: &mut Vec<String>,
    key: &str,
    declared: Option<u64>,
    counted: u32,
) -> Result<(), AllocError>
    ensures { OnOk result (map string_bytes lines.new.items ≡ map string_bytes lines.old.items ++ spec.count_note key.now declared counted) }
{
    match declared {
        Some(said) if said != u64::from(counted) => {
            push_whole(lines, count_words(alloc, key, said, counted)?)
        }
        _ => Ok(()),
    }
}

fn count_words(alloc: Global, key: &str, said: u64, counted: u32) -> Result<String, AllocError>
    ensures { IfOk result (λ line. string_bytes line ≡ spec.count_words key.now said counted) }
{
    format!(in alloc; "note: {key} says {said}, counted {counted}")
}

/// Adds the note that some fields of the column `selected` are neither 0 nor 1, where it is due.
fn push_selected_note(alloc: Global, lines: &mut Vec<String>, count: u32) -> Result<(), AllocError>
    ensures { OnOk result (map string_bytes lines.new.items ≡ map string_bytes lines.old.items ++ spec.selected_note count) }
{
    if count == 0 {
        return Ok(());
    }
    push_whole(lines, selected_words(alloc, count)?)
}

fn selected_words(alloc: Global, count: u32) -> Result<String, AllocError>
    ensures { IfOk result (λ line. string_bytes line ≡ spec.selected_words count) }
{
    format!(in alloc; "note: selected is neither 0 nor 1 in {count} projects")
}

/// Adds a note on each column of VOTES that weighs votes, since none of them is used.
fn push_column_notes(
    alloc: Global,
    lines: &mut Vec<String>,
    unused: UnusedColumns,
) -> Result<(), AllocError>
    ensures { OnOk result (map string_bytes lines.new.items ≡ map string_bytes lines.old.items ++ spec.column_notes unused) }
{
    push_column_note(alloc, lines, "weight", unused.weight)?;
    push_column_note(alloc, lines, "points", unused.points)?;
    push_column_note(alloc, lines, "sign", unused.sign)
}

/// Adds the note that a column is not used, where the file has it.
fn push_column_note(
    alloc: Global,
    lines: &mut Vec<String>,
    name: &str,
    has: bool,
) -> Result<(), AllocError>
    ensures { OnOk result (map string_bytes lines.new.items ≡ map string_bytes lines.old.items ++ spec.column_note name.now has) }
{
    if !has {
        return Ok(());
    }
    push_whole(lines, column_words(alloc, name)?)
}

fn column_words(alloc: Global, name: &str) -> Result<String, AllocError>
    ensures { IfOk result (λ line. string_bytes line ≡ spec.column_words name.now) }
{
    format!(in alloc; "note: column {name} of VOTES is not used")
}

/// The line of a refusal.
pub(crate) fn refusal_line(alloc: Global, refusal: &InputRefusal) -> Result<String, AllocError>
    ensures { IfOk result (λ line. string_bytes line ≡ spec.refusal_line refusal.now) }
{
    let InputRefusal { input, fault } = refusal;
    let (number, fault_name, record_number) = (fault.number(), fault.name(), fault.record_number());
    format!(in alloc;
        "refused {} {number} {fault_name} record {record_number}",
        input.name()
    )
}
