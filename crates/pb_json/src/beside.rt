//! What stands beside an answer: the notes on it, why an input is refused, and what a person is told of that.
ghost use Rattle.std.specs.Prelude.{◌≡◌, IfOk, map, string_bytes};
ghost use Rattle.serde_json.specs.View.{view};
ghost use Rattle.pb_json.specs.Beside as spec;

use crate::answers::refusal_json;
use crate::members::{count_or_null, push_value};
use pb_input::InputRefusal;
use serde_json::{Value, json};
use std::alloc::{AllocError, Global};

/// What stands beside an answer: notes; the refusal, where an input is refused; and what a person is told of it,
/// sentences, and the line of the file on which the refused record begins, from 1, where there is one. An error means out
/// of memory.
pub fn beside_json(
    alloc: Global,
    notes: &[String],
    refusal: Option<InputRefusal>,
    line: Option<u64>,
    sentences: &[String],
) -> Result<Value, AllocError>
    ensures { IfOk result (λ v. view v ≡ spec.beside_json (map string_bytes notes.now) refusal line (map string_bytes sentences.now)) }
{
    json!(in alloc; {
        "hint": hint_json(alloc, line, sentences)?,
        "notes": texts_json(alloc, notes)?,
        "refusal": refusal_or_null(alloc, refusal)?,
    })
}

/// What a person is told, or null where that is nothing.
fn hint_json(alloc: Global, line: Option<u64>, sentences: &[String]) -> Result<Value, AllocError>
    ensures { IfOk result (λ v. view v ≡ spec.hint_json line (map string_bytes sentences.now)) }
{
    if sentences.is_empty() {
        return Ok(Value::Null);
    }
    json!(in alloc; {
        "line": count_or_null(line),
        "sentences": texts_json(alloc, sentences)?,
    })
}

fn refusal_or_null(alloc: Global, refusal: Option<InputRefusal>) -> Result<Value, AllocError>
    ensures { IfOk result (λ v. view v ≡ spec.refusal_or_null refusal) }
{
    match refusal {
        Some(refusal) => refusal_json(alloc, &refusal),
        None => Ok(Value::Null),
    }
}

/// A list of texts.
fn texts_json(alloc: Global, texts: &[String]) -> Result<Value, AllocError>
    ensures { IfOk result (λ v. view v ≡ spec.texts_json (map string_bytes texts.now)) }
{
    let mut list = Vec::new(alloc);
    for text in texts {
        push_value(&mut list, Value::try_from_str(alloc, text)?)?;
    }
    Ok(Value::Array(list))
}
