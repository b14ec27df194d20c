//! Values as texts.
ghost use Rattle.std.specs.Prelude.{◌≡◌, IfOk, string_bytes};
ghost use Rattle.serde_json.specs.Read.{max_depth};
ghost use Rattle.serde_json.specs.View.{view};
ghost use Rattle.serde_json.specs.Written.{compact_text};
ghost use Rattle.pb_json.specs.Texts.{IsJson, IsPlain, ReadsAs, most_nested};

use serde_json::Value;
use std::alloc::{AllocError, Global};
use std::marker::Model;

/// A value that can be written as a text, also where it stands in another: it has no number with a fraction, and nests
/// no deeper than 100. Contracts see it as its text.
#[derive(Drop)]
pub struct Object {
    value: Value,
}

impl Model for Object {
    ghost use Rattle.serde_json.specs.View as of_value;
    ghost use Rattle.serde_json.specs.Written.{compact_text};
    ghost use Rattle.pb_json.specs.Texts.{IsPlain, most_nested};
    ghost use Rattle.pb_records.specs.Records.{Text};

    ghost Value = { Text };

    ghost view = { λ object. compact_text (of_value.view object.value) };

    ghost invariant = { λ object. IsPlain most_nested (of_value.view object.value) };
}

impl Object {
    /// The object that is this value.
    pub fn new(value: Value) -> Object
        requires { IsPlain most_nested (view value) }
        ensures { result ≡ compact_text (view value) }
    {
        Object { value }
    }

    /// Its value.
    pub fn into_value(self) -> Value
        ensures value { compact_text (view result) ≡ self }
        ensures plain { IsPlain most_nested (view result) }
    {
        self.value
    }

    /// Its text, in one line without its end. An error means out of memory.
    pub fn text(&self, alloc: Global) -> Result<String, AllocError>
        ensures text { IfOk result (λ text. string_bytes text ≡ self.now) }
        ensures json { IfOk result (λ text. IsJson (string_bytes text)) }
    {
        json_text(alloc, &self.value)
    }
}

/// The text of a value, in one line without its end. Whatever its texts have in them, it is one value in JSON, which reads
/// as this one. The value is to have no number with a fraction, and to nest no deeper than 127, as all that this crate
/// makes. An error means out of memory.
pub fn json_text(alloc: Global, value: &Value) -> Result<String, AllocError>
    requires { IsPlain max_depth (view value.now) }
    ensures text { IfOk result (λ text. string_bytes text ≡ compact_text (view value.now)) }
    ensures reads_back { IfOk result (λ text. ReadsAs (string_bytes text) (view value.now)) }
{
    Ok(value.to_string(alloc)?)
}
