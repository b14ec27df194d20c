//! What stands in the members of an object.
ghost use Rattle.std.specs.Prelude.{◌≡◌, ◌∷◌, ◌++◌, [], IfOk, OnOk, map, option_map};
ghost use Rattle.serde_json.specs.View.{view};
ghost use Rattle.pb_json.specs.Members as spec;

use serde_json::Value;
use std::alloc::{AllocError, Global};

/// The digits of an amount.
pub(crate) fn amount(alloc: Global, n: u128) -> Result<Value, AllocError>
    ensures { IfOk result (λ v. view v ≡ spec.amount n) }
{
    Ok(Value::String(format!(in alloc; "{n}")?))
}

/// The digits of an amount, or null where there is none.
pub(crate) fn amount_or_null(alloc: Global, n: Option<u128>) -> Result<Value, AllocError>
    ensures { IfOk result (λ v. view v ≡ spec.or_null spec.amount n) }
{
    match n {
        Some(n) => amount(alloc, n),
        None => Ok(Value::Null),
    }
}

/// The digits of an amount, with a sign where it is negative.
pub(crate) fn balance(alloc: Global, z: i128) -> Result<Value, AllocError>
    ensures { IfOk result (λ v. view v ≡ spec.balance z) }
{
    Ok(Value::String(format!(in alloc; "{z}")?))
}

/// A number, or null where there is none.
pub(crate) fn count_or_null(n: Option<u64>) -> Value
    ensures { view result ≡ spec.or_null spec.count n }
{
    match n {
        Some(n) => Value::from(n),
        None => Value::Null,
    }
}

/// A text, or null where there is none.
pub(crate) fn text_or_null(alloc: Global, text: Option<&str>) -> Result<Value, AllocError>
    ensures { IfOk result (λ v. view v ≡ spec.or_null spec.text (option_map (λ s. s.now) text.entry)) }
{
    match text {
        Some(text) => Value::try_from_str(alloc, text),
        None => Ok(Value::Null),
    }
}

/// The word for an answer.
pub(crate) fn answer(is_yes: bool) -> &'static str
    ensures { result.now ≡ spec.answer is_yes }
{
    if is_yes { "yes" } else { "no" }
}

/// Adds a value to a list of values.
pub(crate) fn push_value(list: &mut Vec<Value>, value: Value) -> Result<(), AllocError>
    ensures { OnOk result (map view list.new.items ≡ map view list.old.items ++ (view value ∷ [])) }
{
    list.push(value)?;
    Ok(())
}
