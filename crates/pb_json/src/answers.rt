//! The answer on prices beside a violation certificate, and a refusal.
ghost use Rattle.std.specs.Prelude.{◌≡◌, IfOk};
ghost use Rattle.serde_json.specs.View.{view};
ghost use Rattle.pb_json.specs.Answers as spec;

use crate::members::answer;
use pb_input::InputRefusal;
use serde_json::{Value, json};
use std::alloc::{AllocError, Global};

/// The answers on prices and on the violation certificate beside them, and whether the two together are a yes. An error
/// means out of memory.
pub fn both_json(
    alloc: Global,
    is_yes: bool,
    prices: Value,
    violation: Value,
) -> Result<Value, AllocError>
    ensures { IfOk result (λ v. view v ≡ spec.both_json is_yes (view prices) (view violation)) }
{
    json!(in alloc; {
        "answer": answer(is_yes),
        "kind": "both",
        "prices": prices,
        "version": 1u32,
        "violation": violation,
    })
}

/// Which input is refused, and why: the fault by its name and its number, and the record at which it stands, from 1, or
/// 0 where it stands at none. An error means out of memory.
pub fn refusal_json(alloc: Global, refusal: &InputRefusal) -> Result<Value, AllocError>
    ensures { IfOk result (λ v. view v ≡ spec.refusal_json refusal.now) }
{
    json!(in alloc; {
        "answer": "refused",
        "input": refusal.input.name(),
        "kind": "refusal",
        "name": refusal.fault.name(),
        "number": refusal.fault.number(),
        "record": refusal.fault.record_number(),
        "version": 1u32,
    })
}
