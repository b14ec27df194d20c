//! The report on a folder: an object for each entry, and one for the total.
ghost use Rattle.std.specs.Prelude.{◌≡◌, IfOk};
ghost use Rattle.serde_json.specs.View.{view};
ghost use Rattle.pb_json.specs.Folders as spec;

use serde_json::{Value, json};
use std::alloc::{AllocError, Global};

/// The answers on the files of one name: on its election, and on its certificates, each null where it is not audited. An
/// error means out of memory.
pub fn entry_json(
    alloc: Global,
    name: &str,
    election: Value,
    prices: Value,
    violation: Value,
) -> Result<Value, AllocError>
    ensures { IfOk result (λ v. view v ≡ spec.entry_json name.now (view election) (view prices) (view violation)) }
{
    json!(in alloc; {
        "election": election,
        "kind": "entry",
        "name": name,
        "prices": prices,
        "version": 1u32,
        "violation": violation,
    })
}

/// How many elections there are, how many certificates are answered yes and no, and how many files are refused. An error
/// means out of memory.
pub fn total_json(
    alloc: Global,
    elections: usize,
    yeses: usize,
    noes: usize,
    refused: usize,
) -> Result<Value, AllocError>
    ensures { IfOk result (λ v. view v ≡ spec.total_json elections yeses noes refused) }
{
    json!(in alloc; {
        "elections": elections as u64,
        "kind": "total",
        "no": noes as u64,
        "refused": refused as u64,
        "version": 1u32,
        "yes": yeses as u64,
    })
}
