//! The report on a folder.
use super::common::expect_text;
use pb_json::{entry_json, total_json};
use serde_json::{Value, json};
use std::test::Fail;

#[test]
fn an_entry_has_the_answers_on_its_files(rt: HostRuntime) -> Result<(), Fail> {
    let alloc = rt.alloc();
    let election = json!(in alloc; {"a": 1u32})?;
    let violation = json!(in alloc; {"b": 2u32})?;
    let object = entry_json(alloc, "x\"y", election, Value::Null, violation)?;
    let want = "{\"election\":{\"a\":1},\"kind\":\"entry\",\"name\":\"x\\\"y\",\"prices\":null,\
        \"version\":1,\"violation\":{\"b\":2}}";
    expect_text(&rt, alloc, &object, want)
}

#[test]
fn a_total_has_its_counts(rt: HostRuntime) -> Result<(), Fail> {
    let alloc = rt.alloc();
    let object = total_json(alloc, 4, 3, 2, 1)?;
    let want =
        "{\"elections\":4,\"kind\":\"total\",\"no\":2,\"refused\":1,\"version\":1,\"yes\":3}";
    expect_text(&rt, alloc, &object, want)
}
