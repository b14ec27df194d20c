//! What stands beside an answer: notes, a refusal, and a hint.
use super::common::expect_text;
use pb_certificate::{CertFault, CertRefusal};
use pb_input::{InputFault, InputName, InputRefusal};
use pb_json::beside_json;
use std::alloc::{AllocError, Global};
use std::test::Fail;

fn texts(alloc: Global, words: &[&str]) -> Result<Vec<String>, AllocError> {
    let mut texts = Vec::new(alloc);
    for word in words {
        texts.push(String::from_str(alloc, word)?)?;
    }
    Ok(texts)
}

#[test]
fn nothing_stands_beside_a_plain_answer(rt: HostRuntime) -> Result<(), Fail> {
    let alloc = rt.alloc();
    let none = texts(alloc, &[])?;
    let object = beside_json(alloc, &none, None, None, &none)?;
    expect_text(
        &rt,
        alloc,
        &object,
        "{\"hint\":null,\"notes\":[],\"refusal\":null}",
    )
}

#[test]
fn notes_stand_beside_an_answer(rt: HostRuntime) -> Result<(), Fail> {
    let alloc = rt.alloc();
    let notes = texts(alloc, &["note: one \"x\"", "note: two"])?;
    let none = texts(alloc, &[])?;
    let object = beside_json(alloc, &notes, None, Some(4), &none)?;
    let want = "{\"hint\":null,\"notes\":[\"note: one \\\"x\\\"\",\"note: two\"],\"refusal\":null}";
    expect_text(&rt, alloc, &object, want)
}

#[test]
fn refusal_and_its_hint_stand_beside_an_answer(rt: HostRuntime) -> Result<(), Fail> {
    let alloc = rt.alloc();
    let none = texts(alloc, &[])?;
    let sentences = texts(alloc, &["there is no voter '9'", "line 2: see there"])?;
    let refusal = InputRefusal {
        input: InputName::Prices,
        fault: InputFault::Certificate(CertRefusal {
            fault: CertFault::UnknownVoter,
            record_number: 5,
        }),
    };
    let object = beside_json(alloc, &none, Some(refusal), Some(6), &sentences)?;
    let want =
        "{\"hint\":{\"line\":6,\"sentences\":[\"there is no voter '9'\",\"line 2: see there\"]},\
        \"notes\":[],\"refusal\":{\"answer\":\"refused\",\"input\":\"prices\",\"kind\":\"refusal\",\
        \"name\":\"UnknownVoter\",\"number\":24,\"record\":5,\"version\":1}}";
    expect_text(&rt, alloc, &object, want)?;
    let object = beside_json(alloc, &none, Some(refusal), None, &sentences)?;
    let unplaced = String::from_str(alloc, want)?.replace(alloc, "\"line\":6", "\"line\":null")?;
    expect_text(&rt, alloc, &object, &unplaced)
}
