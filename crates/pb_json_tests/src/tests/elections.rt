//! Elections, outcomes, refusals, two answers together, and texts.
use super::common::{expect_text, hostile_decided, hostile_election};
use pb_certificate::{CertFault, CertRefusal};
use pb_election::{Election, ElectionFault, Refusal};
use pb_input::{InputFault, InputName, InputRefusal};
use pb_json::{both_json, election_json, json_text, outcome_json, read_json, refusal_json};
use serde_json::{Value, json};
use std::test::Fail;

/// An election whose file declares counts that aren't those of its rows, and has columns that aren't used.
const ODD: &str = "\
META
key;value
num_projects;many
num_votes;7
budget;0.5
vote_type;approval
PROJECTS
project_id;cost;selected
x;0.5;2
y;0;1
VOTES
voter_id;vote;sign;weight
1;x;1;3
";

const ODD_OBJECT: &str =
    "{\"declared_projects\":null,\"declared_voters\":7,\"funded\":1,\"limit\":\"500000\",\
    \"other_selected\":1,\"projects\":2,\"unused_columns\":[\"weight\",\"sign\"],\"voters\":1}";

#[test]
fn election_is_told(rt: HostRuntime) -> Result<(), Fail> {
    let election = hostile_election(rt.alloc())?;
    let object = election_json(rt.alloc(), &election)?;
    expect_text(&rt, rt.alloc(), &object, "@election")?;
    let election = Election::read(rt.alloc(), ODD.as_bytes())?;
    let object = election_json(rt.alloc(), &election)?;
    expect_text(&rt, rt.alloc(), &object, ODD_OBJECT)
}

#[test]
fn election_that_was_read_is_told(rt: HostRuntime) -> Result<(), Fail> {
    let election = hostile_election(rt.alloc())?;
    let object = read_json(rt.alloc(), &election)?;
    let want = "{\"answer\":\"yes\",\"election\":@election,\"kind\":\"election\",\"version\":1}";
    expect_text(&rt, rt.alloc(), &object, want)
}

#[test]
fn outcome_is_told(rt: HostRuntime) -> Result<(), Fail> {
    let decided = hostile_decided(rt.alloc())?;
    let object = outcome_json(rt.alloc(), &decided)?;
    expect_text(&rt, rt.alloc(), &object, "@outcome")
}

#[test]
fn refusals_are_told(rt: HostRuntime) -> Result<(), Fail> {
    let election = InputFault::Election(Refusal {
        fault: ElectionFault::NoOutcome,
        record_number: 0,
    });
    let certificate = InputFault::Certificate(CertRefusal {
        fault: CertFault::BadHead,
        record_number: 1,
    });
    for (input, fault, name, text) in [
        (
            InputName::Election,
            election,
            "election",
            "\"NoOutcome\",\"number\":17,\"record\":0",
        ),
        (
            InputName::Prices,
            certificate,
            "prices",
            "\"BadHead\",\"number\":21,\"record\":1",
        ),
        (
            InputName::Outcome,
            InputFault::Unread,
            "outcome",
            "\"Read\",\"number\":18,\"record\":0",
        ),
    ] {
        let object = refusal_json(rt.alloc(), &InputRefusal { input, fault })?;
        let want = format!(in rt.alloc();
            "{{\"answer\":\"refused\",\"input\":\"{name}\",\"kind\":\"refusal\",\"name\":{text},\"version\":1}}"
        )?;
        expect_text(&rt, rt.alloc(), &object, &want)?;
    }
    Ok(())
}

#[test]
fn both_answers_stand_in_one(rt: HostRuntime) -> Result<(), Fail> {
    for (is_yes, word) in [(true, "yes"), (false, "no")] {
        let prices = json!(in rt.alloc(); {"a": 1u32})?;
        let object = both_json(rt.alloc(), is_yes, prices, Value::Null)?;
        let want = format!(in rt.alloc();
            "{{\"answer\":\"{word}\",\"kind\":\"both\",\"prices\":{{\"a\":1}},\"version\":1,\"violation\":null}}"
        )?;
        expect_text(&rt, rt.alloc(), &object, &want)?;
    }
    Ok(())
}

#[test]
fn text_is_one_line_without_its_end(rt: HostRuntime) -> Result<(), Fail> {
    let value = Value::try_from_str(rt.alloc(), "a\n\"\u{7f}\u{2028}")?;
    let text = json_text(rt.alloc(), &value)?;
    assert!(rt; text.as_str() == "\"a\\n\\\"\u{7f}\u{2028}\"", "{text}");
    Ok(())
}
