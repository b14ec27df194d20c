//! An election whose projects have names that mean something in JSON, HTML and at a terminal.
use pb_election::{DecidedElection, Election, Outcome};
use pb_samples::files::town;
use serde_json::Value;
use std::alloc::Global;
use std::process::Abort;
use std::test::Fail;

/// The id of the funded project, which costs 6, and how it stands in an object.
const FUNDED: (&str, &str) = ("a\"\\<b>&'é", "\"a\\\"\\\\<b>&'é\"");

/// The id of the unfunded project, which costs 9, and how it stands in an object.
const UNFUNDED: (&str, &str) = ("{}\u{202e}$(c)`\u{1f5f3}", "\"{}\u{202e}$(c)`\u{1f5f3}\"");

/// What objects say of the election and of its outcome.
const OBJECTS: [(&str, &str); 2] = [
    (
        "@election",
        "{\"declared_projects\":null,\"declared_voters\":null,\"funded\":1,\"limit\":\"10000000\",\
         \"other_selected\":0,\"projects\":2,\"unused_columns\":[],\"voters\":3}",
    ),
    ("@outcome", "{\"cost\":\"6000000\",\"funded\":1}"),
];

/// The election: three voters and a limit of 10.
pub fn hostile_election(alloc: Global) -> Result<Election, Fail> {
    let projects = format!(in alloc; "{};6;1 {};9;0", FUNDED.0, UNFUNDED.0)?;
    let ballots = format!(in alloc; "{},{} {} -", FUNDED.0, UNFUNDED.0, UNFUNDED.0)?;
    let text = town(alloc, "10", &projects, &ballots)?;
    Ok(Election::read(alloc, text.as_bytes())?)
}

/// The same with the outcome that it states.
pub fn hostile_decided(alloc: Global) -> Result<DecidedElection, Fail> {
    let election = hostile_election(alloc)?;
    let outcome = Outcome::selected(alloc, &election)?;
    Ok(DecidedElection::new(election, outcome))
}

/// A value is to have this text, in which `@election` and `@outcome` stand for what objects say of these, and `@funded`
/// and `@unfunded` for the two projects.
pub fn expect_text(
    rt: &impl Abort,
    alloc: Global,
    value: &Value,
    template: &str,
) -> Result<(), Fail> {
    let mut want = String::from_str(alloc, template)?;
    for (name, text) in OBJECTS {
        want = want.replace(alloc, name, text)?;
    }
    want = want.replace(alloc, "@funded", FUNDED.1)?;
    want = want.replace(alloc, "@unfunded", UNFUNDED.1)?;
    let got = value.to_string(alloc)?;
    assert!(rt; got.as_str() == want.as_str(), "{got}");
    Ok(())
}
