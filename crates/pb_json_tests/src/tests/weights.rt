//! Refutations.
ghost use Rattle.std.specs.Prelude.{◌≡◌};
ghost use Rattle.pb_election.specs.Instance.{projects};
ghost use Rattle.pb_cohesion.specs.Failed.{RefutationNamesProject};

use super::common::{expect_text, hostile_decided};
use pb_cohesion::{MisplacedRows, RefutationFailure, RefutationFindings, RefutationVerdict};
use pb_election::DecidedElection;
use pb_json::refutation_json;
use serde_json::Value;
use std::alloc::Global;
use std::process::Abort;
use std::test::Fail;

/// One row is misplaced. Budgets are counted 5 times, which is too often, but 4 times for stable prices.
const MISPLACED: RefutationFindings = RefutationFindings {
    misplaced: MisplacedRows {
        first: Some(1),
        count: 2,
    },
    cover: 3,
    counted: 5,
    counted_stable: Some(4),
    taken: 4,
    at_least: 30_000_000,
    at_most: 30_000_000,
};

const MISPLACED_OBJECT: &str = "{\"answer\":\"no\",\"election\":@election,\
    \"failed\":{\"name\":\"U1\",\"project\":@funded,\"voter\":null},\"kind\":\"refutation\",\"outcome\":@outcome,\
    \"proves\":null,\"stable\":true,\"tests\":[{\"culprits\":2,\"first\":{\"project\":@funded},\"holds\":false,\"name\":\"U1\"},\
    {\"counted\":\"5\",\"counted_stable\":\"4\",\"holds\":true,\"name\":\"U2\",\"taken\":\"4\"},\
    {\"at_least\":\"30000000\",\"at_most\":\"30000000\",\"cover\":3,\"holds\":true,\"name\":\"U3\"}],\"version\":1}";

/// Without stable prices, and without Cover.
const COUNTED: RefutationFindings = RefutationFindings {
    misplaced: MisplacedRows {
        first: None,
        count: 0,
    },
    cover: 0,
    counted_stable: None,
    ..MISPLACED
};

const COUNTED_OBJECT: &str = "{\"answer\":\"no\",\"election\":@election,\
    \"failed\":{\"name\":\"U2\",\"project\":null,\"voter\":null},\"kind\":\"refutation\",\"outcome\":@outcome,\
    \"proves\":null,\"stable\":false,\"tests\":[{\"culprits\":0,\"first\":null,\"holds\":true,\"name\":\"U1\"},\
    {\"counted\":\"5\",\"counted_stable\":null,\"holds\":false,\"name\":\"U2\",\"taken\":\"4\"},\
    {\"at_least\":\"30000000\",\"at_most\":\"30000000\",\"cover\":0,\"holds\":false,\"name\":\"U3\"}],\"version\":1}";

/// The object on an election of two projects.
fn object_of(alloc: Global, decided: &DecidedElection, misplaced: bool) -> Result<Value, Fail>
    requires { projects (decided.now).election ≡ 2 }
{
    Ok(if misplaced {
        let verdict = RefutationVerdict::Failed(RefutationFailure::U1(1));
        refutation_json(alloc, decided, verdict, &MISPLACED)?
    } else {
        let verdict = RefutationVerdict::Failed(RefutationFailure::U2);
        refutation_json(alloc, decided, verdict, &COUNTED)?
    })
}

#[test]
fn refutations_are_told(rt: HostRuntime) -> Result<(), Fail> {
    let decided = hostile_decided(rt.alloc())?;
    assert_eq!(rt; decided.election().projects(), 2);
    for (misplaced, want) in [(true, MISPLACED_OBJECT), (false, COUNTED_OBJECT)] {
        let object = object_of(rt.alloc(), &decided, misplaced)?;
        expect_text(&rt, rt.alloc(), &object, want)?;
    }
    Ok(())
}

/// The verdicts that prove something, of any election.
fn proving(_decided: &DecidedElection, which: u32) -> RefutationVerdict
    ensures { RefutationNamesProject (_decided.now).election result }
{
    match which {
        0 => RefutationVerdict::Unpriceable,
        1 => RefutationVerdict::UnpriceableUnderCover,
        2 => RefutationVerdict::UnpriceableStable,
        _ => RefutationVerdict::UnpriceableStableUnderCover,
    }
}

/// The object after one of these, and its text but for these words, by the one after a no.
fn expect_proved(rt: &impl Abort, alloc: Global, which: u32, words: &str) -> Result<(), Fail> {
    let decided = hostile_decided(alloc)?;
    let verdict = proving(&decided, which);
    let object = refutation_json(alloc, &decided, verdict, &COUNTED)?;
    let failed = "\"failed\":{\"name\":\"U2\",\"project\":null,\"voter\":null}";
    let proves = format!(in alloc; "\"proves\":\"{words}\"")?;
    let want = COUNTED_OBJECT.replace(alloc, "\"answer\":\"no\"", "\"answer\":\"yes\"")?;
    let want = want.replace(alloc, failed, "\"failed\":null")?;
    let want = want.replace(alloc, "\"proves\":null", &proves)?;
    expect_text(rt, alloc, &object, &want)
}

/// What is proved is told by these words, and a yes is answered.
#[test]
fn verdicts_are_told(rt: HostRuntime) -> Result<(), Fail> {
    for (which, words) in [
        (0, "unpriceable"),
        (1, "unpriceable cover"),
        (2, "unpriceable stable"),
        (3, "unpriceable stable cover"),
    ] {
        expect_proved(&rt, rt.alloc(), which, words)?;
    }
    Ok(())
}
