//! Prices.
ghost use Rattle.std.specs.Prelude.{◌≡◌};
ghost use Rattle.pb_election.specs.Instance.{Instance, projects};
ghost use Rattle.pb_price.specs.Condition.{FindingsNameProjects};

use super::common::{expect_text, hostile_decided};
use pb_election::DecidedElection;
use pb_json::prices_json;
use pb_price::{
    Comparison, Failure, Finding, Findings, Mode, NearestGroup, PaymentFinding, Verdict,
};
use serde_json::Value;
use std::alloc::Global;
use std::test::Fail;

/// Where a condition holds, and compares no sums.
const HOLDS: Finding = Finding {
    first: None,
    count: 0,
    shown: None,
};

/// Each voter has 4. Two payments are for projects that aren't approved, one voter spends 5, and 5 is paid for the
/// funded project. The supporters of the unfunded one have 1 less than nothing, and can offer 9.
const FOUND: Findings = Findings {
    grains_per_unit: 2_000_000,
    total: 12_000_000,
    limit: 20_000_000,
    voter_budget: 8_000_000,
    budgets: 24_000_000,
    exhaustive: Finding {
        first: None,
        count: 0,
        shown: Some(Comparison {
            at: 2,
            bound: 18_000_000,
            amount: 8_000_000,
        }),
    },
    c1: PaymentFinding {
        first: Some((3, 1)),
        count: 2,
    },
    c2: Finding {
        first: Some(2),
        count: 1,
        shown: Some(Comparison {
            at: 2,
            bound: 8_000_000,
            amount: 10_000_000,
        }),
    },
    c3: Finding {
        first: Some(1),
        count: 1,
        shown: Some(Comparison {
            at: 1,
            bound: 12_000_000,
            amount: 10_000_000,
        }),
    },
    c4: HOLDS,
    c5: Finding {
        first: None,
        count: 0,
        shown: Some(Comparison {
            at: 2,
            bound: 18_000_000,
            amount: -2_000_000,
        }),
    },
    s5: Finding {
        first: None,
        count: 0,
        shown: Some(Comparison {
            at: 2,
            bound: 18_000_000,
            amount: 18_000_000,
        }),
    },
};

const OBJECT: &str = "{\"answer\":\"no\",\"budgets\":\"24000000\",\"conditions\":[\
    {\"asked\":true,\"culprits\":0,\"first\":null,\"holds\":true,\"name\":\"Feasible\",\"shown\":\
    {\"amount\":\"12000000\",\"bound\":\"20000000\",\"project\":null,\"voter\":null}},\
    {\"asked\":true,\"culprits\":0,\"first\":null,\"holds\":true,\"name\":\"Exhaustive\",\"shown\":\
    {\"amount\":\"8000000\",\"bound\":\"18000000\",\"project\":@unfunded,\"voter\":null}},\
    {\"asked\":false,\"culprits\":0,\"first\":null,\"holds\":true,\"name\":\"Cover\",\"shown\":\
    {\"amount\":\"24000000\",\"bound\":\"20000000\",\"project\":null,\"voter\":null}},\
    {\"asked\":true,\"culprits\":2,\"first\":{\"project\":@funded,\"voter\":3},\"holds\":false,\"name\":\"C1\",\"shown\":null},\
    {\"asked\":true,\"culprits\":1,\"first\":{\"project\":null,\"voter\":2},\"holds\":false,\"name\":\"C2\",\"shown\":\
    {\"amount\":\"10000000\",\"bound\":\"8000000\",\"project\":null,\"voter\":2}},\
    {\"asked\":true,\"culprits\":1,\"first\":{\"project\":@funded,\"voter\":null},\"holds\":false,\"name\":\"C3\",\"shown\":\
    {\"amount\":\"10000000\",\"bound\":\"12000000\",\"project\":@funded,\"voter\":null}},\
    {\"asked\":true,\"culprits\":0,\"first\":null,\"holds\":true,\"name\":\"C4\",\"shown\":null},\
    {\"asked\":true,\"culprits\":0,\"first\":null,\"holds\":true,\"name\":\"C5\",\"shown\":\
    {\"amount\":\"-2000000\",\"bound\":\"18000000\",\"project\":@unfunded,\"voter\":null}},\
    {\"asked\":false,\"culprits\":0,\"first\":null,\"holds\":true,\"name\":\"S5\",\"shown\":\
    {\"amount\":\"18000000\",\"bound\":\"18000000\",\"project\":@unfunded,\"voter\":null}}],\
    \"election\":@election,\"failed\":{\"name\":\"C1\",\"project\":@funded,\"voter\":3},\"grains_per_unit\":2000000,\
    \"groups\":null,\"kind\":\"prices\",\"limit\":\"20000000\",\
    \"mode\":{\"cover\":false,\"exhaustive\":true,\"stable\":false},\"nearest\":null,\"outcome\":@outcome,\
    \"total\":\"12000000\",\
    \"version\":1,\"voter_budget\":\"8000000\"}";

/// The object on an election of two projects, after a no.
fn failed_object(alloc: Global, decided: &DecidedElection) -> Result<Value, Fail>
    requires { projects (decided.now).election ≡ 2 }
{
    let verdict = Verdict::Failed(Failure::C1(3, 1));
    Ok(prices_json(alloc, Mode::PLAIN, decided, verdict, &FOUND, None)?)
}

#[test]
fn prices_are_told(rt: HostRuntime) -> Result<(), Fail> {
    let decided = hostile_decided(rt.alloc())?;
    assert_eq!(rt; decided.election().projects(), 2);
    let object = failed_object(rt.alloc(), &decided)?;
    expect_text(&rt, rt.alloc(), &object, OBJECT)
}

/// Nothing is false, where the budgets come to so much.
fn supported(budgets: u128) -> Findings
    ensures { (e : Instance) → FindingsNameProjects e result }
{
    Findings {
        budgets,
        exhaustive: HOLDS,
        c1: PaymentFinding {
            first: None,
            count: 0,
        },
        c2: HOLDS,
        c3: HOLDS,
        c5: HOLDS,
        s5: HOLDS,
        ..FOUND
    }
}

/// What a yes says of groups goes by the budgets, and where these are the limit by whether Exhaustive was asked for.
#[test]
fn yes_says_what_of_groups(rt: HostRuntime) -> Result<(), Fail> {
    let decided = hostile_decided(rt.alloc())?;
    let unasked = Mode {
        exhaustive: false,
        ..Mode::STABLE
    };
    for (mode, budgets, want) in [
        (Mode::PLAIN, 20_000_001, "\"groups\":\"strict\""),
        (Mode::STABLE, 20_000_000, "\"groups\":\"strict\""),
        (unasked, 20_000_000, "\"groups\":\"weak\""),
        (Mode::PLAIN, 19_999_999, "\"groups\":\"little\""),
    ] {
        let findings = supported(budgets);
        let object = prices_json(
            rt.alloc(),
            mode,
            &decided,
            Verdict::Supported,
            &findings,
            None,
        )?;
        let text = object.to_string(rt.alloc())?;
        assert!(rt; text.as_str().contains(want), "{text}");
    }
    Ok(())
}

/// The limit is 10, and there are three voters.
#[test]
fn group_that_comes_nearest_is_told(rt: HostRuntime) -> Result<(), Fail> {
    let decided = hostile_decided(rt.alloc())?;
    assert_eq!(rt; decided.election().projects(), 2);
    let nearest = NearestGroup {
        project: 2,
        supporters: 2,
        funded_for: 6_000_000,
    };
    let object = nearest_object(rt.alloc(), &decided, nearest)?;
    let text = object.to_string(rt.alloc())?;
    let want =
        "\"nearest\":{\"cost\":\"9000000\",\"funded_for\":\"6000000\",\"number\":2,\"project\":\"{}\u{202e}$(c)`\u{1f5f3}\",\
        \"share\":{\"denominator\":3,\"numerator\":\"20000000\"},\"supporters\":2}";
    assert!(rt; text.as_str().contains(want), "{text}");
    Ok(())
}

/// The object on a yes for an election of two projects, with this group.
fn nearest_object(
    alloc: Global,
    decided: &DecidedElection,
    nearest: NearestGroup,
) -> Result<Value, Fail>
    requires election { projects (decided.now).election ≡ 2 }
    requires nearest { nearest.project ≡ 2 }
{
    let findings = supported(24_000_000);
    let yes = Verdict::Supported;
    Ok(prices_json(alloc, Mode::PLAIN, decided, yes, &findings, Some(nearest))?)
}
