//! Violation certificates.
ghost use Rattle.std.specs.Prelude.{◌≡◌};
ghost use Rattle.pb_election.specs.Instance.{projects};

use super::common::{expect_text, hostile_decided};
use pb_certificate::Measure;
use pb_cohesion::{
    MissingApprovals, SatisfiedMembers, ViolationFailure, ViolationFindings, ViolationVerdict,
};
use pb_election::DecidedElection;
use pb_json::violation_json;
use serde_json::Value;
use std::alloc::Global;
use std::test::Fail;

/// Two of three voters, who demand the unfunded project for 9 with a share of 6 2/3. Both don't approve it, and one gets
/// as much.
const NONE: ViolationFindings = ViolationFindings {
    members: 2,
    cost: 9_000_000,
    unapproved: MissingApprovals {
        first: Some((1, 2)),
        count: 2,
    },
    demanded: 9_000_000,
    satisfied: SatisfiedMembers {
        first: Some(3),
        count: 1,
    },
    gets: 9_000_001,
};

const NONE_OBJECT: &str = "{\"answer\":\"no\",\"election\":@election,\
    \"failed\":{\"name\":\"V2\",\"project\":@unfunded,\"voter\":1},\"kind\":\"violation\",\"measure\":\"cost\",\
    \"outcome\":@outcome,\"tests\":[{\"holds\":true,\"members\":2,\"name\":\"V1\"},\
    {\"culprits\":2,\"first\":{\"project\":@unfunded,\"voter\":1},\"holds\":false,\"name\":\"V2\"},\
    {\"cost\":\"9000000\",\"holds\":false,\"name\":\"V3\",\"share\":{\"denominator\":3,\"numerator\":\"20000000\"}},\
    {\"culprits\":1,\"demanded\":\"9000000\",\"first\":{\"voter\":3},\"gets\":\"9000001\",\"holds\":false,\"name\":\"V4\"}],\
    \"version\":1}";

/// All three voters, who demand it with all of the limit, and get nothing.
const FOUND: ViolationFindings = ViolationFindings {
    members: 3,
    cost: 10_000_000,
    unapproved: MissingApprovals {
        first: None,
        count: 0,
    },
    demanded: 1,
    satisfied: SatisfiedMembers {
        first: None,
        count: 0,
    },
    gets: 0,
};

const FOUND_OBJECT: &str =
    "{\"answer\":\"yes\",\"election\":@election,\"failed\":null,\"kind\":\"violation\",\
    \"measure\":\"count\",\"outcome\":@outcome,\"tests\":[{\"holds\":true,\"members\":3,\"name\":\"V1\"},\
    {\"culprits\":0,\"first\":null,\"holds\":true,\"name\":\"V2\"},\
    {\"cost\":\"10000000\",\"holds\":true,\"name\":\"V3\",\"share\":{\"denominator\":3,\"numerator\":\"30000000\"}},\
    {\"culprits\":0,\"demanded\":\"1\",\"first\":null,\"gets\":\"0\",\"holds\":true,\"name\":\"V4\"}],\"version\":1}";

/// The object on an election of two projects.
fn object_of(alloc: Global, decided: &DecidedElection, is_found: bool) -> Result<Value, Fail>
    requires { projects (decided.now).election ≡ 2 }
{
    Ok(if is_found {
        let verdict = ViolationVerdict::Violation;
        violation_json(alloc, Measure::ByCount, decided, verdict, &FOUND)?
    } else {
        let verdict = ViolationVerdict::Failed(ViolationFailure::V2(1, 2));
        violation_json(alloc, Measure::ByCost, decided, verdict, &NONE)?
    })
}

#[test]
fn violations_are_told(rt: HostRuntime) -> Result<(), Fail> {
    let decided = hostile_decided(rt.alloc())?;
    assert_eq!(rt; decided.election().projects(), 2);
    for (is_found, want) in [(true, FOUND_OBJECT), (false, NONE_OBJECT)] {
        let object = object_of(rt.alloc(), &decided, is_found)?;
        expect_text(&rt, rt.alloc(), &object, want)?;
    }
    Ok(())
}
