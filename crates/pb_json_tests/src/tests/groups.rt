//! Groups that fall short.
ghost use Rattle.std.specs.Prelude.{◌≡◌};
ghost use Rattle.pb_election.specs.Instance.{projects};

use super::common::{expect_text, hostile_decided};
use pb_certificate::Measure;
use pb_cohesion::GroupFigures;
use pb_election::DecidedElection;
use pb_json::groups_json;
use serde_json::Value;
use std::alloc::Global;
use std::test::Fail;

/// One of three voters, who needs 9, and has a share of 3 1/3.
const CLOSEST: GroupFigures = GroupFigures {
    project: 2,
    supporters: 2,
    voters: 1,
    most: 0,
    need: 9_000_000,
    falls_short: false,
};

const CLOSEST_OBJECT: &str = "{\"answer\":\"yes\",\"election\":@election,\"failed\":null,\"group\":\
    {\"cost\":\"9000000\",\"missing\":{\"denominator\":3,\"numerator\":\"17000000\"},\"most\":\"0\",\
    \"need\":\"9000000\",\"number\":2,\"project\":@unfunded,\"share\":{\"denominator\":3,\"numerator\":\"10000000\"},\
    \"supporters\":2,\"voters\":1},\"kind\":\"groups\",\"measure\":\"cost\",\"outcome\":@outcome,\"version\":1}";

/// Two of three voters, who need 6.5 and have 6 2/3.
const SHORT: GroupFigures = GroupFigures {
    voters: 2,
    most: 1,
    need: 6_500_000,
    falls_short: true,
    ..CLOSEST
};

const SHORT_OBJECT: &str = "{\"answer\":\"no\",\"election\":@election,\"failed\":\
    {\"name\":\"EJR+\",\"project\":@unfunded,\"voter\":null},\"group\":\
    {\"cost\":\"9000000\",\"missing\":{\"denominator\":3,\"numerator\":\"-500000\"},\"most\":\"1\",\
    \"need\":\"6500000\",\"number\":2,\"project\":@unfunded,\"share\":{\"denominator\":3,\"numerator\":\"20000000\"},\
    \"supporters\":2,\"voters\":2},\"kind\":\"groups\",\"measure\":\"count\",\"outcome\":@outcome,\"version\":1}";

const NO_GROUP_OBJECT: &str =
    "{\"answer\":\"yes\",\"election\":@election,\"failed\":null,\"group\":null,\
    \"kind\":\"groups\",\"measure\":\"cost\",\"outcome\":@outcome,\"version\":1}";

/// The object on an election of two projects, with the figures of none, of the closest, or of one that falls short.
fn object_of(alloc: Global, decided: &DecidedElection, which: u32) -> Result<Value, Fail>
    requires { projects (decided.now).election ≡ 2 }
{
    Ok(match which {
        0 => groups_json(alloc, Measure::ByCost, decided, &[])?,
        1 => groups_json(alloc, Measure::ByCost, decided, &[CLOSEST])?,
        _ => groups_json(alloc, Measure::ByCount, decided, &[CLOSEST, SHORT])?,
    })
}

#[test]
fn groups_are_told(rt: HostRuntime) -> Result<(), Fail> {
    let decided = hostile_decided(rt.alloc())?;
    assert_eq!(rt; decided.election().projects(), 2);
    for (which, want) in [(0, NO_GROUP_OBJECT), (1, CLOSEST_OBJECT), (2, SHORT_OBJECT)] {
        let object = object_of(rt.alloc(), &decided, which)?;
        expect_text(&rt, rt.alloc(), &object, want)?;
    }
    Ok(())
}
