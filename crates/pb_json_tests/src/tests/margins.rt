//! Margins of prices, and of groups.
ghost use Rattle.std.specs.Prelude.{◌≡◌};
ghost use Rattle.pb_election.specs.Instance.{projects};

use super::common::{expect_text, hostile_decided};
use pb_certificate::Measure;
use pb_cohesion::GroupFigures;
use pb_election::DecidedElection;
use pb_json::{group_margins_json, margins_json};
use pb_price::{Margins, ProjectMargins};
use serde_json::Value;
use std::alloc::Global;
use std::process::Abort;
use std::test::Fail;

/// Of 6 that the funded project costs 5 is paid. Its one supporter has 1 less than nothing left.
const FUNDED: ProjectMargins = ProjectMargins {
    funded: true,
    supporters: 1,
    cost: 12_000_000,
    paid: 10_000_000,
    left: -2_000_000,
    offer: 10_000_000,
};

/// Nothing is paid for the other, which costs 9. Its two supporters have 3 left, and offer 4.
const UNFUNDED: ProjectMargins = ProjectMargins {
    funded: false,
    supporters: 2,
    cost: 18_000_000,
    paid: 0,
    left: 6_000_000,
    offer: 8_000_000,
};

const FUNDED_OBJECT: &str =
    "{\"cost\":\"12000000\",\"funded\":true,\"left\":\"-2000000\",\"number\":1,\"offer\":\"10000000\",\
    \"paid\":\"10000000\",\"project\":@funded,\"supporters\":1}";

const UNFUNDED_OBJECT: &str =
    "{\"cost\":\"18000000\",\"funded\":false,\"left\":\"6000000\",\"number\":2,\"offer\":\"8000000\",\
    \"paid\":\"0\",\"project\":@unfunded,\"supporters\":2}";

/// The object with such projects.
const OBJECT: &str = "{\"answer\":\"yes\",\"election\":@election,\"grains_per_unit\":2000000,\
    \"kind\":\"margins\",\"outcome\":@outcome,\"projects\":[@projects],\"version\":1}";

/// The margins with half a millionth as a grain, and such rows.
fn margins_with(alloc: Global, rows: &[ProjectMargins]) -> Result<Margins, Fail> {
    let mut projects = Vec::new(alloc);
    for row in rows {
        projects.push(*row)?;
    }
    Ok(Margins {
        grains_per_unit: 2_000_000,
        projects,
    })
}

/// The object on these rows is to have these projects.
fn expect_margins(
    rt: &impl Abort,
    alloc: Global,
    rows: &[ProjectMargins],
    projects: &str,
) -> Result<(), Fail> {
    let decided = hostile_decided(alloc)?;
    let margins = margins_with(alloc, rows)?;
    let object = margins_json(alloc, &decided, &margins)?;
    let want = String::from_str(alloc, OBJECT)?.replace(alloc, "@projects", projects)?;
    expect_text(rt, alloc, &object, &want)
}

#[test]
fn margins_are_told(rt: HostRuntime) -> Result<(), Fail> {
    let both = format!(in rt.alloc(); "{FUNDED_OBJECT},{UNFUNDED_OBJECT}")?;
    expect_margins(&rt, rt.alloc(), &[FUNDED, UNFUNDED], &both)
}

#[test]
fn rows_past_the_last_project_are_left_out(rt: HostRuntime) -> Result<(), Fail> {
    let both = format!(in rt.alloc(); "{FUNDED_OBJECT},{UNFUNDED_OBJECT}")?;
    expect_margins(&rt, rt.alloc(), &[FUNDED, UNFUNDED, FUNDED], &both)?;
    expect_margins(&rt, rt.alloc(), &[FUNDED], FUNDED_OBJECT)?;
    expect_margins(&rt, rt.alloc(), &[], "")
}

/// One of three voters, who needs 9, and has a share of 3 1/3.
const CLOSEST: GroupFigures = GroupFigures {
    project: 2,
    supporters: 2,
    voters: 1,
    most: 0,
    need: 9_000_000,
    falls_short: false,
};

/// All three voters, who need 7.5 for the first project, and have 10.
const SHORT: GroupFigures = GroupFigures {
    project: 1,
    supporters: 3,
    voters: 3,
    most: 1,
    need: 7_500_000,
    falls_short: true,
};

const GROUP_OBJECT: &str = "{\"answer\":\"yes\",\"election\":@election,\"groups\":[\
    {\"cost\":\"6000000\",\"missing\":{\"denominator\":3,\"numerator\":\"-7500000\"},\"most\":\"1\",\
    \"need\":\"7500000\",\"number\":1,\"project\":@funded,\"share\":{\"denominator\":3,\"numerator\":\"30000000\"},\
    \"supporters\":3,\"voters\":3},\
    {\"cost\":\"9000000\",\"missing\":{\"denominator\":3,\"numerator\":\"17000000\"},\"most\":\"0\",\
    \"need\":\"9000000\",\"number\":2,\"project\":@unfunded,\"share\":{\"denominator\":3,\"numerator\":\"10000000\"},\
    \"supporters\":2,\"voters\":1}],\
    \"kind\":\"group_margins\",\"measure\":\"count\",\"outcome\":@outcome,\"version\":1}";

const NO_GROUPS_OBJECT: &str = "{\"answer\":\"yes\",\"election\":@election,\"groups\":[],\
    \"kind\":\"group_margins\",\"measure\":\"cost\",\"outcome\":@outcome,\"version\":1}";

/// The object on an election of two projects, with the figures of two groups or of none.
fn object_of(alloc: Global, decided: &DecidedElection, is_empty: bool) -> Result<Value, Fail>
    requires { projects (decided.now).election ≡ 2 }
{
    Ok(if is_empty {
        group_margins_json(alloc, Measure::ByCost, decided, &[])?
    } else {
        group_margins_json(alloc, Measure::ByCount, decided, &[SHORT, CLOSEST])?
    })
}

/// The answer is yes although a group falls short.
#[test]
fn margins_of_groups_are_told(rt: HostRuntime) -> Result<(), Fail> {
    let decided = hostile_decided(rt.alloc())?;
    assert_eq!(rt; decided.election().projects(), 2);
    for (is_empty, want) in [(false, GROUP_OBJECT), (true, NO_GROUPS_OBJECT)] {
        let object = object_of(rt.alloc(), &decided, is_empty)?;
        expect_text(&rt, rt.alloc(), &object, want)?;
    }
    Ok(())
}
