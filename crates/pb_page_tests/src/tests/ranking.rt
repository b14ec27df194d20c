//! The orders of the tables.
use pb_cohesion::GroupFigures;
use pb_figures::short_first;
use pb_page::{closest_first, wrongly_paid_first};
use pb_price::ProjectMargins;
use std::test::Fail;

fn project(funded: bool, cost: u128, paid: u128, left: i128, offer: i128) -> ProjectMargins {
    ProjectMargins {
        funded,
        supporters: 1,
        cost,
        paid,
        left,
        offer,
    }
}

#[test]
fn what_misses_least_comes_first(rt: HostRuntime) -> Result<(), Fail> {
    let projects = [
        project(false, 10, 0, 4, 10),
        project(true, 1, 1, 1, 1),
        project(false, 10, 0, 12, 12),
        project(false, 7, 0, 1, 2),
        project(false, 3, 0, -1, 9),
        project(false, 2, 0, -4, 0),
    ];
    let plain = closest_first(rt.alloc(), &projects, false)?;
    assert!(rt;
        plain.as_slice() == [(-2, 3), (4, 5), (6, 1), (6, 4), (6, 6)].as_slice(),
        "{plain:?}"
    );
    let stable = closest_first(rt.alloc(), &projects, true)?;
    assert!(rt;
        stable.as_slice() == [(-6, 5), (-2, 3), (0, 1), (2, 6), (5, 4)].as_slice(),
        "{stable:?}"
    );
    Ok(())
}

#[test]
fn what_is_wrongly_paid_comes_first(rt: HostRuntime) -> Result<(), Fail> {
    let projects = [
        project(true, 5, 5, 0, 0),
        project(true, 8, 6, 0, 0),
        project(false, 99, 0, 0, 0),
        project(true, 9, 9, 0, 0),
        project(true, 1, 4, 0, 0),
        project(true, 5, 5, 0, 0),
    ];
    let ranked = wrongly_paid_first(rt.alloc(), &projects)?;
    const MOST: u128 = u128::MAX;
    let expected = [
        (MOST - 3, MOST - 1, 5),
        (MOST - 2, MOST - 8, 2),
        (MOST, MOST - 9, 4),
        (MOST, MOST - 5, 1),
        (MOST, MOST - 5, 6),
    ];
    assert!(rt; ranked.as_slice() == expected.as_slice(), "{ranked:?}");
    Ok(())
}

#[test]
fn nothing_to_rank(rt: HostRuntime) -> Result<(), Fail> {
    let projects = [project(true, 5, 5, 0, 0)];
    assert!(rt; closest_first(rt.alloc(), &projects, false)?.is_empty());
    assert!(rt; wrongly_paid_first(rt.alloc(), &[])?.is_empty());
    Ok(())
}

fn group(project: u32, voters: u32, falls_short: bool) -> GroupFigures {
    GroupFigures {
        project,
        supporters: 9,
        voters,
        most: 0,
        need: 1,
        falls_short,
    }
}

#[test]
fn largest_group_that_falls_short_comes_first(rt: HostRuntime) -> Result<(), Fail> {
    let groups = [
        group(2, 9, false),
        group(3, 1, true),
        group(5, 4, true),
        group(6, 7, false),
        group(8, 4, true),
        group(9, 1_000_000, true),
    ];
    let order = short_first(rt.alloc(), &groups)?;
    let mut rows = Vec::new(rt.alloc());
    for one in order.iter() {
        rows.push(one.1)?;
    }
    assert!(rt;
        rows.as_slice() == [6, 3, 5, 2, 1, 4].as_slice(),
        "{rows:?}"
    );
    Ok(())
}
