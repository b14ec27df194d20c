//! The orders in which the tables show projects.
ghost use Rattle.std.specs.Int.{abs_diff};
ghost use Rattle.std.specs.Prelude.{◌≡◌, ◌++◌, ◌∷◌, [], not, if◌then◌else◌, IfOk, OnOk};
ghost use Rattle.pb_figures.specs.Ranking as spec;
ghost use Rattle.pb_figures.specs.Ranking.{AreRanked, by_group, by_missing, by_size, short};

use pb_cohesion::GroupFigures;
use pb_price::ProjectMargins;
use std::alloc::{AllocError, Global};

/// The unfunded ones of these projects by their numbers, which are from 1, each behind what its supporters miss to its
/// cost, which is negative where they have more: the least first, and of two that are alike the lower number. What they
/// have is what they have left, or in the stable form what they can offer. An error means out of memory.
pub fn closest_first(
    alloc: Global,
    projects: &[ProjectMargins],
    stable: bool,
) -> Result<Vec<(i128, usize)>, AllocError>
    ensures { IfOk result (λ ranked. AreRanked by_missing (spec.unfunded stable projects.now) ranked.items) }
{
    let mut ranked = Vec::new(alloc);
    for (k, project) in projects.iter().enumerate() {
        rank_unfunded(&mut ranked, project, stable, k + 1)?;
    }
    ranked.sort_unstable();
    Ok(ranked)
}

/// The funded ones of these projects by their numbers, which are from 1: those first for which what is paid is furthest
/// from the cost, of those that are alike the dearest, and then the lower number. Each stands behind what the two
/// amounts are short of the largest number, by which they are in order. An error means out of memory.
pub fn wrongly_paid_first(
    alloc: Global,
    projects: &[ProjectMargins],
) -> Result<Vec<(u128, u128, usize)>, AllocError>
    ensures { IfOk result (λ order. AreRanked by_size (spec.funded projects.now) order.items) }
{
    let mut order = Vec::new(alloc);
    for (k, project) in projects.iter().enumerate() {
        rank_funded(&mut order, project, k + 1)?;
    }
    order.sort_unstable();
    Ok(order)
}

/// The rows of these groups, which are from 1: those first that fall short, of these the largest, and of two that are
/// alike the lower row; behind them the others. Each stands behind what its group is short of the largest number, by which
/// they are in order. An error means out of memory.
pub fn short_first(alloc: Global, groups: &[GroupFigures]) -> Result<Vec<(u32, usize)>, AllocError>
    ensures { IfOk result (λ ranked. AreRanked by_group (spec.groups groups.now) ranked.items) }
{
    let mut order = Vec::new(alloc);
    for (k, group) in groups.iter().enumerate() {
        rank_group(&mut order, group, k + 1)?;
    }
    order.sort_unstable();
    Ok(order)
}

// Adds a group with this row.
fn rank_group(
    ranked: &mut Vec<(u32, usize)>,
    group: &GroupFigures,
    row: usize,
) -> Result<(), AllocError>
    ensures { OnOk result (ranked.new.items ≡ ranked.old.items ++ (spec.group_rank group.now, row) ∷ []) }
{
    ranked.push((group_rank(group), row))?;
    Ok(())
}

// What comes before a group: more where it is smaller, and most where it doesn't fall short.
fn group_rank(group: &GroupFigures) -> u32
    ensures { result ≡ spec.group_rank group.now }
{
    if group.falls_short {
        u32::MAX - group.voters
    } else {
        u32::MAX
    }
}

// Adds a project with this number, unless it is funded.
fn rank_unfunded(
    ranked: &mut Vec<(i128, usize)>,
    project: &ProjectMargins,
    stable: bool,
    number: usize,
) -> Result<(), AllocError>
    ensures { OnOk result (ranked.new.items ≡ ranked.old.items ++ (if not (project.now).funded then (spec.missing stable project.now, number) ∷ [] else [])) }
{
    if !project.funded {
        ranked.push((missing(project, stable), number))?;
    }
    Ok(())
}

// Adds a project with this number, if it is funded.
fn rank_funded(
    order: &mut Vec<(u128, u128, usize)>,
    project: &ProjectMargins,
    number: usize,
) -> Result<(), AllocError>
    ensures { OnOk result (order.new.items ≡ order.old.items ++ (if (project.now).funded then (short (abs_diff (project.now).paid (project.now).cost), short (project.now).cost, number) ∷ [] else [])) }
{
    if project.funded {
        let off = project.paid.abs_diff(project.cost);
        order.push((u128::MAX - off, u128::MAX - project.cost, number))?;
    }
    Ok(())
}

/// What the supporters of a project miss to its cost.
pub fn missing(project: &ProjectMargins, stable: bool) -> i128
    ensures { result ≡ spec.missing stable project.now }
{
    let cost = project.cost.min(i128::MAX as u128) as i128;
    cost.saturating_sub(has(project, stable))
}

/// What some projects may be put in order by, the largest first.
#[derive(Clone, Copy)]
pub enum Size {
    Cost,
    Supporters,
}

impl Size {
    fn of(self, project: &ProjectMargins) -> u128 {
        match self {
            Size::Cost => project.cost,
            Size::Supporters => u128::from(project.supporters),
        }
    }
}

/// The places, from 1, of those of these projects that are ranked by their numbers, where they are put in order by
/// another size; of two that are alike the one that is ranked first is first. Those that aren't ranked have 0.
pub fn places_by(
    alloc: Global,
    projects: &[ProjectMargins],
    ranked: &[(i128, usize)],
    size: Size,
) -> Result<Vec<usize>, AllocError> {
    let mut order = Vec::new(alloc);
    for (rank, one) in ranked.iter().enumerate() {
        let k = one.1.saturating_sub(1);
        if let Some(project) = projects.get(k) {
            order.push((u128::MAX - size.of(project), rank, k))?;
        }
    }
    order.sort_unstable();
    let mut places = vec![in alloc; 0; projects.len()]?;
    for (before, one) in order.iter().enumerate() {
        if let Some(place) = places.get_mut(one.2) {
            *place = before + 1;
        }
    }
    Ok(places)
}

/// What the supporters of a project have left together, or in the stable form can offer.
pub fn has(project: &ProjectMargins, stable: bool) -> i128
    ensures { result ≡ spec.has stable project.now }
{
    if stable { project.offer } else { project.left }
}
