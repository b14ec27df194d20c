//! The parts about a violation, a refutation, and groups that fall short, in the order in which a page shows them.
ghost use Rattle.std.specs.Prelude.{IfSome};
ghost use Rattle.pb_price_parts.specs.Rows.{ListsGroups};

use crate::group::{push_demand, push_group};
use crate::short_table::short_table;
use crate::weights::push_weights;
use crate::{tests_of_group, tests_of_weights};
use pb_case::Case;
use pb_figures::{RefutationFigures, ShortFigures, ViolationFigures};
use pb_markup::Page;

/// The group, what it demands, and the tests.
pub fn violation(case: &Case<'_>, figures: &ViolationFigures) -> Page {
    let mut page = Page::new(case.words.alloc);
    push_group(&mut page, case, figures);
    push_demand(&mut page, case, figures);
    tests_of_group::push_tests(&mut page, case, figures);
    page
}

/// The weights, and the tests.
pub fn refutation(case: &Case<'_>, figures: &RefutationFigures) -> Page {
    let mut page = Page::new(case.words.alloc);
    push_weights(&mut page, case, figures);
    tests_of_weights::push_tests(&mut page, case, figures);
    page
}

/// The projects that weren't funded, each with its group.
pub fn groups(case: &Case<'_>, figures: &ShortFigures) -> Page
    ensures { IfSome result (ListsGroups (figures.now).groups.items) }
{
    short_table(case, figures)
}
