//! The parts about prices, in the order in which a page shows them.
ghost use Rattle.std.specs.Prelude.{IfSome};
ghost use Rattle.pb_price_parts.specs.Rows.{ListsFunded, ListsUnfunded};

use crate::conditions::conditions;
use crate::funded::funded;
use crate::unfunded::unfunded;
use pb_case::Case;
use pb_figures::PriceFigures;
use pb_markup::Page;

/// The projects that weren't funded, those that were, and the conditions.
pub fn prices(case: &Case<'_>, figures: &PriceFigures) -> Page
    ensures unfunded { IfSome result (ListsUnfunded (case.now).told.mode.stable (figures.now).margins.projects.items) }
    ensures funded { IfSome result (ListsFunded (figures.now).margins.projects.items) }
{
    let mut page = unfunded(case, figures);
    page.append(funded(case, figures));
    page.append(conditions(case, figures));
    page
}
