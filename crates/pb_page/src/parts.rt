//! The parts of the page, in the order in which it shows them.
ghost use Rattle.std.specs.Prelude.{IfSome};
ghost use Rattle.pb_markup.specs.Pieces.{Adds};
ghost use Rattle.pb_page.specs.Answers.{HasAnswer, headline_box, line_box};
ghost use Rattle.pb_price_parts.specs.Rows.{ListsProjects};
ghost use Rattle.pb_page.specs.Sums.{HasInOrder};
ghost use Rattle.pb_page.specs.Taken.{sums_shown};

mod answer;
mod files;

use crate::style::STYLE;
use pb_case::Case;
use pb_figures::CertificateFigures;
use pb_group_parts::{groups, refutation, violation};
use pb_markup::{Attributes, Name, Page, Tag};
use pb_parts::{push_browser_title, push_closing, push_glance, push_top};
use pb_price_parts::prices;
use std::alloc::Global;

// Nothing may be fetched and nothing may run, whatever stands in the page.
const POLICY: &str =
    "default-src 'none'; style-src 'unsafe-inline'; base-uri 'none'; form-action 'none'";

/// The whole page: the answer in a sentence and the line that the program prints, with what stands around them, the sums
/// of the files among it.
pub(crate) fn whole_page(alloc: Global, case: &Case<'_>) -> Page
    ensures answer { IfSome result HasAnswer }
    ensures sums { IfSome result (HasInOrder (sums_shown (case.now).files)) }
    ensures projects { IfSome result (ListsProjects (case.now).told.mode (case.now).told.found) }
{
    let mut page = up_to_answer(alloc, case);
    push_headline(&mut page);
    page.append(behind_answer(alloc, case));
    push_line(&mut page);
    page.append(behind_line(alloc, case));
    page
}

// Adds the answer in a sentence.
fn push_headline(page: &mut Page)
    ensures { Adds page.old headline_box page.new }
{
    page.open(Tag::H2);
    page.headline();
    page.close();
}

// Adds the line that the program prints.
fn push_line(page: &mut Page)
    ensures { Adds page.old line_box page.new }
{
    page.open(Tag::Code);
    page.line();
    page.close();
}

// The page up to the answer in a sentence, which stands in a box.
fn up_to_answer(alloc: Global, case: &Case<'_>) -> Page {
    let mut page = Page::new(alloc);
    let language = Attributes::of(alloc, Name::Lang, case.words.language.code());
    page.open_with(Tag::Html, language);
    push_head(alloc, &mut page, case);
    page.open(Tag::Body);
    push_top(&mut page, case);
    page.open(Tag::Main);
    answer::open_answer(&mut page, case);
    page
}

// The page behind the answer in a sentence, and up to the line that the program prints.
fn behind_answer(alloc: Global, case: &Case<'_>) -> Page
    ensures sums { IfSome result (HasInOrder (sums_shown (case.now).files)) }
    ensures projects { IfSome result (ListsProjects (case.now).told.mode (case.now).told.found) }
{
    let mut page = up_to_figures(alloc, case);
    page.append(figures_of(case));
    page.append(behind_figures(alloc, case));
    page
}

// What stands between the answer and the figures.
fn up_to_figures(alloc: Global, case: &Case<'_>) -> Page {
    let mut page = Page::new(alloc);
    answer::close_answer(&mut page, case);
    push_glance(&mut page, case);
    page
}

// The figures: for prices the projects and the conditions, for a violation the group and the tests, for a refutation the
// weights and the tests, and without a certificate the unfunded projects with their groups.
fn figures_of(case: &Case<'_>) -> Page
    ensures { IfSome result (ListsProjects (case.now).told.mode (case.now).told.found) }
{
    match &case.told.found {
        CertificateFigures::Prices(figures) => prices(case, figures),
        CertificateFigures::Violation(figures) => violation(case, figures),
        CertificateFigures::Refutation(figures) => refutation(case, figures),
        CertificateFigures::Groups(figures) => groups(case, figures),
    }
}

// What stands behind the figures, up to the line that the program prints.
fn behind_figures(alloc: Global, case: &Case<'_>) -> Page
    ensures { IfSome result (HasInOrder (sums_shown (case.now).files)) }
{
    let mut page = Page::new(alloc);
    push_closing(&mut page, case);
    page.close();
    files::push_files(&mut page, case);
    page
}

// The page behind the line that the program prints.
fn behind_line(alloc: Global, case: &Case<'_>) -> Page {
    let mut page = Page::new(alloc);
    files::push_behind_line(&mut page, case);
    page
}

fn push_head(alloc: Global, page: &mut Page, case: &Case<'_>) {
    page.open(Tag::Head);
    page.open_with(Tag::Meta, Attributes::of(alloc, Name::Charset, "utf-8"));
    push_meta(
        alloc,
        page,
        Name::HttpEquiv,
        "Content-Security-Policy",
        POLICY,
    );
    push_meta(
        alloc,
        page,
        Name::Name,
        "viewport",
        "width=device-width, initial-scale=1",
    );
    push_meta(alloc, page, Name::Name, "generator", "pbaudit");
    push_browser_title(page, case);
    page.element(Tag::Style, STYLE);
    page.close();
}

fn push_meta(alloc: Global, page: &mut Page, kind: Name, name: &str, content: &str) {
    let attributes = Attributes::of(alloc, kind, name).and(Name::Content, content);
    page.open_with(Tag::Meta, attributes);
}
