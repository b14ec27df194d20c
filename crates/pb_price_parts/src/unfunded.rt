//! The projects that weren't funded, by what their supporters have left or can offer.
ghost use Rattle.std.specs.Prelude.{◌≡◌, if◌then◌else◌, IfOk, IfSome, map};
ghost use Rattle.pb_markup.specs.InOrder.{HasParts};
ghost use Rattle.pb_price_parts.specs.Rows as spec;
ghost use Rattle.pb_price_parts.specs.Rows.{ListsUnfunded, amount_piece, unfunded_amount};
ghost use Rattle.pb_figures.specs.declared.figure.Figure.TheVariants as figure;

use pb_case::{Case, Fillings, grouped};
use pb_figures::{Figure, PriceFigures, Size, closest_first, has, missing, places_by};
use pb_markup::{Attributes, Name, Page, Tag};
use pb_price::ProjectMargins;
use pb_tables::{
    COST, Column, ColumnKind, Look, MARK, MOST_ROWS, Order, begin_cell, begin_row, begin_table,
    behind_rows, length_of, push_bar,
};
use pb_words::Sentence;
use std::alloc::{AllocError, Global};

const SUPPORTERS: Column = Column {
    head: Sentence::Supporters,
    kind: ColumnKind::Number,
};

const AGAINST_COST: Column = Column {
    head: Sentence::AgainstCost,
    kind: ColumnKind::Bar,
};

const PROJECT: Column = Column {
    head: Sentence::Project,
    kind: ColumnKind::Words,
};

// The places of all unfunded projects, by their numbers, in the orders that can be chosen.
#[derive(Drop)]
struct Places {
    cost: Vec<usize>,
    supporters: Vec<usize>,
}

impl Places {
    // Of these projects, of which the unfunded ones are ranked.
    fn of(
        alloc: Global,
        projects: &[ProjectMargins],
        ranked: &[(i128, usize)],
    ) -> Result<Places, AllocError> {
        Ok(Places {
            cost: places_by(alloc, projects, ranked, Size::Cost)?,
            supporters: places_by(alloc, projects, ranked, Size::Supporters)?,
        })
    }

    // The places of a project, which is numbered from 1.
    fn at(&self, j: u32) -> Order {
        let k = (j as usize).saturating_sub(1);
        Order {
            cost: self.cost.get(k).copied().unwrap_or(0),
            supporters: self.supporters.get(k).copied().unwrap_or(0),
        }
    }
}

/// The projects that weren't funded, those closest to breaking the condition first.
pub(crate) fn unfunded(case: &Case<'_>, figures: &PriceFigures) -> Page
    ensures { IfSome result (ListsUnfunded (case.now).told.mode.stable (figures.now).margins.projects.items) }
{
    match ranked_page(case, figures) {
        Ok(page) => page,
        Err(_) => Page::failed(case.words.alloc),
    }
}

// The same, or why there is none.
fn ranked_page(case: &Case<'_>, figures: &PriceFigures) -> Result<Page, AllocError>
    ensures { IfOk result (λ page. IfSome page (ListsUnfunded (case.now).told.mode.stable (figures.now).margins.projects.items)) }
{
    let stable = case.told.mode.stable;
    let mut ranked = closest_first(case.words.alloc, &figures.margins.projects, stable)?;
    let places = Places::of(case.words.alloc, &figures.margins.projects, &ranked)?;
    let count = ranked.len();
    ranked.truncate(MOST_ROWS);
    let mut page = up_to_rows(case, count);
    page.append(rows(case, figures, &places, &ranked));
    page.append(behind_rows(case, count));
    Ok(page)
}

// The part up to its rows, of which there are so many.
fn up_to_rows(case: &Case<'_>, count: usize) -> Page {
    let mut page = Page::new(case.words.alloc);
    page.open_class(Tag::Section, "sorted");
    page.element(Tag::H2, case.words.say(Sentence::Unfunded));
    if count == 0 {
        page.element(
            Tag::P,
            case.words.say(case.or_no_projects(Sentence::AllFunded)),
        );
        return page;
    }
    let how = if case.told.mode.stable {
        Sentence::HowUnfundedStable
    } else {
        Sentence::HowUnfunded
    };
    page.element(Tag::P, case.words.say(how));
    push_orders(&mut page, case);
    push_only_closest(&mut page, case, count);
    let columns = [PROJECT, COST, SUPPORTERS, has_column(case), AGAINST_COST];
    begin_table(&mut page, case, Sentence::Unfunded, "projects", &columns);
    page
}

// The rows of projects in this order.
fn rows(case: &Case<'_>, figures: &PriceFigures, places: &Places, ranked: &[(i128, usize)]) -> Page
    ensures { IfSome result (HasParts amount_piece (map (unfunded_amount (case.now).told.mode.stable) ranked.now)) }
{
    let mut page = Page::new(case.words.alloc);
    for one in ranked {
        let j = narrow(one.1);
        page.append(up_to_amount(case, figures, places, j));
        page.figure(has_figure(case, j));
        page.append(behind_amount(case, figures, j));
    }
    page
}

/// The number of a project as figures have it. No election has so many projects that it would be another.
pub fn narrow(number: usize) -> u32
    ensures { result ≡ spec.narrow number }
{
    u32::try_from(number).unwrap_or(0)
}

fn has_column(case: &Case<'_>) -> Column {
    let head = if case.told.mode.stable {
        Sentence::CanOffer
    } else {
        Sentence::HaveLeft
    };
    Column {
        head,
        kind: ColumnKind::Money,
    }
}

// Adds the choice of an order, which the style alone makes.
fn push_orders(page: &mut Page, case: &Case<'_>) {
    page.open_class(Tag::Fieldset, "sort");
    page.element(Tag::Legend, case.words.say(Sentence::Order));
    push_choice(page, case, "closest", Sentence::OrderClosest);
    push_choice(page, case, "dearest", Sentence::OrderDearest);
    push_choice(page, case, "supported", Sentence::OrderSupporters);
    page.close();
}

// Says that an order is one of the rows that stand here, where others are left out.
fn push_only_closest(page: &mut Page, case: &Case<'_>, count: usize) {
    if count <= MOST_ROWS {
        return;
    }
    let fillings = Fillings::none(case.words.alloc).and_number("count", MOST_ROWS as u64);
    case.say_in(page, Tag::P, "note", Sentence::OnlyClosest, &fillings);
}

fn push_choice(page: &mut Page, case: &Case<'_>, class: &str, sentence: Sentence) {
    let mut attributes = Attributes::of(case.words.alloc, Name::Type, "radio")
        .and(Name::Name, "order")
        .and(Name::Class, class);
    if class == "closest" {
        attributes = attributes.and(Name::Checked, "checked");
    }
    page.open(Tag::Label);
    page.open_with(Tag::Input, attributes);
    page.text(case.words.say(sentence));
    page.close();
}

// The row of a project up to what its supporters have left or can offer. There is nothing for one that isn't there.
fn up_to_amount(case: &Case<'_>, figures: &PriceFigures, places: &Places, j: u32) -> Page {
    let mut page = Page::new(case.words.alloc);
    let Some(project) = figures.project(j) else {
        return page;
    };
    begin_row(&mut page, case, j, Some(places.at(j)));
    begin_cell(&mut page, case, COST);
    page.figure(Figure::Cost(j));
    page.close();
    begin_cell(&mut page, case, SUPPORTERS);
    page.text_made(grouped(case.words.alloc, u128::from(project.supporters)));
    page.close();
    begin_cell(&mut page, case, has_column(case));
    page
}

// The row of a project behind that amount.
fn behind_amount(case: &Case<'_>, figures: &PriceFigures, j: u32) -> Page {
    let mut page = Page::new(case.words.alloc);
    let Some(project) = figures.project(j) else {
        return page;
    };
    page.close();
    begin_cell(&mut page, case, AGAINST_COST);
    push_against(&mut page, case, j, project);
    page.close();
    page.close();
    page
}

fn has_figure(case: &Case<'_>, j: u32) -> Figure
    ensures { result ≡ (if (case.now).told.mode.stable then figure.Offer j else figure.Left j) }
{
    if case.told.mode.stable {
        Figure::Offer(j)
    } else {
        Figure::Left(j)
    }
}

// Adds the bar of what the supporters have against the cost, and how far that is from it.
fn push_against(page: &mut Page, case: &Case<'_>, j: u32, project: &ProjectMargins) {
    let alloc = case.words.alloc;
    let stable = case.told.mode.stable;
    let missing = missing(project, stable);
    let look = if missing < 0 {
        Look::Over
    } else {
        Look::Against
    };
    let length = length_of(
        u128::try_from(has(project, stable)).unwrap_or(0),
        project.cost,
        MARK,
    );
    push_bar(alloc, page, look, bar_label(case, j), length);
    push_distance(page, case, j, missing);
    if project.paid != 0 {
        let fillings = Fillings::none(alloc).and_money("paid", Figure::Paid(j));
        case.say_in(
            page,
            Tag::Span,
            "verdict fails",
            Sentence::PaidInVain,
            &fillings,
        );
    }
}

fn bar_label(case: &Case<'_>, j: u32) -> Result<String, AllocError> {
    let fillings = Fillings::none(case.words.alloc)
        .and_label("project", case.project_name(j))
        .and_money("amount", has_figure(case, j))
        .and_money("cost", Figure::Cost(j));
    let sentence = if case.told.mode.stable {
        Sentence::LabelOffer
    } else {
        Sentence::LabelLeft
    };
    case.said(sentence, &fillings)
}

// Adds how far what the supporters have is from the cost, of which they miss so much, or have so much more if that is
// negative.
fn push_distance(page: &mut Page, case: &Case<'_>, j: u32, missing: i128) {
    let none = Fillings::none(case.words.alloc);
    if missing == 0 {
        return case.say_in(page, Tag::Span, "verdict", Sentence::JustTheCost, &none);
    }
    let off = if case.told.mode.stable {
        Figure::OfferOff(j)
    } else {
        Figure::LeftOff(j)
    };
    let fillings = none.and_money("amount", off);
    if missing > 0 {
        return case.say_in(page, Tag::Span, "verdict", Sentence::UnderBy, &fillings);
    }
    page.open_class(Tag::Span, "verdict fails");
    page.text("\u{2717} ");
    case.say(page, Sentence::OverBy, &fillings);
    page.close();
}
