//! Tables of projects. A row is a row of a table also where the style makes a card of it, which its roles say.
use pb_case::{Case, Fillings, push_label};
use pb_markup::{Attributes, Name, Page, Tag};
use pb_words::Sentence;
use std::alloc::AllocError;

/// A table is cut behind so many rows, so that a browser can show it.
pub const MOST_ROWS: usize = 1000;

/// A column.
#[derive(Clone, Copy)]
pub struct Column {
    pub head: Sentence,
    pub kind: ColumnKind,
}

/// What projects cost.
pub const COST: Column = Column {
    head: Sentence::Cost,
    kind: ColumnKind::Money,
};

/// Whether projects are funded.
pub const STATE: Column = Column {
    head: Sentence::State,
    kind: ColumnKind::Words,
};

/// What a column has.
#[derive(Clone, Copy)]
pub enum ColumnKind {
    /// Words.
    Words,
    /// A bar, which needs no head where rows are cards.
    Bar,
    /// Whole numbers.
    Number,
    /// Amounts.
    Money,
}

impl ColumnKind {
    fn is_figure(self) -> bool {
        matches!(self, ColumnKind::Number | ColumnKind::Money)
    }
}

/// The places of a row in the other orders, from 1.
#[derive(Clone, Copy)]
pub struct Order {
    pub cost: usize,
    pub supporters: usize,
}

/// Begins a table with a name for who can't see it, and its heads.
pub fn begin_table(
    page: &mut Page,
    case: &Case<'_>,
    name: Sentence,
    class: &str,
    columns: &[Column],
) {
    let alloc = case.words.alloc;
    let attributes = Attributes::of(alloc, Name::Role, "table")
        .and(Name::Class, class)
        .and(Name::AriaLabel, case.words.say(name));
    page.open_with(Tag::Table, attributes);
    page.open_with(Tag::Thead, Attributes::of(alloc, Name::Role, "rowgroup"));
    page.open_with(Tag::Tr, Attributes::of(alloc, Name::Role, "row"));
    for column in columns {
        push_head(page, case, *column);
    }
    page.close();
    page.close();
    page.open_with(Tag::Tbody, Attributes::of(alloc, Name::Role, "rowgroup"));
}

/// Ends a table.
pub fn end_table(page: &mut Page) {
    page.close();
    page.close();
}

fn push_head(page: &mut Page, case: &Case<'_>, column: Column) {
    let mut attributes = Attributes::of(case.words.alloc, Name::Role, "columnheader");
    if column.kind.is_figure() {
        attributes = attributes.and(Name::Class, "number");
    }
    page.open_with(Tag::Th, attributes);
    push_head_words(page, case, column);
    page.close();
}

fn push_head_words(page: &mut Page, case: &Case<'_>, column: Column) {
    page.text(case.words.say(column.head));
    if column.kind == ColumnKind::Money && !case.currency.is_empty() {
        page.text(", ");
        page.element(Tag::Bdi, &case.currency);
    }
}

/// Begins the row of a project, with its name and its id, and where the table has other orders with its places in them.
pub fn begin_row(page: &mut Page, case: &Case<'_>, j: u32, order: Option<Order>) {
    let alloc = case.words.alloc;
    let mut row = Attributes::of(alloc, Name::Role, "row");
    if let Some(order) = order {
        row = row.and_made(Name::Order, order_text(case, order));
    }
    page.open_with(Tag::Tr, row);
    page.open_with(Tag::Th, Attributes::of(alloc, Name::Role, "rowheader"));
    push_project(page, case, j);
    page.close();
}

// The first place, and the other with its property.
fn order_text(case: &Case<'_>, order: Order) -> Result<String, AllocError> {
    let cost = order.cost;
    let supporters = order.supporters;
    format!(in case.words.alloc; "{cost};--supporters:{supporters}")
}

fn push_project(page: &mut Page, case: &Case<'_>, j: u32) {
    let name = case.labels.name(j);
    if !name.is_empty() {
        page.open_class(Tag::Span, "name");
        push_label(page, case, "", name);
        page.close();
    }
    let fillings = Fillings::none(case.words.alloc).and_label("id", case.id(j));
    case.say_in(page, Tag::Span, "id", Sentence::ProjectId, &fillings);
}

/// Begins a cell. Its head stands in it as well, for where rows are cards.
pub fn begin_cell(page: &mut Page, case: &Case<'_>, column: Column) {
    let alloc = case.words.alloc;
    let mut cell = Attributes::of(alloc, Name::Role, "cell");
    if column.kind.is_figure() {
        cell = cell.and(Name::Class, "number");
    }
    page.open_with(Tag::Td, cell);
    if column.kind == ColumnKind::Bar {
        return;
    }
    let head = Attributes::of(alloc, Name::Class, "head").and(Name::AriaHidden, "true");
    page.open_with(Tag::Span, head);
    push_head_words(page, case, column);
    page.close();
}

/// Adds the cell that says whether a project is funded.
pub fn push_state(page: &mut Page, case: &Case<'_>, j: u32) {
    let state = if case.is_funded(j) {
        Sentence::IsFunded
    } else {
        Sentence::IsUnfunded
    };
    begin_cell(page, case, STATE);
    page.text(case.words.say(state));
    page.close();
}

/// Adds a line on how many rows were left out, where some were.
pub fn push_left_out(page: &mut Page, case: &Case<'_>, rows: usize) {
    let count = rows.saturating_sub(MOST_ROWS) as u64;
    if count == 0 {
        return;
    }
    let fillings = Fillings::none(case.words.alloc).and_number("count", count);
    let sentence = Sentence::LeftOut(case.words.plural(count));
    case.say_in(page, Tag::P, "fails", sentence, &fillings);
}

/// The end of a part with a table, behind so many rows: where there are none, there is no table.
pub fn behind_rows(case: &Case<'_>, count: usize) -> Page {
    let mut page = Page::new(case.words.alloc);
    if count != 0 {
        end_table(&mut page);
        push_left_out(&mut page, case, count);
    }
    page.close();
    page
}
