//! Tiles: figures with their names.
use pb_case::{Case, grouped};
use pb_figures::Figure;
use pb_markup::{Page, Tag};
use pb_words::Sentence;

/// Begins a tile, a figure with its name.
pub fn begin_tile(page: &mut Page, case: &Case<'_>, name: Sentence) {
    page.open(Tag::Div);
    page.element(Tag::Dt, case.words.say(name));
    page.open(Tag::Dd);
}

/// Ends a tile.
pub fn end_tile(page: &mut Page) {
    page.close();
    page.close();
}

/// Adds a tile with a whole number.
pub fn push_number_tile(page: &mut Page, case: &Case<'_>, name: Sentence, number: u64) {
    begin_tile(page, case, name);
    page.text_made(grouped(case.words.alloc, u128::from(number)));
    end_tile(page);
}

/// Adds a tile with an amount, and the currency below it.
pub fn push_money_tile(page: &mut Page, case: &Case<'_>, name: Sentence, figure: Figure) {
    begin_tile(page, case, name);
    page.figure(figure);
    if !case.currency.is_empty() {
        page.open_class(Tag::Span, "sub");
        page.element(Tag::Bdi, &case.currency);
        page.close();
    }
    end_tile(page);
}
