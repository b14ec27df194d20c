//! Bars.
use pb_case::Words;
use pb_markup::{Attributes, Name, Page, Tag};
use pb_words::Sentence;
use std::alloc::{AllocError, Global};

/// The whole width of a bar, in hundredths of a percent.
pub const WIDTH: u32 = 10_000;
/// Where the mark of a bound stands, in hundredths of a percent of the width.
pub const MARK: u32 = 7_500;
// What is longer than a bar.
const BEYOND: u32 = 20_000;

/// How a bar looks.
#[derive(Clone, Copy)]
pub enum Look {
    /// A part of a whole.
    Part,
    /// What should be a part of a whole, and is more than it.
    Beyond,
    /// An amount against a bound, which has a mark.
    Against,
    /// The same where the amount is over the bound and may not be.
    Over,
}

impl Look {
    /// Of a part of a whole.
    pub fn of_part(part: u128, whole: u128) -> Look {
        if part > whole {
            Look::Beyond
        } else {
            Look::Part
        }
    }
}

/// A part of a whole, where the whole is so many hundredths of a percent of the width, cut to one of them. One that is
/// longer than the bar, by however little, stays so. Where there is no whole, a part that isn't nothing is.
pub fn length_of(part: u128, whole: u128, width_of_whole: u32) -> u32 {
    if whole == 0 {
        return if part == 0 { 0 } else { BEYOND };
    }
    let scaled = part.saturating_mul(u128::from(width_of_whole));
    let length = u32::try_from(scaled / whole).unwrap_or(BEYOND).min(BEYOND);
    if length == WIDTH && scaled % whole != 0 {
        WIDTH + 1
    } else {
        length
    }
}

/// Adds a bar of a length in hundredths of a percent of the width, with the words for who can't see it. One that is
/// longer than the width is cut, and ends in a sign that says so.
pub fn push_bar(
    alloc: Global,
    page: &mut Page,
    look: Look,
    label: Result<String, AllocError>,
    length: u32,
) {
    let attributes = Attributes::of(alloc, Name::Class, class_of(look))
        .and(Name::Role, "img")
        .and_made(Name::AriaLabel, label);
    page.open_with(Tag::Div, attributes);
    push_part(alloc, page, length.min(WIDTH));
    if look == Look::Against || look == Look::Over {
        page.element_class(Tag::Span, "mark", "");
    }
    if length > WIDTH {
        page.element_class(Tag::Span, "cut", "\u{bb}");
    }
    page.close();
}

fn class_of(look: Look) -> &'static str {
    match look {
        Look::Part | Look::Against => "bar",
        Look::Beyond | Look::Over => "bar over",
    }
}

fn push_part(alloc: Global, page: &mut Page, length: u32) {
    let attributes = Attributes::of(alloc, Name::Class, "part").and_made(
        Name::Share,
        percent(alloc, length, "."),
    );
    page.open_with(Tag::Span, attributes);
    page.close();
}

/// A length as a part of the whole width, in percent, or in words where it is longer.
pub fn part_in_words(words: Words, length: u32) -> Result<String, AllocError> {
    if length > WIDTH {
        return String::from_str(words.alloc, words.say(Sentence::MoreThanWhole));
    }
    let mut text = percent(words.alloc, length, words.language.decimal_sign())?;
    text.push_str("\u{a0}%")?;
    Ok(text)
}

// Hundredths of a percent in percent, with two decimals behind a sign.
fn percent(alloc: Global, hundredths: u32, decimal_sign: &str) -> Result<String, AllocError> {
    let (whole, tenth, hundredth) = (hundredths / 100, hundredths / 10 % 10, hundredths % 10);
    format!(in alloc; "{whole}{decimal_sign}{tenth}{hundredth}")
}
