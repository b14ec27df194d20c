//! Amounts as they are shown.
ghost use Rattle.std.specs.Prelude.{◌≡◌, ◌<◌, ◌≤◌, ◌^◌, ◌++◌, OnOk, string_bytes};
ghost use Rattle.pb_figures.specs.Amounts as spec;

use pb_words::Language;
use std::alloc::AllocError;

// A grain is at least the 2^64th part of a unit, so that one of these decimals isn't 0.
const MOST_PLACES: u32 = 20;

/// How amounts are shown: with so many decimals, and the sign of the language before them.
#[derive(Clone, Copy)]
pub struct Style {
    pub language: Language,
    /// How many are usual, at most 6.
    pub decimals: u32,
}

/// An amount in grains that may be negative.
#[derive(Clone, Copy)]
pub struct Balance {
    pub negative: bool,
    pub grains: u128,
}

impl Balance {
    /// Nothing.
    pub const NOTHING: Balance = Balance {
        negative: false,
        grains: 0,
    };

    /// An amount that is not negative.
    pub fn of(grains: u128) -> Balance
        ensures { result ≡ spec.of grains }
    {
        Balance {
            negative: false,
            grains,
        }
    }

    /// An amount that may be negative.
    pub fn signed(grains: i128) -> Balance
        ensures { result ≡ spec.signed grains }
    {
        Balance {
            negative: grains < 0,
            grains: grains.unsigned_abs(),
        }
    }
}

/// Adds an amount, where one unit of the currency has so many grains. One that has more decimals than are shown is cut,
/// and ends with an ellipsis. One of less than a unit that isn't nothing has at least as many decimals as it takes for
/// its first digit that isn't 0.
pub fn push_amount(
    text: &mut String,
    style: Style,
    grains_per_unit: u64,
    amount: Balance,
) -> Result<(), AllocError>
    ensures { OnOk result (string_bytes text.new ≡ string_bytes text.old ++ spec.amount_text style grains_per_unit amount) }
{
    if amount.negative {
        text.push_str("\u{2212}")?;
    }
    let unit = u128::from(grains_per_unit.max(1));
    let whole = amount.grains / unit;
    let rest = amount.grains % unit;
    push_grouped(text, whole)?;
    push_decimals(
        text,
        style.language,
        count_of_places(style.decimals, unit, whole, rest),
        unit,
        rest,
    )
}

// How many decimals an amount has, where so many are usual.
fn count_of_places(usual: u32, unit: u128, whole: u128, rest: u128) -> u32
    requires rest { rest < unit }
    requires unit { unit < 2 ^ 64 }
    ensures { result ≡ spec.count_of_places usual unit whole rest }
{
    if whole == 0 && rest != 0 {
        usual.max(first_place(MOST_PLACES, unit, rest))
    } else {
        usual
    }
}

// Which of the decimals of less than a unit, so many at most, is the first that isn't 0.
#[tactic(auto, unfolding(crate::specs::Amounts::first_place))]
fn first_place(most: u32, unit: u128, grains: u128) -> u32
    requires rest { grains < unit }
    requires unit { unit < 2 ^ 64 }
    ensures place { result ≡ spec.first_place most unit grains }
    ensures most { result ≤ most }
{
    if most == 0 {
        return 0;
    }
    let next = grains * 10;
    if next >= unit {
        return 1;
    }
    1 + first_place(most - 1, unit, next)
}

// Adds the part of an amount that is less than a unit, with so many decimals.
fn push_decimals(
    text: &mut String,
    language: Language,
    count: u32,
    unit: u128,
    grains: u128,
) -> Result<(), AllocError>
    requires rest { grains < unit }
    requires unit { unit < 2 ^ 64 }
    ensures { OnOk result (string_bytes text.new ≡ string_bytes text.old ++ spec.decimals language count unit grains) }
{
    if count > 0 {
        text.push_str(language.decimal_sign())?;
    }
    push_places(text, count, unit, grains)
}

// Adds the first decimals of less than a unit.
#[tactic(auto, unfolding(crate::specs::Amounts::places))]
fn push_places(text: &mut String, count: u32, unit: u128, grains: u128) -> Result<(), AllocError>
    requires rest { grains < unit }
    requires unit { unit < 2 ^ 64 }
    ensures { OnOk result (string_bytes text.new ≡ string_bytes text.old ++ spec.places count unit grains) }
{
    if count == 0 {
        if grains != 0 {
            text.push_str("\u{2026}")?;
        }
        return Ok(());
    }
    write!(text, "{}", grains * 10 / unit)?;
    push_places(text, count - 1, unit, grains * 10 % unit)
}

/// Adds a whole number, with a narrow space between thousands.
pub fn push_grouped(text: &mut String, number: u128) -> Result<(), AllocError>
    ensures { OnOk result (string_bytes text.new ≡ string_bytes text.old ++ spec.grouped number) }
{
    push_groups(text, 13, number)
}

// Adds a whole number, with spaces before so many of its last threes of digits.
#[tactic(auto, unfolding(crate::specs::Amounts::groups))]
fn push_groups(text: &mut String, count: u32, number: u128) -> Result<(), AllocError>
    ensures { OnOk result (string_bytes text.new ≡ string_bytes text.old ++ spec.groups count number) }
{
    if count == 0 || number < 1000 {
        return write!(text, "{number}");
    }
    push_groups(text, count - 1, number / 1000)?;
    write!(
        text,
        "\u{202f}{}{}{}",
        number / 100 % 10,
        number / 10 % 10,
        number % 10
    )
}
