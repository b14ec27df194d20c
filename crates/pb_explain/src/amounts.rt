//! Amounts as texts. They are exact: what no decimal of six places states is told as a fraction.
ghost use Rattle.std.specs.Prelude.{◌≡◌, ◌<◌, Some};
ghost use Rattle.std.specs.Fmt.{DisplaysOnOk};
ghost use Rattle.pb_explain.specs.Amounts as spec;

use std::fmt;
use std::marker::Model;

/// How many millionths a unit of the currency has.
pub(crate) const MILLION: u64 = 1_000_000;

/// An amount in grains, of which one unit of the currency has so many, a million at least. It is written in units.
#[derive(Clone, Copy)]
pub(crate) struct Amount(pub(crate) u64, pub(crate) u128);

impl Model for Amount {
    ghost use Rattle.std.specs.Prelude.{◌≤◌, ◌^◌, ℕ};

    ghost Value = { ℕ × ℕ };

    ghost view = { λ a. (a.0, a.1) };

    ghost invariant = { λ a. 10 ^ 6 ≤ a.0 };

    ghost inverse = { λ a. (a.0, a.1) };
}

impl fmt::Display for Amount {
    ghost use Rattle.std.specs.Prelude.{Some};
    ghost use Rattle.pb_explain.specs.Amounts.{amount};

    ghost output = { λ a. Some (amount a.0 a.1) };

    #[tactic(auto, unfolding(crate::specs::Amounts::amount))]
    fn fmt<W: fmt::Write>(&self, f: &mut fmt::Formatter<W>) -> fmt::Result {
        let (unit, grains) = (self.0, self.1);
        let denominator = u128::from(unit / MILLION);
        if grains % denominator == 0 {
            write_decimal(f, grains / denominator)
        } else {
            write_mixed(f, u128::from(unit), grains)
        }
    }
}

/// An amount that may be negative.
#[derive(Clone, Copy)]
pub(crate) struct Balance(pub(crate) u64, pub(crate) i128);

impl Model for Balance {
    ghost use Rattle.std.specs.Prelude.{◌≤◌, ◌^◌, ℕ, ℤ};

    ghost Value = { ℕ × ℤ };

    ghost view = { λ b. (b.0, b.1) };

    ghost invariant = { λ b. 10 ^ 6 ≤ b.0 };

    ghost inverse = { λ b. (b.0, b.1) };
}

impl fmt::Display for Balance {
    ghost use Rattle.std.specs.Prelude.{Some};
    ghost use Rattle.pb_explain.specs.Amounts.{balance};

    ghost output = { λ b. Some (balance b.0 b.1) };

    #[tactic(auto, unfolding(crate::specs::Amounts::balance))]
    fn fmt<W: fmt::Write>(&self, f: &mut fmt::Formatter<W>) -> fmt::Result {
        let (unit, grains) = (self.0, self.1);
        let sign = if grains < 0 { "-" } else { "" };
        let amount = Amount(unit, grains.unsigned_abs());
        write!(f, "{sign}{amount}")
    }
}

// Writes millionths of a unit as a decimal.
fn write_decimal<W: fmt::Write>(f: &mut fmt::Formatter<W>, millionths: u128) -> fmt::Result
    ensures { DisplaysOnOk W.write_str_gives f.old result (Some (spec.decimal_amount millionths)) f.new }
{
    let million = u128::from(MILLION);
    write!(f, "{}.", millionths / million)?;
    write_places(f, millionths % million)
}

// Writes the places behind the point.
fn write_places<W: fmt::Write>(f: &mut fmt::Formatter<W>, millionths: u128) -> fmt::Result
    ensures { DisplaysOnOk W.write_str_gives f.old result (Some (spec.places millionths)) f.new }
{
    if millionths % 10_000 == 0 {
        write_digits(f, 2, millionths / 10_000)
    } else if millionths % 1_000 == 0 {
        write_digits(f, 3, millionths / 1_000)
    } else if millionths % 100 == 0 {
        write_digits(f, 4, millionths / 100)
    } else if millionths % 10 == 0 {
        write_digits(f, 5, millionths / 10)
    } else {
        write_digits(f, 6, millionths)
    }
}

// Writes the last digits of a number.
#[tactic(auto, unfolding(crate::specs::Amounts::last_digits))]
fn write_digits<W: fmt::Write>(f: &mut fmt::Formatter<W>, count: u32, number: u128) -> fmt::Result
    ensures { DisplaysOnOk W.write_str_gives f.old result (Some (spec.last_digits count number)) f.new }
{
    if count == 0 {
        return Ok(());
    }
    write_digits(f, count - 1, number / 10)?;
    write!(f, "{}", number % 10)
}

// Writes a whole number of units, where there is one, and a fraction of a unit in lowest terms.
fn write_mixed<W: fmt::Write>(f: &mut fmt::Formatter<W>, unit: u128, grains: u128) -> fmt::Result
    requires { 0 < unit }
    ensures { DisplaysOnOk W.write_str_gives f.old result (Some (spec.mixed_number unit grains)) f.new }
{
    let whole = grains / unit;
    let rest = grains % unit;
    let divisor = greatest_common_divisor(rest, unit);
    if whole != 0 {
        write!(f, "{whole} ")?;
    }
    write!(f, "{}/{}", rest / divisor, unit / divisor)
}

// The greatest number that divides both, by Euclid's algorithm.
fn greatest_common_divisor(a: u128, b: u128) -> u128
    requires { 0 < b }
    ensures value { result ≡ spec.greatest_common_divisor a b }
    ensures positive { 0 < result }
{
    let mut x = a;
    let mut y = b;
    while y != 0 {
        let rest = x % y;
        x = y;
        y = rest;
    }
    x
}
