//! Amounts of money.
ghost use Rattle.std.specs.Prelude.{◌≡◌, ◌≤◌, ◌<◌, ◌*◌, ◌-◌, ◌^◌, ℕ, length, IfOk, IfSome, IsTrue, Ok, is_some};
ghost use Rattle.std.specs.List.{before_first, after_first, position_or_len};
ghost use Rattle.std.specs.Str.{all_ascii_digits};
ghost use Rattle.pb_money.specs.Digits.{number_of};
ghost use Rattle.pb_money.specs.Money as spec;
ghost use Rattle.pb_money.specs.Money.{MoneyText, is_number, money_of, most_money};

use crate::digits::{are_digits, number_up_to};
use std::marker::Model;

/// The greatest amount, in whole units of the currency.
const MOST_UNITS: u64 = 1_000_000_000_000;

/// Millionths in a unit of the currency.
const MILLION: u64 = 1_000_000;

/// An amount of money, from 0 to 10^12 units of the currency, exact to a millionth. The default is zero.
#[derive(Clone, Copy, Debug, Default, PartialEq, Eq)]
pub struct Money {
    millionths: u64,
}

impl Model for Money {
    ghost use Rattle.std.specs.Prelude.{◌≤◌, ℕ};
    ghost use Rattle.pb_money.specs.Money.{most_money};

    ghost Value = { ℕ };

    ghost view = { λ m. m.millionths };

    ghost invariant = { λ m. m.millionths ≤ most_money };

    ghost inverse = { λ v. record { millionths = v } };
}

/// Why a text is no amount.
#[derive(Clone, Copy, Debug, PartialEq, Eq)]
pub enum MoneyFault {
    /// The text has no bytes.
    Empty,
    /// The text isn't digits, or digits, one `.` or `,`, and digits.
    NotNumber,
    /// More than six digits are left of the fraction once the zeros at its end are dropped.
    TooFine,
    /// The amount is more than 10^12.
    TooLarge,
}

fn is_mark(byte: u8) -> bool
    ensures { result ≡ spec.is_mark byte }
{
    byte == b'.' || byte == b','
}

/// The place of the mark, or the length of the text where there is none.
fn mark_place(text: &[u8]) -> usize
    ensures { result ≡ position_or_len spec.is_mark text.now }
{
    text.iter()
        .position(|byte| is_mark(*byte))
        .unwrap_or(text.len())
}

/// The digits in front of the mark and those behind it, of which there are none where there is no mark.
fn parts(text: &[u8]) -> Option<(&[u8], &[u8])>
    ensures number { is_some result ≡ is_number text.now }
    ensures whole { IfSome result (λ p. p.0.now ≡ before_first spec.is_mark text.now) }
    ensures fraction { IfSome result (λ p. p.1.now ≡ after_first spec.is_mark text.now) }
    ensures digits { IfSome result (λ p. IsTrue (all_ascii_digits p.0.now) × IsTrue (all_ascii_digits p.1.now)) }
{
    let place = mark_place(text);
    let whole = &text[..place];
    if !are_digits(whole) {
        return None;
    }
    if place == text.len() {
        return Some((whole, &[]));
    }
    let fraction = &text[place + 1..];
    are_digits(fraction).then_some((whole, fraction))
}

/// Digits without the zeros at their end.
fn without_last_zeros(digits: &[u8]) -> &[u8]
    ensures { result.now ≡ spec.without_last_zeros digits.now }
{
    let mut rest = digits;
    while let Some((last, front)) = rest.split_last() {
        if *last != b'0' {
            return rest;
        }
        rest = front;
    }
    rest
}

/// A fraction of at most six digits, in millionths.
fn fraction_millionths(fraction: &[u8]) -> u64
    requires digits { IsTrue (all_ascii_digits fraction.now) }
    requires fine { length fraction.now ≤ 6 }
    ensures value { result ≡ number_of fraction.now * 10 ^ (6 - length fraction.now) }
    ensures small { result < 10 ^ 6 }
{
    let mut millionths = 0;
    let mut unit = MILLION;
    for digit in fraction {
        unit /= 10;
        millionths += u64::from(*digit - b'0') * unit;
    }
    millionths
}

impl Money {
    /// The amount that a text states: one or more digits, then optionally one `.` or `,` followed by one or more
    /// digits. Zeros in front and at the end of the fraction don't matter. The text is to be cleaned first: a blank is
    /// `NotNumber`. Of the faults the first in their order is answered.
    #[tactic(auto, using(crate::proofs::Amounts::amount_faults))]
    pub fn read(text: &[u8]) -> Result<Money, MoneyFault>
        ensures found { IfOk result (λ v. MoneyText text.now v) }
        ensures only { (v : ℕ) → MoneyText text.now v → result ≡ Ok v }

        // The first fault, in the order of `money_of`.
        ensures exact { result ≡ money_of text.now }
    {
        if text.is_empty() {
            return Err(MoneyFault::Empty);
        }
        let Some((whole, fraction)) = parts(text) else {
            return Err(MoneyFault::NotNumber);
        };
        let fraction = without_last_zeros(fraction);
        if fraction.len() > 6 {
            return Err(MoneyFault::TooFine);
        }
        let Some(units) = number_up_to(whole, MOST_UNITS) else {
            return Err(MoneyFault::TooLarge);
        };
        let millionths = units * MILLION + fraction_millionths(fraction);
        if millionths > MOST_UNITS * MILLION {
            return Err(MoneyFault::TooLarge);
        }
        Ok(Money { millionths })
    }

    /// The amount in millionths, at most 10^18.
    pub fn millionths(&self) -> u64
        ensures value { result ≡ self.now }
        ensures small { result ≤ most_money }
    {
        self.millionths
    }
}
