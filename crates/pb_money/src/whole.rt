//! Whole numbers.
ghost use Rattle.std.specs.Prelude.{◌≡◌, ◌≤◌, ◌^◌, ℕ, IfOk, Ok};
ghost use Rattle.pb_money.specs.Whole.{WholeText, whole_of};

use crate::digits::{are_digits, long_number_up_to, short_number};

/// Why a text is no whole number up to the greatest that is wanted.
#[derive(Clone, Copy, Debug, PartialEq, Eq)]
pub enum WholeFault {
    /// The text has no bytes.
    Empty,
    /// The text has a byte that is no digit.
    NotDigits,
    /// The number is more than the greatest that is wanted.
    TooLarge,
}

/// The whole number that a text states, if it is at most `most`: one or more digits, of which any number in front may
/// be zeros. The text is to be cleaned first: a blank is `NotDigits`. Of the faults the first in their order is
/// answered.
pub fn read_whole(text: &[u8], most: u128) -> Result<u128, WholeFault>
    requires { most ≤ 10 ^ 21 }
    ensures found { IfOk result (λ n. WholeText text.now n × (n ≤ most)) }
    ensures only { (n : ℕ) → WholeText text.now n → n ≤ most → result ≡ Ok n }

    // The first fault, in the order of `whole_of`.
    ensures exact { result ≡ whole_of most text.now }
{
    if text.is_empty() {
        return Err(WholeFault::Empty);
    }
    let number = match short_number(text) {
        Some(short) => (short <= most).then_some(short),
        None if !are_digits(text) => return Err(WholeFault::NotDigits),
        None => long_number_up_to(text, most),
    };
    number.ok_or(WholeFault::TooLarge)
}
