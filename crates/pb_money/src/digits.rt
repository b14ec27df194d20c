//! Numbers that are written in digits.
ghost use Rattle.std.specs.Prelude.{◌≡◌, ◌≤◌, ◌<◌, ◌^◌, IfSome, IsTrue, length, min, take};
ghost use Rattle.std.specs.Char.{is_ascii_digit};
ghost use Rattle.std.specs.List.{list_all, prefix_len};
ghost use Rattle.std.specs.Option.{option_map_or};
ghost use Rattle.std.specs.Str.{all_ascii_digits};
ghost use Rattle.pb_money.specs.Digits as spec;
ghost use Rattle.pb_money.specs.Whole.{WholeText};

/// As many digits always state a number of 64 bits.
const MOST_SHORT: usize = 18;

fn all_digits(text: &[u8]) -> bool
    ensures { result ≡ list_all is_ascii_digit text.now }
{
    text.iter().all(|byte| byte.is_ascii_digit())
}

/// Whether the text is one or more digits.
#[tactic(auto, using(crate::proofs::Numbers::digit_tests))]
pub(crate) fn are_digits(text: &[u8]) -> bool
    ensures { result ≡ spec.are_digits text.now }
{
    !text.is_empty() && all_digits(text)
}

/// The number that digits state, if it is at most `most`.
pub(crate) fn number_up_to(digits: &[u8], most: u64) -> Option<u64>
    requires digits { IsTrue (all_ascii_digits digits.now) }
    requires most { most ≤ 10 ^ 18 }
    ensures { result ≡ spec.up_to most (spec.number_of digits.now) }
{
    let mut number = 0u64;
    for digit in digits {
        if number > most {
            return None;
        }
        number = number * 10 + u64::from(*digit - b'0');
    }
    (number <= most).then_some(number)
}

/// The number that digits state, if it is at most `most`, in 128 bits.
pub(crate) fn long_number_up_to(digits: &[u8], most: u128) -> Option<u128>
    requires digits { IsTrue (all_ascii_digits digits.now) }
    requires most { most ≤ 10 ^ 21 }
    ensures { result ≡ spec.up_to most (spec.number_of digits.now) }
{
    let mut number = 0u128;
    for digit in digits {
        if number > most {
            return None;
        }
        number = number * 10 + u128::from(*digit - b'0');
    }
    (number <= most).then_some(number)
}

/// The whole number that the digits at the front of a text state, and how many these are, of which at most eighteen are
/// taken. None where the text doesn't begin with a digit.
pub fn leading_number(text: &[u8]) -> Option<(u64, usize)>
    ensures all { option_map_or (λ found. found.1) result 0 ≡ min (prefix_len is_ascii_digit text.now) 18 }
    ensures states { IfSome result (λ found. WholeText (take found.1 text.now) found.0) }
    ensures within { IfSome result (λ found. found.1 ≤ length text.now) }
    ensures small { IfSome result (λ found. found.0 < 10 ^ 18) }
{
    let most = text.len().min(MOST_SHORT);
    let mut number = 0u64;
    let mut len = 0;
    while len < most && text[len].is_ascii_digit() {
        number = number * 10 + u64::from(text[len] - b'0');
        len += 1;
    }
    if len == 0 {
        return None;
    }
    Some((number, len))
}

/// The number that a text of one to eighteen digits states, and none for any other text.
pub(crate) fn short_number(text: &[u8]) -> Option<u128>
    ensures { IfSome result (λ n. WholeText text.now n) }
{
    match leading_number(text) {
        Some((number, len)) if len == text.len() => Some(u128::from(number)),
        _ => None,
    }
}
