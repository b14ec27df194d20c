//! SHA-256 sums as texts.
ghost use Rattle.std.specs.Prelude.{◌≡◌, ◌<◌, ◌++◌, ◌∷◌, [], IfOk, OnOk, length, string_bytes};
ghost use Rattle.pb_page.specs.Sums as spec;
ghost use Rattle.pb_page.specs.Sums.{sum_text};

use sha2::{Digest, Sha256};
use std::alloc::{AllocError, Global};

const DIGITS: [char; 16] = [
    '0', '1', '2', '3', '4', '5', '6', '7', '8', '9', 'a', 'b', 'c', 'd', 'e', 'f',
];

/// The SHA-256 of some bytes, as 64 hexadecimal digits.
pub fn sum_of(alloc: Global, bytes: &[u8]) -> Result<String, AllocError>
    ensures text { IfOk result (λ text. string_bytes text ≡ sum_text bytes.now) }
    ensures digits { IfOk result (λ text. length (string_bytes text) ≡ 64) }
{
    let sum = Sha256::digest(bytes);
    let mut text = String::new(alloc);
    for byte in sum {
        push_digit(&mut text, byte / 16)?;
        push_digit(&mut text, byte % 16)?;
    }
    Ok(text)
}

// Adds a hexadecimal digit.
fn push_digit(text: &mut String, digit: u8) -> Result<(), AllocError>
    requires { digit < 16 }
    ensures { OnOk result (string_bytes text.new ≡ string_bytes text.old ++ spec.digit digit ∷ []) }
{
    text.push(DIGITS[digit as usize])
}
