//! Texts that others wrote, as they are shown.
ghost use Rattle.std.specs.Prelude.{◌≡◌, ◌++◌, IfOk, IsUtf8, OnOk, chars, encode_utf8_all, string_bytes};
ghost use Rattle.std.specs.Str.{NoCharPasses};
ghost use Rattle.std.specs.Str.Lossy.{utf8_lossy};
ghost use Rattle.pb_visible.specs.Hidden.{is_hidden};
ghost use Rattle.pb_visible.specs.Visible.{is_lost, number, shown, visible_chars};

use crate::hidden::is_hidden;
use crate::joiners::is_spelling;
use std::alloc::{AllocError, Global};

/// A text that others wrote, with each character that can't be seen, or that turns the order of what follows, as
/// its number, as `\u{202e}`. A joiner stays where it belongs to the letters or the emoji on both its sides. Bytes that
/// are no UTF-8 are the replacement character.
pub fn visible(alloc: Global, bytes: &[u8]) -> Result<String, AllocError>
    ensures text { IfOk result (λ t. string_bytes t ≡ encode_utf8_all (visible_chars (chars (utf8_lossy bytes.now)))) }
    ensures nothing_hidden { IfOk result (λ t. NoCharPasses is_lost (string_bytes t)) }
    ensures same { IfOk result (λ t. IsUtf8 bytes.now → NoCharPasses is_hidden bytes.now → string_bytes t ≡ bytes.now) }
{
    let given = String::from_utf8_lossy(alloc, bytes)?;
    visible_text(alloc, &given)
}

// Each character is written once the one behind it is known.
fn visible_text(alloc: Global, given: &str) -> Result<String, AllocError>
    ensures { IfOk result (λ t. string_bytes t ≡ encode_utf8_all (visible_chars (chars given.now))) }
{
    let mut text = String::new(alloc);
    let mut letters = given.chars();
    let Some(first) = letters.next() else {
        return Ok(text);
    };
    let (mut before, mut letter) = ('\0', first);
    for after in letters {
        push_shown(&mut text, before, letter, after)?;
        before = letter;
        letter = after;
    }
    push_shown(&mut text, before, letter, '\0')?;
    Ok(text)
}

// Adds a character that stands between two others.
#[tactic(auto, unfolding(crate::specs::Visible::shown))]
fn push_shown(text: &mut String, before: char, c: char, after: char) -> Result<(), AllocError>
    ensures { OnOk result (string_bytes text.new ≡ string_bytes text.old ++ encode_utf8_all (shown before c after)) }
{
    if is_hidden(c) && !is_spelling(before, c, after) {
        push_number(text, c)
    } else {
        text.push(c)
    }
}

/// Adds the number of a character, as `\u{202e}`.
#[tactic(auto, unfolding(crate::specs::Visible::number))]
pub fn push_number(text: &mut String, c: char) -> Result<(), AllocError>
    ensures { OnOk result (string_bytes text.new ≡ string_bytes text.old ++ number c) }
{
    let number = c as u32;
    write!(text, "\\u{{{number:x}}}")
}
