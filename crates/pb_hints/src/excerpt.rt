//! What stands in a file, as it is shown to a person.
use pb_visible::{is_hidden, push_number};
use std::alloc::{AllocError, Global};

/// How many characters are shown.
const MOST_SHOWN: usize = 60;

/// No more bytes than these are looked at: a character has at most four.
const MOST_BYTES: usize = 4 * (MOST_SHOWN + 1);

/// An excerpt of some bytes between quotes.
pub(crate) fn quoted(alloc: Global, bytes: &[u8]) -> Result<String, AllocError> {
    let mut text = String::new(alloc);
    push_quoted(&mut text, bytes)?;
    Ok(text)
}

/// Adds an excerpt between quotes: at most 60 characters, and dots where there are more. Characters that can't be seen,
/// joiners too, are shown by their numbers, and so are bytes that aren't UTF-8.
pub fn push_quoted(text: &mut String, bytes: &[u8]) -> Result<(), AllocError> {
    text.push('\'')?;
    push_excerpt(text, bytes)?;
    text.push('\'')?;
    Ok(())
}

fn push_excerpt(text: &mut String, bytes: &[u8]) -> Result<(), AllocError> {
    let front = bytes.get(..MOST_BYTES).unwrap_or(bytes);
    let mut room = MOST_SHOWN;
    for chunk in front.utf8_chunks() {
        for letter in chunk.valid().chars() {
            if room == 0 {
                return text.push_str("...");
            }
            room -= 1;
            push_letter(text, letter)?;
        }
        for byte in chunk.invalid() {
            if room == 0 {
                return text.push_str("...");
            }
            room -= 1;
            write!(text, "\\x{byte:02x}")?;
        }
    }
    Ok(())
}

/// Adds all of a text, with the characters that can't be seen shown by their numbers.
pub fn push_shown(text: &mut String, shown: &str) -> Result<(), AllocError> {
    for letter in shown.chars() {
        push_letter(text, letter)?;
    }
    Ok(())
}

fn push_letter(text: &mut String, letter: char) -> Result<(), AllocError> {
    match letter {
        '\t' => text.push_str("\\t"),
        '\n' => text.push_str("\\n"),
        '\r' => text.push_str("\\r"),
        _ if is_hidden(letter) => push_number(text, letter),
        _ => text.push(letter),
    }
}
