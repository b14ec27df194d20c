//! Names and words as they are written on a terminal.
use pb_visible::is_hidden;
use std::io::Write;

/// Writes a text with U+FFFD for each of its characters that can't be seen, the ends of lines aside. What isn't taken is
/// lost.
pub fn tell_seen<W: Write>(out: &mut W, text: &str) {
    for (place, piece) in text.split(|c: char| c != '\n' && is_hidden(c)).enumerate() {
        if place > 0 {
            let _ = out.write_all("\u{fffd}".as_bytes());
        }
        let _ = out.write_all(piece.as_bytes());
    }
}
