//! The lines of a text, as a person counts them: each ends at LF, CR or CRLF, also inside quotes.

pub(crate) fn is_line_end(byte: u8) -> bool {
    byte == b'\n' || byte == b'\r'
}

/// The line in which the byte at this place stands, from 1.
pub(crate) fn line_at(text: &[u8], place: usize) -> u64 {
    let mut line = 1u64;
    let mut is_behind_cr = false;
    for byte in text.iter().take(place) {
        if *byte == b'\r' || (*byte == b'\n' && !is_behind_cr) {
            line = line.saturating_add(1);
        }
        is_behind_cr = *byte == b'\r';
    }
    line
}

/// The last line of a text that isn't empty, from 1.
pub(crate) fn last_line(text: &[u8]) -> u64 {
    let line = line_at(text, text.len());
    match text.last() {
        Some(byte) if is_line_end(*byte) => line.saturating_sub(1),
        _ => line,
    }
}

/// What stands from a place to the end of its line.
pub(crate) fn rest_of_line(text: &[u8], place: usize) -> &[u8] {
    let Some(rest) = text.get(place..) else {
        return &[];
    };
    match rest.iter().position(|byte| is_line_end(*byte)) {
        Some(end) => &rest[..end],
        None => rest,
    }
}
