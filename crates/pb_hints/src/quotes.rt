//! Fields in quotes that go over the ends of their lines, which often causes what is reported elsewhere.
use crate::lines::{is_line_end, line_at};
use crate::remark::Remark;
use csv::StringRecord;
use std::alloc::{AllocError, Global};

/// Where a quote is opened, and where it is closed: how many bytes of the text stand before it.
#[derive(Clone, Copy)]
pub(crate) struct Quote {
    pub opened: usize,
    /// None where it holds the rest of the file.
    pub closed: Option<usize>,
}

/// Where a reader of one record stands.
#[derive(Clone, Copy)]
enum Stand {
    /// At the start of a field.
    Field,
    /// Inside a field, not in quotes.
    Plain,
    /// In quotes that were opened here, and have held a line end or not.
    Quoted(usize, bool),
    /// Behind a quote inside these, which closes them unless another one follows.
    Behind(usize, bool),
}

/// The first field in quotes of a record that goes over the end of a line, or holds the rest of the text. The record
/// begins at `start`, and its fields are divided by the delimiter.
pub(crate) fn long_quote(text: &[u8], start: usize, delimiter: u8) -> Option<Quote> {
    let mut stand = Stand::Field;
    for (place, byte) in text.iter().enumerate().skip(start) {
        if let Stand::Behind(opened, true) = stand {
            if *byte != b'"' {
                return Some(Quote {
                    opened,
                    closed: Some(place.saturating_sub(1)),
                });
            }
        }
        stand = step(stand, place, *byte, delimiter)?;
    }
    match stand {
        Stand::Quoted(opened, _) => Some(Quote {
            opened,
            closed: None,
        }),
        Stand::Behind(opened, true) => Some(Quote {
            opened,
            closed: Some(text.len().saturating_sub(1)),
        }),
        _ => None,
    }
}

/// Where a reader stands behind one more byte, and none where that ends the record.
fn step(stand: Stand, place: usize, byte: u8, delimiter: u8) -> Option<Stand> {
    match stand {
        Stand::Quoted(opened, long) if byte == b'"' => Some(Stand::Behind(opened, long)),
        Stand::Quoted(opened, long) => Some(Stand::Quoted(opened, long || is_line_end(byte))),
        Stand::Behind(opened, long) if byte == b'"' => Some(Stand::Quoted(opened, long)),
        Stand::Field if byte == b'"' => Some(Stand::Quoted(place, false)),
        _ if is_line_end(byte) => None,
        _ if byte == delimiter => Some(Stand::Field),
        _ => Some(Stand::Plain),
    }
}

/// The remark on the first long quote of the record that begins at `start`, if it has one.
pub(crate) fn quote_remark(
    alloc: Global,
    file: &[u8],
    start: usize,
    delimiter: u8,
) -> Result<Option<Remark>, AllocError> {
    let Some(quote) = long_quote(file, start, delimiter) else {
        return Ok(None);
    };
    let line = line_at(file, quote.opened);
    let sentence = match quote.closed {
        Some(closed) => {
            let last = line_at(file, closed);
            format!(in alloc;
                "a quote is opened here and closed on line {last}, so lines {line} to {last} are one record"
            )?
        }
        None => format!(in alloc;
            "a quote is opened here and never closed, so the rest of the file is one record"
        )?,
    };
    Ok(Some(Remark {
        line: Some(line),
        sentence,
    }))
}

/// Whether a record seems to hold others in its quotes: in a field, what divides fields stands behind the end of a line.
pub(crate) fn swallows(row: &StringRecord, delimiter: u8) -> bool {
    row.iter()
        .any(|field| holds_records(field.as_bytes(), delimiter))
}

fn holds_records(field: &[u8], delimiter: u8) -> bool {
    match field.iter().position(|byte| is_line_end(*byte)) {
        Some(end) => field[end..].contains(&delimiter),
        None => false,
    }
}
