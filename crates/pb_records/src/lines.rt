//! Records that stand on lines of their own, with commas and without quotes, cut out of the text as it stands.
ghost use Rattle.std.specs.Prelude.{◌≡◌, ◌≤◌, ◌<◌, ◌++◌, ◌∷◌, true, take, length, IfOk, IfSome};
ghost use Rattle.std.specs.List.{list_all};
ghost use Rattle.std.specs.Str.{IsCharBoundary, IsUtf8};
ghost use Rattle.csv.specs.Records.{fields_of};
ghost use Rattle.pb_records.specs.Inside.Lines as spec;
ghost use Rattle.pb_records.specs.Inside.Lines.{CutsNumber, GivesLine, GivesTriple, IsLineEnd, lines_left};

use csv::StringRecord;
use pb_money::leading_number;
use std::alloc::AllocError;

/// A record of three fields, the first and the last of which are whole numbers of up to eighteen digits.
#[derive(Clone, Copy)]
pub struct Triple<'a> {
    pub first: u64,
    pub second: &'a str,
    pub third: u64,
}

/// A line with more fields is left to the reader of csv.
const MOST_FIELDS: usize = 8;

fn is_plain(byte: u8) -> bool
    ensures { result ≡ spec.is_plain byte }
{
    // Most bytes are above the comma, which one comparison tells.
    byte > b',' || !matches!(byte, b'\n' | b'\r' | b'"' | b',')
}

// How many plain bytes a text begins with.
fn plain_len(text: &str) -> usize
    ensures plain { list_all spec.is_plain (take result text.now) ≡ true }
    ensures bound { result ≤ length text.now }
    ensures boundary { IsCharBoundary text.now result }
{
    let bytes = text.as_bytes();
    let mut end = 0;
    while end < bytes.len() && is_plain(bytes[end]) {
        end += 1;
    }
    end
}

// The plain bytes that a text begins with, and the rest.
fn cut_field(text: &str) -> (&str, &str)
    ensures plain { list_all spec.is_plain result.0.now ≡ true }
    ensures cut { text.now ≡ result.0.now ++ result.1.now }
    ensures utf8 { IsUtf8 result.0.now × IsUtf8 result.1.now }
{
    let end = plain_len(text);
    (&text[..end], &text[end..])
}

// A text behind its first byte, where it is this one.
fn behind(text: &str, byte: u8) -> Option<&str>
    requires { byte < 128 }
    ensures cut { IfSome result (λ rest. text.now ≡ byte ∷ rest.now) }
    ensures utf8 { IfSome result (λ rest. IsUtf8 rest.now) }
{
    let bytes = text.as_bytes();
    if bytes.is_empty() || bytes[0] != byte {
        return None;
    }
    Some(&text[1..])
}

/// The lines without an empty one at the front, which the end of the line before leaves there. More are left to the
/// reader.
pub(crate) fn behind_feed(lines: &str) -> &str
    ensures { lines_left result.now ≡ lines_left lines.now }
{
    match behind(lines, b'\n') {
        Some(rest) => rest,
        None => lines,
    }
}

fn ends_line(rest: &str) -> bool
    ensures { result ≡ true → IsLineEnd rest.now }
{
    let bytes = rest.as_bytes();
    bytes.is_empty() || bytes[0] == b'\n'
}

// The whole number that a text begins with, and the rest.
fn cut_number(text: &str) -> Option<(u64, &str)>
    ensures { IfSome result (λ found. CutsNumber text.now found.0 found.1.now) }
{
    let (number, len) = leading_number(text.as_bytes())?;
    Some((number, &text[len..]))
}

/// The first record, where it is a plain line of three fields, the first and the last of which are whole numbers of up
/// to eighteen digits, and the lines behind it.
pub(crate) fn first_triple(lines: &str) -> Option<(Triple<'_>, &str)>
    ensures { IfSome result (λ found. GivesTriple lines.now found.0 found.1.now) }
{
    let (first, rest) = cut_number(behind_feed(lines))?;
    let (second, rest) = cut_field(behind(rest, b',')?);
    let (third, rest) = cut_number(behind(rest, b',')?)?;
    if !ends_line(rest) {
        return None;
    }
    let triple = Triple {
        first,
        second,
        third,
    };
    Some((triple, rest))
}

/// Puts the fields of the first record into the row, where that is allowed and it is a plain line of two fields or a
/// few more, and answers the lines behind it. Else the row is left open.
pub(crate) fn fill<'a>(
    lines: &'a str,
    allowed: bool,
    row: &mut StringRecord,
) -> Result<Option<&'a str>, AllocError>
    ensures { IfOk result (λ found. IfSome found (λ rest. GivesLine lines.now (fields_of row.new) rest.now)) }
{
    if !allowed {
        return Ok(None);
    }
    row.clear();
    let (first, rest) = cut_field(behind_feed(lines));
    row.push_field(first)?;
    let mut left = rest;
    while row.len() < MOST_FIELDS {
        let Some(more) = behind(left, b',') else {
            return Ok(None);
        };
        let (field, rest) = cut_field(more);
        row.push_field(field)?;
        if ends_line(rest) {
            return Ok(Some(rest));
        }
        left = rest;
    }
    Ok(None)
}
