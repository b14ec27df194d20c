//! The cells of a record, and whether it is blank.
ghost use Rattle.std.specs.Prelude.{◌≡◌, drop};
ghost use Rattle.pb_money.specs.Digits.{drop_back, drop_front};
ghost use Rattle.csv.specs.Records.{fields_of};
ghost use Rattle.pb_records.specs.Cells as spec;

use csv::StringRecord;

fn is_space(byte: u8) -> bool
    ensures { result ≡ spec.is_space byte }
{
    // Most bytes are above 32, which one comparison tells.
    byte <= 32 && matches!(byte, 9..=13 | 32)
}

fn clean_front(text: &str) -> &str
    ensures { result.now ≡ drop_front spec.is_space text.now }
{
    let bytes = text.as_bytes();
    let mut start = 0;
    while start < bytes.len() && is_space(bytes[start]) {
        start += 1;
    }
    &text[start..]
}

fn clean_back(text: &str) -> &str
    ensures { result.now ≡ drop_back spec.is_space text.now }
{
    let bytes = text.as_bytes();
    let mut end = bytes.len();
    while end > 0 && is_space(bytes[end - 1]) {
        end -= 1;
    }
    &text[..end]
}

/// A text without the bytes 9 to 13 and 32 at both ends. Those inside stay, as does any other space.
pub fn clean(text: &str) -> &str
    ensures { result.now ≡ spec.clean text.now }
{
    clean_back(clean_front(text))
}

/// The field of a record at place `i`, from 0, cleaned, and empty where there is none.
pub fn cell(row: &StringRecord, i: usize) -> &str
    ensures { result.now ≡ spec.cell i (fields_of row.now) }
{
    match row.get(i) {
        Some(field) => clean(field),
        None => "",
    }
}

/// Whether the fields of a record from a place on, counted from 0, are empty after cleaning.
pub fn is_blank_from(row: &StringRecord, start: usize) -> bool
    ensures { result ≡ spec.is_blank (drop start (fields_of row.now)) }
{
    let mut i = start;
    while let Some(field) = row.get(i) {
        if !clean_front(field).is_empty() {
            return false;
        }
        i += 1;
    }
    true
}

/// Whether each field of a record is empty after cleaning.
pub fn is_blank(row: &StringRecord) -> bool
    ensures { result ≡ spec.is_blank (fields_of row.now) }
{
    is_blank_from(row, 0)
}
