//! Files as records: loading, writing out, and the records one after another.
use csv::StringRecord;
use pb_records::{Cursor, Input, LoadFault, Next, Output, cell, clean, is_blank, load, put};
use std::process::Abort;
use std::test::Fail;

#[test]
fn load_takes_the_limit_and_no_byte_more(rt: HostRuntime) -> Result<(), Fail> {
    let alloc = rt.alloc();
    let loaded = load(alloc, &mut Input::new(b"abc".as_slice()), 3)?;
    assert!(rt; loaded.as_slice() == b"abc".as_slice());
    let longer = load(alloc, &mut Input::new(b"abcd".as_slice()), 3);
    assert!(rt; matches!(longer, Err(LoadFault::TooLong)));
    Ok(())
}

#[test]
fn put_writes_all_bytes(rt: HostRuntime) -> Result<(), Fail> {
    let mut bytes = Vec::new(rt.alloc());
    put(b"abc", &mut Output::new(&mut bytes))?;
    assert!(rt; bytes.as_slice() == b"abc".as_slice());
    Ok(())
}

/// A row of a text with blanks, an empty one and one of a blank is to have these cells, and not to be blank.
fn expect_cells(rt: &impl Abort, row: &StringRecord) {
    assert!(rt; cell(row, 0) == "a");
    assert!(rt; cell(row, 3) == "");
    assert!(rt; !is_blank(row));
}

#[test]
fn cleaning_takes_off_ascii_blanks_alone(rt: HostRuntime) -> Result<(), Fail> {
    for (text, want) in [
        ("\t\n\u{b}\u{c}\r a b \t\n\u{b}\u{c}\r ", "a b"),
        ("\u{a0}a\u{a0}", "\u{a0}a\u{a0}"),
        ("\u{8}a\u{1f}", "\u{8}a\u{1f}"),
        (" \t ", ""),
        ("", ""),
    ] {
        assert!(rt; clean(text) == want);
    }
    let row = StringRecord::from_fields(rt.alloc(), &[" a ", "", " "])?;
    expect_cells(&rt, &row);
    Ok(())
}

/// What comes next is to be this, at this place, and a record of these fields.
fn expect_next(
    rt: &impl Abort,
    cursor: &mut Cursor<'_>,
    want: Next,
    record_number: u64,
    fields: &[&str],
) -> Result<(), Fail> {
    assert!(rt; cursor.advance()? == want);
    assert!(rt; cursor.record_number() == record_number);
    for (number, field) in fields.iter().enumerate() {
        assert!(rt; cursor.row().get(number) == Some(*field), "{field}");
    }
    Ok(())
}

/// The first record and the third are to come, with two fields each, and then the end.
fn expect_two_records(rt: &impl Abort, cursor: &mut Cursor<'_>) -> Result<(), Fail> {
    assert!(rt; cursor.record_number() == 0);
    expect_next(rt, cursor, Next::Record, 1, &["a", "1"])?;
    assert!(rt; cursor.row().get(2) == None);
    expect_next(rt, cursor, Next::Record, 3, &["b\nc", "\"2\""])?;
    expect_next(rt, cursor, Next::End, 4, &[])?;
    expect_next(rt, cursor, Next::End, 4, &[])
}

#[test]
fn cursor_skips_blank_records_and_counts_them(rt: HostRuntime) -> Result<(), Fail> {
    let file = b"\xEF\xBB\xBFa,1\r\n\n ,\n\"b\nc\",\"\"\"2\"\"\"\n,,\n".as_slice();
    let mut cursor = Cursor::open(rt.alloc(), file, b',');
    expect_two_records(&rt, &mut cursor)
}

/// The second record is to be no text, and the last.
fn expect_no_text(rt: &impl Abort, cursor: &mut Cursor<'_>) -> Result<(), Fail> {
    expect_next(rt, cursor, Next::NotText, 2, &[])?;
    assert!(rt; cursor.advance()? == Next::End);
    Ok(())
}

#[test]
fn record_that_is_not_utf8_is_told_and_passed(rt: HostRuntime) -> Result<(), Fail> {
    let mut cursor = Cursor::open(rt.alloc(), b";\na;\xFF\nb\n".as_slice(), b';');
    expect_no_text(&rt, &mut cursor)
}
