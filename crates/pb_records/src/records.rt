//! The records of a file, one at a time.
ghost use Rattle.std.specs.Prelude.{◌≡◌, ◌<◌, ◌^◌, [], length, IfOk, MatchOption, OnErr};
ghost use Rattle.csv.specs.Records.{fields_of};
ghost use Rattle.csv.specs.Reading.{records, strip_bom};
ghost use Rattle.pb_records.specs.Records.{csv_settings, drop_marks, records_of};
ghost use Rattle.pb_records.specs.Inside.Lines.{lines_left};
ghost use Rattle.pb_records.specs.Inside.RecordReader.{FindsRecord, FindsTriple, IsReady, Reads, ReadsOne, Stands, reader_left, records_left};

use crate::lines::{Triple, behind_feed, fill, first_triple};
use csv::{ErrorKind, Reader, ReaderBuilder, StringRecord};
use std::alloc::{AllocError, Global};
use std::marker::Model;
use std::{mem, str};

/// What was met where the next record was to come.
#[derive(Clone, Copy, Debug, PartialEq, Eq)]
pub enum Next {
    /// A record, each of whose fields is UTF-8.
    Record,
    /// A record that is not UTF-8.
    NotText,
    /// The end of the file.
    End,
}

/// What is left of a file.
#[derive(Drop)]
enum Rest<'a> {
    /// Lines whose fields are separated by commas, which no reader has begun to read.
    Lines(&'a str),
    /// A text that no reader has begun to read, and the byte that separates its fields.
    Text(&'a [u8], u8),
    /// A reader that stands between two records. It is about 16 KiB large.
    Reader(Box<Reader<&'a [u8]>>),
    /// No records.
    Nothing,
}

/// The records that a file has yet to give. After a record that is not UTF-8 it gives none.
///
/// Where the fields are separated by commas, plain lines are cut out of the text. The first record that is none is left
/// to a reader of csv, and so are all records behind it. The reader is made when the first record is read by it.
#[derive(Drop)]
pub(crate) struct Records<'a> {
    alloc: Global,
    rest: Rest<'a>,
    // How many more lines may be copied into a row, which costs more than the reader where fields are short.
    copies: u32,
}

impl<'a> Model for Records<'a> {
    ghost use Rattle.std.specs.Prelude.{List, ℕ};
    ghost use Rattle.pb_records.specs.Inside.RecordReader.{IsReady, records_left};

    ghost Value = { List (List (List ℕ)) };

    ghost view = { λ a. records_left a.rest };

    ghost invariant = { λ a. IsReady a.rest };
}

/// How many lines are copied into a row before the reader takes over.
const MOST_COPIES: u32 = 64;

// The bytes of a byte order mark.
const MARK: [u8; 3] = [0xEF, 0xBB, 0xBF];

// The file after any byte order marks.
fn after_marks(bytes: &[u8]) -> &[u8]
    ensures { result.now ≡ drop_marks bytes.now }
{
    let mut text = bytes;
    while let Some(rest) = text.strip_prefix(&MARK) {
        text = rest;
    }
    text
}

// What is left of a text at first. It is cut into lines where commas divide the fields and the text is UTF-8.
fn rest_of(text: &[u8], delimiter: u8) -> Rest<'_>
    requires { strip_bom text.now ≡ text.now }
    ensures records { records_left result ≡ records (csv_settings delimiter) text.now }
    ensures ready { IsReady result }
{
    if delimiter == b',' {
        if let Ok(lines) = str::from_utf8(text) {
            return Rest::Lines(lines);
        }
    }
    Rest::Text(text, delimiter)
}

// A reader of the records of a text that begins with no byte order mark. It is made out of line, so that no other call
// has room for one on its stack.
#[cold]
#[inline(never)]
fn reader_of(alloc: Global, text: &[u8], delimiter: u8) -> Result<Box<Reader<&[u8]>>, AllocError>
    requires { strip_bom text.now ≡ text.now }
    ensures stands { IfOk result (λ reader. Stands reader.value) }
    ensures records { IfOk result (λ reader. reader_left reader.value ≡ records (csv_settings delimiter) text.now) }
{
    let reader = ReaderBuilder::new()
        .has_headers(false)
        .flexible(true)
        .delimiter(delimiter)
        .from_reader(alloc, text);
    Ok(Box::new(alloc, reader)?)
}

// Reads the next record of a reader into the row, and answers what was met. Behind a record the reader stands ready.
fn next_of(reader: &mut Reader<&[u8]>, row: &mut StringRecord) -> Result<Next, AllocError>
    requires { Stands reader.old }
    ensures { IfOk result (λ next. ReadsOne next reader.old (fields_of row.new) reader.new) }
{
    match reader.read_record(row) {
        Ok(true) => Ok(Next::Record),
        Ok(false) => Ok(Next::End),
        Err(error) => match error.kind() {
            ErrorKind::Utf8 { .. } => Ok(Next::NotText),
            _ => Err(AllocError),
        },
    }
}

// The same for a reader that is new, with what is left then.
fn begin<'a>(
    mut reader: Box<Reader<&'a [u8]>>,
    row: &mut StringRecord,
) -> Result<(Next, Rest<'a>), AllocError>
    requires { Stands reader.value }
    ensures { IfOk result (λ read. Reads read.0 (reader_left reader.entry.value) (fields_of row.new) read.1) }
{
    let next = next_of(&mut reader, row)?;
    let rest = match next {
        Next::Record => Rest::Reader(reader),
        _ => Rest::Nothing,
    };
    Ok((next, rest))
}

// The same for lines. The first is cut out, where it is plain and may be copied; else a reader begins there.
fn read_line<'a>(
    lines: &'a str,
    alloc: Global,
    may_copy: bool,
    row: &mut StringRecord,
) -> Result<(Next, Rest<'a>), AllocError>
    requires { strip_bom lines.now ≡ lines.now }
    ensures { IfOk result (λ read. Reads read.0 (lines_left lines.now) (fields_of row.new) read.1) }
{
    if behind_feed(lines).is_empty() {
        return Ok((Next::End, Rest::Nothing));
    }
    match fill(lines, may_copy, row)? {
        Some(rest) => Ok((Next::Record, Rest::Lines(rest))),
        None => begin(reader_of(alloc, lines.as_bytes(), b',')?, row),
    }
}

impl<'a> Rest<'a> {
    // Reads the next record into the row where no reader has begun, and answers what is left then.
    fn begin(
        self,
        alloc: Global,
        may_copy: bool,
        row: &mut StringRecord,
    ) -> Result<(Next, Rest<'a>), AllocError>
        requires { IsReady self }
        ensures { IfOk result (λ read. Reads read.0 (records_left self.entry) (fields_of row.new) read.1) }
    {
        match self {
            Rest::Lines(lines) => read_line(lines, alloc, may_copy, row),
            Rest::Text(text, delimiter) => begin(reader_of(alloc, text, delimiter)?, row),
            Rest::Reader(reader) => begin(reader, row),
            Rest::Nothing => Ok((Next::End, Rest::Nothing)),
        }
    }
}

impl<'a> Records<'a> {
    /// The records of a file whose fields are separated by the delimiter.
    pub fn open(alloc: Global, bytes: &'a [u8], delimiter: u8) -> Records<'a>
        ensures records { result ≡ records_of delimiter bytes.now }
        ensures few { length result < 2 ^ 63 }
    {
        Records {
            alloc,
            rest: rest_of(after_marks(bytes), delimiter),
            copies: MOST_COPIES,
        }
    }

    /// Reads the next record into the row, if there is one and it is UTF-8. After an error no record is left.
    pub fn read(&mut self, row: &mut StringRecord) -> Result<Next, AllocError>
        ensures found { IfOk result (λ next. FindsRecord next self.old (fields_of row.new) self.new) }
        ensures failed { OnErr result (self.new ≡ []) }
    {
        if let Rest::Reader(reader) = &mut self.rest {
            let next = next_of(reader, row);
            if !matches!(next, Ok(Next::Record)) {
                self.rest = Rest::Nothing;
            }
            return next;
        }
        let may_copy = self.copies > 0;
        self.copies = self.copies.saturating_sub(1);
        let rest = mem::replace(&mut self.rest, Rest::Nothing);
        let (next, rest) = rest.begin(self.alloc, may_copy, row)?;
        self.rest = rest;
        Ok(next)
    }

    /// Gives the next record and goes behind it, where it is a plain line of three fields, the first and the last of
    /// which are whole numbers of up to eighteen digits. Else nothing changes.
    pub fn take_triple(&mut self) -> Option<Triple<'a>>
        ensures { MatchOption result (self.new ≡ self.old) (λ triple. FindsTriple triple self.old self.new) }
    {
        let Rest::Lines(lines) = self.rest else {
            return None;
        };
        let (triple, rest) = first_triple(lines)?;
        self.rest = Rest::Lines(rest);
        Some(triple)
    }
}
