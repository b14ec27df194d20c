//! Where a file is refused, and what stands there.
use crate::FileKind;
use crate::excerpt::quoted;
use crate::lines::{last_line, line_at, rest_of_line};
use crate::oddity::Oddity;
use crate::quotes::quote_remark;
use crate::remark::Remark;
use crate::story::Story;
use crate::walk::Walk;
use csv::StringRecord;
use pb_records::cell;
use std::alloc::{AllocError, Global};

/// How many bytes of a field are shown before the one that isn't UTF-8.
const MOST_BEFORE: usize = 40;

/// The record at which a file is refused, or its end.
#[derive(Drop)]
pub(crate) struct Scene<'a> {
    pub alloc: Global,
    pub kind: FileKind,
    /// The place of the record, from 1.
    pub record_number: u64,
    /// What stands before.
    pub story: Story,
    /// The election beside which the file is read, where its bytes are there.
    pub election: Option<&'a [u8]>,
    /// At the record, or at the end.
    walk: Walk<'a>,
}

impl<'a> Scene<'a> {
    /// The record at a place, from 1. None where the file has no such place.
    pub fn open(
        alloc: Global,
        kind: FileKind,
        record_number: u64,
        file: &'a [u8],
        election: Option<&'a [u8]>,
    ) -> Result<Option<Scene<'a>>, AllocError> {
        let mut walk = Walk::open(alloc, file, kind.delimiter())?;
        let mut story = Story::new(alloc, kind);
        for _ in 0..record_number {
            if !walk.advance_before(record_number)? {
                break;
            }
            story.take(walk.row(), walk.start())?;
        }
        if !walk.is_at(record_number) {
            return Ok(None);
        }
        Ok(Some(Scene {
            alloc,
            kind,
            record_number,
            story,
            election,
            walk,
        }))
    }

    /// The file without byte order marks.
    pub fn file(&self) -> &[u8] {
        self.walk.text
    }

    /// Whether the file ends here.
    pub fn is_end(&self) -> bool {
        self.walk.is_end()
    }

    /// The record.
    pub fn row(&self) -> &StringRecord {
        self.walk.row()
    }

    /// A field of the record, cleaned, from 0.
    pub fn field(&self, place: usize) -> &str {
        cell(self.walk.row(), place)
    }

    /// The line at which the record begins, from 1. None at the end.
    pub fn line(&self) -> Option<u64> {
        match self.is_end() {
            true => None,
            false => Some(self.line_of(self.walk.start())),
        }
    }

    /// The line on which the byte at this place stands, from 1.
    pub fn line_of(&self, start: usize) -> u64 {
        line_at(self.walk.text, start)
    }

    /// A sentence of these words.
    pub fn text(&self, words: &str) -> Result<String, AllocError> {
        String::from_str(self.alloc, words)
    }

    /// Words, and behind them a field.
    pub fn with(&self, words: &str, field: &str) -> Result<String, AllocError> {
        let field = self.quoted(field)?;
        format!(in self.alloc; "{words}{field}")
    }

    /// A field between quotes.
    pub fn quoted(&self, field: &str) -> Result<String, AllocError> {
        quoted(self.alloc, field.as_bytes())
    }

    /// The line on which the record begins, between quotes.
    pub fn quoted_line(&self) -> Result<String, AllocError> {
        quoted(self.alloc, rest_of_line(self.walk.text, self.walk.start()))
    }

    /// The sentence on a record that isn't UTF-8.
    pub fn not_utf8(&self) -> Result<String, AllocError> {
        let field = bad_field(self.walk.text, self.walk.start(), self.kind.delimiter());
        let field = quoted(self.alloc, field)?;
        format!(in self.alloc; "the text isn't UTF-8: {field}")
    }

    /// The sentence on a file that ends where this is wanted.
    pub fn ends_before(&self, wanted: &str) -> Result<String, AllocError> {
        if self.story.records == 0 {
            return format!(in self.alloc; "the file is blank; {wanted} is missing");
        }
        let line = last_line(self.walk.text);
        format!(in self.alloc; "the file ends at line {line}; {wanted} is missing")
    }

    /// The sentence on what an earlier row has already, where that begins.
    pub fn duplicate(
        &self,
        words: &str,
        field: &str,
        first: Option<usize>,
    ) -> Result<String, AllocError> {
        let sentence = self.with(words, field)?;
        let Some(start) = first else {
            return Ok(sentence);
        };
        let line = self.line_of(start);
        format!(in self.alloc; "{sentence} is already on line {line}")
    }

    /// The remark on the whole file of these words.
    pub fn remark(&self, words: &str) -> Result<Option<Remark>, AllocError> {
        Ok(Some(Remark::new(self.alloc, None, words)?))
    }

    /// The remark on the record, where it seems to be meant as something else.
    pub fn odd(&self, oddity: Option<Oddity>) -> Result<Option<Remark>, AllocError> {
        match (oddity, self.line()) {
            (Some(oddity), Some(line)) => self.odd_at(line, oddity),
            _ => Ok(None),
        }
    }

    /// The remark on the first row of the section that seems to be meant as something else.
    pub fn odd_before(&self) -> Result<Option<Remark>, AllocError> {
        match self.story.odd {
            Some((start, oddity)) => self.odd_at(self.line_of(start), oddity),
            None => Ok(None),
        }
    }

    fn odd_at(&self, line: u64, oddity: Oddity) -> Result<Option<Remark>, AllocError> {
        let sentence = oddity.sentence(self.alloc, self.kind.delimiter())?;
        Ok(Some(Remark {
            line: Some(line),
            sentence,
        }))
    }

    /// The remark on a long quote of the record, or where the file ends of the last one.
    pub fn quote_here(&self) -> Result<Option<Remark>, AllocError> {
        match self.is_end() {
            true => self.quote_at(self.story.last),
            false => self.quote_at(self.walk.start()),
        }
    }

    /// The remark on the last record before whose quotes seem to hold others.
    pub fn quote_before(&self) -> Result<Option<Remark>, AllocError> {
        match self.story.swallower {
            Some(start) => self.quote_at(start),
            None => Ok(None),
        }
    }

    fn quote_at(&self, start: usize) -> Result<Option<Remark>, AllocError> {
        quote_remark(self.alloc, self.walk.text, start, self.kind.delimiter())
    }
}

/// The field with the first byte that isn't UTF-8 from a place on; only from that byte on where much stands before it.
fn bad_field(file: &[u8], start: usize, delimiter: u8) -> &[u8] {
    let line = rest_of_line(file, start);
    for field in line.split(|byte| *byte == delimiter) {
        if let Err(error) = str::from_utf8(field) {
            let place = error.valid_up_to();
            return match field.get(place..) {
                Some(rest) if place > MOST_BEFORE => rest,
                _ => field,
            };
        }
    }
    line
}
