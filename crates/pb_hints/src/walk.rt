//! Going over the records of a file, with where each begins.
use crate::lines::is_line_end;
use csv::{ErrorKind, Reader, ReaderBuilder, StringRecord};
use pb_records::{Next, is_blank};
use std::alloc::{AllocError, Global};

/// A place between the records of a file. It is that of a `Cursor`; but `csv` alone reads here, since it tells where each
/// record begins.
#[derive(Drop)]
pub(crate) struct Walk<'a> {
    /// The file without the byte order marks at its start.
    pub text: &'a [u8],
    reader: Box<Reader<&'a [u8]>>,
    row: StringRecord,
    record_number: u64,
    met: Next,
}

const MARK: [u8; 3] = [0xEF, 0xBB, 0xBF];

/// A file without the byte order marks at its start.
fn without_marks(bytes: &[u8]) -> &[u8] {
    let mut text = bytes;
    for _ in 0..bytes.len() {
        match text.strip_prefix(&MARK) {
            Some(rest) => text = rest,
            None => break,
        }
    }
    text
}

impl<'a> Walk<'a> {
    /// Before the first record of a file whose fields are divided by the delimiter.
    pub fn open(alloc: Global, bytes: &'a [u8], delimiter: u8) -> Result<Walk<'a>, AllocError> {
        let text = without_marks(bytes);
        let reader = ReaderBuilder::new()
            .has_headers(false)
            .flexible(true)
            .delimiter(delimiter)
            .from_reader(alloc, text);
        Ok(Walk {
            text,
            reader: Box::new(alloc, reader)?,
            row: StringRecord::new(alloc),
            record_number: 0,
            met: Next::End,
        })
    }

    /// Goes behind the next record that isn't blank, and tells whether it is one before this place.
    pub fn advance_before(&mut self, record_number: u64) -> Result<bool, AllocError> {
        self.met = self.advance()?;
        Ok(self.met == Next::Record && self.record_number < record_number)
    }

    fn advance(&mut self) -> Result<Next, AllocError> {
        // Each record has a byte at least.
        for _ in 0..=self.text.len() {
            let next = self.read()?;
            if next != Next::End {
                self.record_number = self.record_number.saturating_add(1);
            }
            if next != Next::Record || !is_blank(&self.row) {
                return Ok(next);
            }
        }
        Ok(Next::End)
    }

    fn read(&mut self) -> Result<Next, AllocError> {
        match self.reader.read_record(&mut self.row) {
            Ok(true) => Ok(Next::Record),
            Ok(false) => Ok(Next::End),
            Err(error) => match error.kind() {
                ErrorKind::Utf8 { .. } => Ok(Next::NotText),
                _ => Err(AllocError),
            },
        }
    }

    /// Whether what was met last is at this place: a record, or the end of the file, which has the place after the last
    /// record.
    pub fn is_at(&self, record_number: u64) -> bool {
        match self.met {
            Next::End => self.record_number.checked_add(1) == Some(record_number),
            Next::Record | Next::NotText => self.record_number == record_number,
        }
    }

    /// Whether the end of the file was met.
    pub fn is_end(&self) -> bool {
        self.met == Next::End
    }

    /// The record that was met last, where it is text.
    pub fn row(&self) -> &StringRecord {
        &self.row
    }

    /// Where the record that was met last begins: how many bytes of the text stand before it.
    pub fn start(&self) -> usize {
        let behind = match self.row.position() {
            Some(position) => position.byte() as usize,
            None => 0,
        };
        // Line ends behind the record before are its end, and empty lines.
        let rest = self.text.get(behind..).unwrap_or(&[]);
        let ends = rest.iter().take_while(|byte| is_line_end(**byte)).count();
        behind.saturating_add(ends)
    }
}
