//! The kinds of files, and the records that each has.
ghost use Rattle.std.specs.Prelude.{◌≡◌, ◌∷◌, [], false, IfOk};
ghost use Rattle.csv.specs.Records.{fields_of};
ghost use Rattle.pb_certificate.specs.Faults.{certificate_records};
ghost use Rattle.pb_certificate.specs.Fields.{fields, same_fields};
ghost use Rattle.pb_hints.specs.Kinds as spec;
ghost use Rattle.pb_money.specs.Digits.{is_empty};
ghost use Rattle.pb_records.specs.Records.{election_records};

use csv::StringRecord;
use pb_election::{Section, marker_of};
use pb_records::{Cursor, Next, cell, is_blank_from};
use std::alloc::{AllocError, Global};

/// What a file is to be.
#[derive(Clone, Copy, PartialEq, Eq)]
pub enum FileKind {
    Election,
    Outcome,
    Prices,
    Violation,
    Refutation,
    /// A certificate of any kind, which its first record tells. A file with another first record is taken as prices.
    Certificate,
}

/// The first fields of files, and what these are.
const FIRST_FIELDS: [(&str, FileKind); 5] = [
    ("META", FileKind::Election),
    ("pb-outcome", FileKind::Outcome),
    ("pb-prices", FileKind::Prices),
    ("pb-violation", FileKind::Violation),
    ("pb-refutation", FileKind::Refutation),
];

impl FileKind {
    /// What a file is by its first record that isn't blank: an election where that marks META, and an outcome file or a
    /// certificate where it is the first record of one, as `pb-prices,1`. It is none of these where it is another, isn't
    /// UTF-8 or is missing. What follows it is not looked at. An error means out of memory.
    pub fn of_file(alloc: Global, bytes: &[u8]) -> Result<Option<FileKind>, AllocError>
        ensures { IfOk result (λ kind. kind ≡ spec.kind_of bytes.now) }
    {
        if begins_election(alloc, bytes)? {
            return Ok(Some(FileKind::Election));
        }
        kind_by_head(alloc, bytes)
    }

    /// What such a file is called, with its article.
    pub(crate) fn name(self) -> &'static str {
        match self {
            FileKind::Election => "an election",
            FileKind::Outcome => "an outcome file",
            FileKind::Prices => "a price certificate",
            FileKind::Violation => "a violation certificate",
            FileKind::Refutation => "a refutation",
            FileKind::Certificate => "a price or violation certificate, or a refutation",
        }
    }

    /// Whether a file of the kind `found` is one of these.
    pub(crate) fn has(self, found: FileKind) -> bool {
        match self {
            FileKind::Certificate => matches!(
                found,
                FileKind::Prices | FileKind::Violation | FileKind::Refutation
            ),
            _ => found == self,
        }
    }

    /// The kind of a file that begins with this field, or with one that ends at a comma or a semicolon in it.
    pub(crate) fn of_first(field: &str) -> Option<FileKind> {
        let name = field
            .split(|letter: char| letter == ',' || letter == ';')
            .next()?;
        let (_, kind) = FIRST_FIELDS.into_iter().find(|(first, _)| *first == name)?;
        Some(kind)
    }

    /// What divides the fields of such a file.
    pub(crate) fn delimiter(self) -> u8 {
        match self {
            FileKind::Election => b';',
            _ => b',',
        }
    }

    /// The record that such a certificate or outcome file has behind so many others, in its head.
    pub(crate) fn head_record(self, records: u64) -> &'static str {
        match (self, records) {
            (FileKind::Prices, 0) => "pb-prices,1",
            (FileKind::Prices, 1) => "denominator,D",
            (FileKind::Prices, 2) => "voter_budget,N",
            (FileKind::Prices, _) => "voter,project,payment",
            (FileKind::Violation, 0) => "pb-violation,1 or pb-violation,2",
            (FileKind::Violation, _) => "satisfaction,count or satisfaction,cost",
            (FileKind::Refutation, 0) => "pb-refutation,1",
            (FileKind::Refutation, 1) => "cover,WEIGHT",
            (FileKind::Refutation, _) => "role,project,weight",
            (FileKind::Outcome | FileKind::Election, _) => "pb-outcome,1",
            (FileKind::Certificate, _) => {
                "pb-prices,1, pb-violation,1, pb-violation,2 or pb-refutation,1"
            }
        }
    }

    /// A row of such a certificate or outcome file.
    pub(crate) fn row(self) -> &'static str {
        match self {
            FileKind::Prices | FileKind::Certificate => "VOTER,ID,NUMERATOR",
            FileKind::Violation => "project,ID or voter,NUMBER",
            FileKind::Refutation => "least,ID,WEIGHT, most,ID,WEIGHT or left,ID,WEIGHT",
            FileKind::Outcome | FileKind::Election => "project,ID",
        }
    }
}

// The reader of records takes some 30 KB of stack, which a caller is to have back.
#[inline(never)]
fn begins_election(alloc: Global, bytes: &[u8]) -> Result<bool, AllocError>
    ensures { IfOk result (λ begins. begins ≡ spec.begins_election (election_records bytes.now)) }
{
    let mut cursor = Cursor::open(alloc, bytes, b';');
    match cursor.advance()? {
        Next::Record => Ok(marks_meta(cursor.row())),
        Next::NotText | Next::End => Ok(false),
    }
}

#[inline(never)]
fn kind_by_head(alloc: Global, bytes: &[u8]) -> Result<Option<FileKind>, AllocError>
    ensures { IfOk result (λ kind. kind ≡ spec.kind_by_head (certificate_records bytes.now)) }
{
    let mut cursor = Cursor::open(alloc, bytes, b',');
    match cursor.advance()? {
        Next::Record => Ok(kind_named(cursor.row())),
        Next::NotText | Next::End => Ok(None),
    }
}

fn marks_meta(row: &StringRecord) -> bool
    ensures { result ≡ spec.marks_meta (fields_of row.now) }
{
    matches!(marker_of(row), Some(Section::Meta))
}

fn kind_named(head: &StringRecord) -> Option<FileKind>
    ensures { result ≡ spec.kind_named (fields_of head.now) }
{
    if is_pair(head, "pb-outcome", "1") {
        return Some(FileKind::Outcome);
    }
    if is_pair(head, "pb-prices", "1") {
        return Some(FileKind::Prices);
    }
    if is_pair(head, "pb-violation", "1") || is_pair(head, "pb-violation", "2") {
        return Some(FileKind::Violation);
    }
    if is_pair(head, "pb-refutation", "1") {
        return Some(FileKind::Refutation);
    }
    None
}

// Whether a record has these two fields, the second of which isn't empty, and no more.
#[tactic(auto, using(crate::proofs::Pairs::two_fields))]
fn is_pair(row: &StringRecord, first: &str, second: &str) -> bool
    requires { is_empty second.now ≡ false }
    ensures { result ≡ same_fields (fields (fields_of row.now)) (first.now ∷ second.now ∷ []) }
{
    cell(row, 0) == first && cell(row, 1) == second && is_blank_from(row, 2)
}
