//! Sentences on certificates and outcome files that are refused.
use crate::FileKind;
use crate::lookup::{Lookup, find_project, find_voter};
use crate::oddity::Oddity;
use crate::remark::Remark;
use crate::scene::Scene;
use crate::walk::Walk;
use csv::StringRecord;
use pb_certificate::CertFault;
use pb_records::cell;
use std::alloc::AllocError;

const WHOLE: &str = "amounts are whole numbers over the denominator, without a decimal point";

const WHOLE_WEIGHTS: &str =
    "weights are whole numbers, without a decimal point; multiply all of them by the same number";

const BY_ROWS: &str = "voters are numbered by their rows in VOTES, from 1, and not by voter_id";

const MEASURE: &str = "only version 2 states a measure, in the record after pb-violation,2";

/// What is wrong with such a file, where its bytes can't be had.
pub(crate) fn general(fault: CertFault) -> &'static str {
    match fault {
        CertFault::NotUtf8 => "the text isn't UTF-8",
        CertFault::BadHead => {
            "its first records aren't those of a file of this kind, such as pb-prices,1"
        }
        CertFault::BadRow => "the row isn't one of a file of this kind",
        CertFault::BadNumber => "a number isn't a whole number in its range",
        CertFault::UnknownVoter => "the election has no such voter",
        CertFault::UnknownProject => "no project of the election has this id",
        CertFault::OutOfOrder => "the voter is lower than in the row before",
        CertFault::Repeated => "the row repeats an earlier one",
        CertFault::TooMany => "there are more than 10,000,000 rows",
        CertFault::Memory => "out of memory",
    }
}

impl Scene<'_> {
    /// What is wrong with the certificate or the outcome file here.
    pub fn certificate_sentence(&self, fault: CertFault) -> Result<String, AllocError> {
        let head = self.kind.head_record(self.story.records);
        if self.is_end() {
            return self.ends_before(&format!(in self.alloc; "the record {head}")?);
        }
        match fault {
            CertFault::NotUtf8 => self.not_utf8(),
            CertFault::BadHead => {
                let line = self.quoted_line()?;
                format!(in self.alloc; "expected the record {head}, but found {line}")
            }
            CertFault::BadRow => {
                let (row, line) = (self.kind.row(), self.quoted_line()?);
                format!(in self.alloc; "expected a row {row}, but found {line}")
            }
            CertFault::BadNumber => self.bad_number(),
            CertFault::UnknownVoter => self.unknown_voter(),
            CertFault::UnknownProject => self.with("no project has the id ", self.field(1)),
            CertFault::OutOfOrder => {
                let voter = self.quoted(self.voter())?;
                format!(in self.alloc;
                    "voter {voter} comes after a higher one; rows have to be sorted by voter"
                )
            }
            CertFault::Repeated => self.repeated(),
            CertFault::TooMany | CertFault::Memory => self.text(general(fault)),
        }
    }

    fn repeated(&self) -> Result<String, AllocError> {
        let first = self.first_like()?;
        if self.kind == FileKind::Prices {
            let voter = self.quoted(self.voter())?;
            let words = format!(in self.alloc; "voter {voter} with project ")?;
            return self.duplicate(&words, self.field(1), first);
        }
        let words = match self.field(0) {
            "voter" => "voter ",
            _ => "project ",
        };
        self.duplicate(words, self.field(1), first)
    }

    fn bad_number(&self) -> Result<String, AllocError> {
        let (words, number) = match (self.kind, self.story.records) {
            (FileKind::Prices, 1) => {
                (
                    "the denominator isn't a whole number from 1 to 10^9: ",
                    self.field(1),
                )
            }
            (FileKind::Prices, 2) => {
                (
                    "the voter budget isn't a whole number up to 10^21: ",
                    self.field(1),
                )
            }
            (FileKind::Prices, _) if is_digits(self.field(0)) => {
                (
                    "the payment isn't a whole number up to 10^21: ",
                    self.field(2),
                )
            }
            (FileKind::Refutation, 1) => {
                (
                    "the weight of Cover isn't a whole number up to 10^12: ",
                    self.field(1),
                )
            }
            (FileKind::Refutation, _) => {
                (
                    "the weight isn't a whole number up to 10^12: ",
                    self.field(2),
                )
            }
            _ => ("the voter isn't a whole number: ", self.voter()),
        };
        self.with(words, number)
    }

    /// The field with the voter of the record.
    fn voter(&self) -> &str {
        match self.kind {
            FileKind::Prices => self.field(0),
            _ => self.field(1),
        }
    }

    fn unknown_voter(&self) -> Result<String, AllocError> {
        let sentence = self.with("there is no voter ", self.voter())?;
        let Some(election) = self.election else {
            return Ok(sentence);
        };
        let count = find_voter(self.alloc, election, self.voter())?.rows;
        format!(in self.alloc; "{sentence}; the election has {count} voters")
    }

    /// Where the first record begins that names the same as this one.
    fn first_like(&self) -> Result<Option<usize>, AllocError> {
        let mut walk = Walk::open(self.alloc, self.file(), self.kind.delimiter())?;
        for _ in 0..self.record_number {
            if !walk.advance_before(self.record_number)? {
                break;
            }
            if self.is_like(walk.row()) {
                return Ok(Some(walk.start()));
            }
        }
        Ok(None)
    }

    /// Whether another record names the same as this one. A refutation has one row for a project, whatever its role is.
    fn is_like(&self, other: &StringRecord) -> bool {
        match self.kind {
            FileKind::Refutation => is_role(cell(other, 0)) && cell(other, 1) == self.field(1),
            _ => names_same(other, self.row()),
        }
    }

    /// What often causes such a fault.
    pub fn certificate_cause(&self, fault: CertFault) -> Result<Option<Remark>, AllocError> {
        let is_price = self.kind == FileKind::Prices;
        let is_weight = self.kind == FileKind::Refutation;
        match fault {
            CertFault::BadHead | CertFault::BadRow
                if Oddity::of_one_field(self.row(), self.kind.delimiter()).is_some() => {
                self.odd(Oddity::of_one_field(self.row(), self.kind.delimiter()))
            }
            CertFault::UnknownVoter => self.voter_cause(),
            CertFault::BadNumber if is_weight && self.has_decimals() => self.remark(WHOLE_WEIGHTS),
            CertFault::BadNumber if is_weight => Ok(None),
            CertFault::BadNumber if self.is_row() && !is_digits(self.voter()) => self.voter_cause(),
            CertFault::BadNumber if is_price && self.has_decimals() => self.remark(WHOLE),
            CertFault::BadRow if is_price && self.is_cut_amount() => self.remark(WHOLE),
            CertFault::BadRow if is_weight && self.is_cut_amount() => self.remark(WHOLE_WEIGHTS),
            CertFault::BadRow if self.field(0) == "voter_id" => self.remark(BY_ROWS),
            CertFault::BadRow if self.is_measure_in_version_1() => self.remark(MEASURE),
            CertFault::UnknownProject => match self.election {
                Some(election) => {
                    self.project_cause(find_project(self.alloc, election, self.field(1))?)
                }
                None => Ok(None),
            },
            _ => Ok(None),
        }
    }

    /// That projects are named by their ids, with the id of the one that may be meant.
    pub fn project_cause(&self, found: Lookup) -> Result<Option<Remark>, AllocError> {
        if found.row.is_none() {
            return Ok(None);
        }
        let id = self.quoted(&found.id)?;
        self.remark(&format!(in self.alloc;
            "projects are named by their project_id; did you mean {id}?"
        )?)
    }

    /// That voters are named by their rows, with the row of the one that may be meant.
    fn voter_cause(&self) -> Result<Option<Remark>, AllocError> {
        let Some(election) = self.election else {
            return self.remark(BY_ROWS);
        };
        let Some(row) = find_voter(self.alloc, election, self.voter())?.row else {
            return self.remark(BY_ROWS);
        };
        let id = self.quoted(self.voter())?;
        self.remark(&format!(in self.alloc;
            "{BY_ROWS}; the one with voter_id {id} is voter {row}"
        )?)
    }

    /// Whether the record stands behind the head of a price certificate, or in another file.
    fn is_row(&self) -> bool {
        self.kind != FileKind::Prices || self.story.records >= 4
    }

    /// Whether a number of the record has a decimal point or comma.
    fn has_decimals(&self) -> bool {
        let number = match self.story.records {
            1 => self.field(1),
            2 if self.kind == FileKind::Prices => self.field(1),
            _ => self.field(2),
        };
        number.contains('.') || number.contains(',')
    }

    /// Whether the record states a measure in a file of version 1.
    fn is_measure_in_version_1(&self) -> bool {
        self.field(0) == "satisfaction" && !self.story.is_version_2
    }

    /// Whether the record has a field too many, as where a decimal comma cuts the payment in two.
    fn is_cut_amount(&self) -> bool {
        is_digits(self.field(2)) && is_digits(self.field(3))
    }
}

/// Whether a word is the role of a weight.
fn is_role(word: &str) -> bool {
    matches!(word, "least" | "most" | "left")
}

fn is_digits(text: &str) -> bool {
    !text.is_empty() && text.bytes().all(|byte| byte.is_ascii_digit())
}

/// Whether the first two fields of two records are the same, where numbers of voters may have zeros in front.
fn names_same(one: &StringRecord, other: &StringRecord) -> bool {
    let is_same = |place| {
        cell(one, place).trim_start_matches('0') == cell(other, place).trim_start_matches('0')
    };
    is_same(0) && (cell(one, 1) == cell(other, 1) || cell(one, 0) == "voter" && is_same(1))
}
