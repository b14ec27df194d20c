//! Going over the records of a file that are not blank.
ghost use Rattle.std.specs.Prelude.{◌≡◌, ◌≤◌, ◌^◌, [], IfOk, MatchOption, OnErr};
ghost use Rattle.csv.specs.Records.{fields_of};
ghost use Rattle.pb_records.specs.Inside.Position.{Meets, MeetsTriple};
ghost use Rattle.pb_records.specs.Records.{records_of};

use crate::cells::is_blank;
use crate::lines::Triple;
use crate::records::{Next, Records};
use csv::StringRecord;
use std::alloc::{AllocError, Global};
use std::marker::Model;

/// A place between the records of a file. Whoever goes over a file pulls its records from here, one at a time.
#[derive(Drop)]
pub struct Cursor<'a> {
    records: Records<'a>,
    row: StringRecord,
    record_number: u64,
}

impl<'a> Model for Cursor<'a> {
    ghost use Rattle.std.specs.Prelude.{◌≤◌, ◌+◌, ◌^◌, length};
    ghost use Rattle.csv.specs.Records.{fields_of};
    ghost use Rattle.pb_records.specs.Inside.Position.{Position};

    ghost Value = { Position };

    ghost view = { λ a. record { record_number = a.record_number; row = fields_of a.row; left = a.records } };

    ghost invariant = { λ a. a.record_number + length a.records ≤ 2 ^ 63 };
}

impl<'a> Cursor<'a> {
    /// Before the first record of a file whose fields are separated by the delimiter.
    pub fn open(alloc: Global, bytes: &'a [u8], delimiter: u8) -> Cursor<'a>
        ensures record_number { result.record_number ≡ 0 }
        ensures left { result.left ≡ records_of delimiter bytes.now }
    {
        Cursor {
            records: Records::open(alloc, bytes, delimiter),
            row: StringRecord::new(alloc),
            record_number: 0,
        }
    }

    /// Goes behind the next record that is not blank, which `row` then lends. Behind a record that is not UTF-8, and
    /// after an error, which means out of memory, no record is left: what comes then is the end.
    pub fn advance(&mut self) -> Result<Next, AllocError>
        ensures next { IfOk result (λ next. Meets next self.old self.new) }
        ensures failed { OnErr result (self.new.left ≡ []) }
    {
        loop {
            let next = self.records.read(&mut self.row)?;
            match next {
                Next::End => return Ok(Next::End),
                Next::NotText => {
                    self.record_number += 1;
                    return Ok(Next::NotText);
                }
                Next::Record => self.record_number += 1,
            }
            if !is_blank(&self.row) {
                return Ok(Next::Record);
            }
        }
    }

    /// Gives the next record and goes behind it, where it is a line of three fields without quotes, the first and the
    /// last of which are whole numbers of up to eighteen digits. Else nothing changes. What `row` holds is left as it
    /// was.
    pub fn take_triple(&mut self) -> Option<Triple<'a>>
        ensures { MatchOption result (self.new ≡ self.old) (λ triple. MeetsTriple triple self.old self.new) }
    {
        let triple = self.records.take_triple()?;
        self.record_number += 1;
        Some(triple)
    }

    /// The record that was given last. What it holds is left open before the first, and wherever none was given.
    pub fn row(&self) -> &StringRecord
        ensures { fields_of result.now ≡ self.now.row }
    {
        &self.row
    }

    /// How many records lie behind, blank ones too: the number of the record that was met last, from 1. The end of the
    /// file has the next number.
    pub fn record_number(&self) -> u64
        ensures value { result ≡ self.now.record_number }
        ensures few { result ≤ 2 ^ 63 }
    {
        self.record_number
    }
}
