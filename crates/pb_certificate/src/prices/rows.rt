//! The rows of a price certificate, one after another.
ghost use Rattle.std.specs.Prelude.{◌≡◌, ◌≤◌, ◌⊎◌, [], None, IfOk, IfErr, IfSome};
ghost use Rattle.pb_certificate.specs.Faults.{Refuses, certificate_records, no_memory, price_form};
ghost use Rattle.pb_certificate.specs.Prices.Rows.{GivesNone, GivesRow, IsBetweenRows, IsInHead, RefusesNext, given};
ghost use Rattle.pb_certificate.specs.Prices.{most_denominator, most_numerator};

use crate::CertRefusal;
use crate::prices::row::PriceRow;
use crate::prices::row_reader::RowReader;
use pb_election::Election;
use std::alloc::{AllocError, Global};
use std::marker::Model;

/// A reader of the rows of a price certificate, which goes over the bytes once and keeps no payments. It stands at a
/// place between two records, and no fault stands before it.
#[derive(Drop)]
pub struct Rows<'a> {
    reader: Box<RowReader<'a>>,
}

impl<'a> Model for Rows<'a> {
    ghost use Rattle.pb_certificate.specs.Prices.Rows as spec;
    ghost use Rattle.pb_certificate.specs.Inside.Prices.RowReader.{IsReading, place_of};

    ghost Value = { spec.Rows };

    ghost view = { λ a. place_of a.reader.value };

    ghost invariant = { λ a. IsReading a.reader.value };
}

impl<'a> Rows<'a> {
    /// Stands before the first row of a price certificate for an election, behind the four head records. Refuses the
    /// file where its first fault stands at one of them, or at the end before the fourth; a fault of a row comes from
    /// `next`. `Memory` comes only after a failed allocation, which is tested and not proved. What the head records
    /// and the rows are is said at `Prices::read`.
    pub fn open(
        alloc: Global,
        bytes: &'a [u8],
        election: &'a Election,
    ) -> Result<Rows<'a>, CertRefusal>
        ensures election { IfOk result (λ s. s.election ≡ election.now) }
        ensures records { IfOk result (λ s. s.records ≡ certificate_records bytes.now) }
        ensures between { IfOk result (λ s. IsBetweenRows s) }
        ensures none_given { IfOk result (λ s. given s ≡ []) }
        ensures refused { IfErr result (λ r. (r ≡ no_memory) ⊎ Refuses (price_form election.now) bytes.now r) }

        // The fault stands behind fewer than four records that are not blank.
        ensures in_head { IfErr result (λ r. IsInHead (certificate_records bytes.now) r) }
    {
        let reader = RowReader::open(alloc, bytes, election)?;
        let reader = Box::new(alloc, reader).map_err(AllocError::from)?;
        Ok(Rows { reader })
    }

    /// The denominator of all amounts, from 1 to 10^9.
    pub fn denominator(&self) -> u32
        ensures value { result ≡ (self.now).denominator }
        ensures sound { IsBetweenRows self.now }
        ensures low { 1 ≤ result }
        ensures high { result ≤ most_denominator }
    {
        self.reader.denominator
    }

    /// The numerator of the budget of each voter, at most 10^21.
    pub fn budget(&self) -> u128
        ensures value { result ≡ (self.now).budget }
        ensures sound { IsBetweenRows self.now }
        ensures high { result ≤ most_numerator }
    {
        self.reader.budget
    }

    /// The next row, payment 0 too, with the reader behind it, or none where no row is left; asked again, it is none
    /// again. Else the fault of the next record, of several the one with the lowest number: a refusal consumes the
    /// reader, which then hands out nothing more. `Memory` comes only after a failed allocation, which is tested and
    /// not proved.
    pub fn next(self) -> Result<(Rows<'a>, Option<PriceRow>), CertRefusal>
        ensures row { IfOk result (λ x. IfSome x.1 (λ q. GivesRow self.entry x.0 q)) }
        ensures none { IfOk result (λ x. x.1 ≡ None → GivesNone self.entry x.0) }
        ensures refused { IfErr result (λ r. (r ≡ no_memory) ⊎ RefusesNext self.entry r) }
    {
        let Rows { mut reader } = self;
        let row = reader.advance()?;
        Ok((Rows { reader }, row))
    }
}
