//! Going over the rows of a price certificate.
ghost use Rattle.std.specs.Prelude.{◌≡◌, ◌⊎◌, Ok, Err, Some, IfOk, IfErr, MatchResult};

use crate::prices::head::{PriceHead, read_head};
use crate::prices::places::next_record;
use crate::prices::prior_rows::PriorRows;
use crate::prices::row::PriceRow;
use crate::{CertFault, CertRefusal};
use pb_election::Election;
use pb_records::Cursor;
use std::alloc::Global;

/// A place between the rows of a price certificate.
#[derive(Drop)]
pub struct RowReader<'a> {
    // The file: the proofs speak of all its records.
    bytes: &'a [u8],
    election: &'a Election,
    /// The denominator that the head states.
    pub denominator: u32,
    /// The numerator of the voters' budget that the head states.
    pub budget: u128,
    cursor: Cursor<'a>,
    prior: PriorRows,
}

impl<'a> RowReader<'a> {
    ghost use Rattle.std.specs.Prelude.{◌≡◌, []};
    ghost use Rattle.pb_certificate.specs.Faults.{Refuses, certificate_records, no_memory, price_form};
    ghost use Rattle.pb_certificate.specs.Prices.Rows.{IsBetweenRows, IsInHead, given};
    ghost use Rattle.pb_certificate.specs.Inside.Prices.RowReader.{Advances, IsReading, place_of};

    /// Behind the head of a price certificate, or its first fault where that stands in the head.
    pub fn open(
        alloc: Global,
        bytes: &'a [u8],
        election: &'a Election,
    ) -> Result<RowReader<'a>, CertRefusal>
        ensures reading { IfOk result (λ r. IsReading r) }
        ensures election { IfOk result (λ r. r.election.now ≡ election.now) }
        ensures bytes { IfOk result (λ r. r.bytes.now ≡ bytes.now) }
        ensures between { IfOk result (λ r. IsBetweenRows (place_of r)) }
        ensures none_given { IfOk result (λ r. given (place_of r) ≡ []) }
        ensures refused { IfErr result (λ r. (r ≡ no_memory) ⊎ Refuses (price_form election.now) bytes.now r) }
        ensures in_head { IfErr result (λ r. IsInHead (certificate_records bytes.now) r) }
    {
        let mut cursor = Cursor::open(alloc, bytes, b',');
        let PriceHead {
            denominator,
            budget,
        } = read_head(&mut cursor)?;
        let prior = PriorRows::new(alloc, election.projects())?;
        Ok(RowReader {
            bytes,
            election,
            denominator,
            budget,
            cursor,
            prior,
        })
    }

    /// Goes behind the next row and gives it, or none at the end, or the fault of the next record.
    pub fn advance(&mut self) -> Result<Option<PriceRow>, CertRefusal>
        requires { IsReading self.old }
        ensures { Advances self.old self.new result }
    {
        if let Some(triple) = self.cursor.take_triple() {
            let taken = self.prior.take_triple(triple, self.election);
            return answer(taken, self.cursor.record_number());
        }
        if !next_record(&mut self.cursor)? {
            return Ok(None);
        }
        let taken = self.prior.take(self.cursor.row(), self.election);
        answer(taken, self.cursor.record_number())
    }
}

// A row as it is given, or its fault with the number of its record.
fn answer(
    taken: Result<PriceRow, CertFault>,
    record_number: u64,
) -> Result<Option<PriceRow>, CertRefusal>
    ensures { MatchResult taken (λ row. result ≡ Ok (Some row)) (λ fault. result ≡ Err (record { fault = fault; record_number = record_number })) }
{
    match taken {
        Ok(row) => Ok(Some(row)),
        Err(fault) => Err(CertRefusal {
            fault,
            record_number,
        }),
    }
}
