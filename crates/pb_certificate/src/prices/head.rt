//! The head of a price certificate.
ghost use Rattle.std.specs.Prelude.{◌≡◌, [], ℕ, List};
ghost use Rattle.pb_election.specs.Instance.{Instance};
ghost use Rattle.pb_records.specs.Records.{Rec};
ghost use Rattle.pb_certificate.specs.Inside.Prices.Head.{HeadGives, NextHead, ReadsHead, StandsInHead};
ghost use Rattle.pb_certificate.specs.Prices.Kind.{Awaited as awaited};

use crate::fields::{MOST_NUMERATOR, head_number, is_pair, is_triple};
use crate::prices::places::next_record;
use crate::{CertFault, CertRefusal};
use pb_records::Cursor;

/// The greatest denominator.
const MOST_DENOMINATOR: u128 = 1_000_000_000;

/// The numbers that the head of a price certificate states.
#[derive(Clone, Copy)]
pub struct PriceHead {
    /// The denominator of all amounts, from 1 to 10^9.
    pub denominator: u32,
    /// The numerator of the budget of each voter, at most 10^21.
    pub budget: u128,
}

// Goes behind the next head record. A file that ends in place of it is refused.
fn next_head(cursor: &mut Cursor) -> Result<(), CertRefusal>
    ensures { NextHead cursor.old cursor.new result }
{
    if next_record(cursor)? {
        return Ok(());
    }
    Err(CertRefusal {
        fault: CertFault::BadHead,
        record_number: cursor.record_number() + 1,
    })
}

// The refusal for a fault of the record that was given last.
fn refused_here(cursor: &Cursor, fault: CertFault) -> CertRefusal
    ensures { result ≡ record { fault = fault; record_number = (cursor.now).record_number } }
{
    CertRefusal {
        fault,
        record_number: cursor.record_number(),
    }
}

// Takes the record that names the format.
fn take_name(cursor: &mut Cursor) -> Result<(), CertRefusal>
    ensures { HeadGives awaited.Name (λ done. awaited.Denominator) cursor.old cursor.new result }
{
    next_head(cursor)?;
    if !is_pair(cursor.row(), "pb-prices", "1") {
        return Err(refused_here(cursor, CertFault::BadHead));
    }
    Ok(())
}

// Takes the denominator.
fn take_denominator(cursor: &mut Cursor) -> Result<u32, CertRefusal>
    ensures { HeadGives awaited.Denominator (λ d. awaited.Budget d) cursor.old cursor.new result }
{
    next_head(cursor)?;
    match head_number(cursor.row(), "denominator", 1, MOST_DENOMINATOR) {
        Ok(number) => Ok(number as u32),
        Err(fault) => Err(refused_here(cursor, fault)),
    }
}

// Takes the numerator of the voters' budget.
fn take_budget(cursor: &mut Cursor) -> Result<u128, CertRefusal>
    ensures { (d : ℕ) → HeadGives (awaited.Budget d) (λ b. awaited.Columns d b) cursor.old cursor.new result }
{
    next_head(cursor)?;
    match head_number(cursor.row(), "voter_budget", 0, MOST_NUMERATOR) {
        Ok(number) => Ok(number),
        Err(fault) => Err(refused_here(cursor, fault)),
    }
}

// Takes the names of the columns.
fn take_columns(cursor: &mut Cursor) -> Result<(), CertRefusal>
    ensures { (d b : ℕ) → HeadGives (awaited.Columns d b) (λ done. awaited.Row d b) cursor.old cursor.new result }
{
    next_head(cursor)?;
    if !is_triple(cursor.row(), "voter", "project", "payment") {
        return Err(refused_here(cursor, CertFault::BadHead));
    }
    Ok(())
}

/// Takes the four head records, or tells the first fault, which stands at one of them or at the end before the fourth.
pub fn read_head(cursor: &mut Cursor) -> Result<PriceHead, CertRefusal>
    ensures { (e : Instance) (recs : List Rec) → StandsInHead e recs cursor.old [] awaited.Name → ReadsHead e recs cursor.new result }
{
    take_name(cursor)?;
    let denominator = take_denominator(cursor)?;
    let budget = take_budget(cursor)?;
    take_columns(cursor)?;
    Ok(PriceHead {
        denominator,
        budget,
    })
}
