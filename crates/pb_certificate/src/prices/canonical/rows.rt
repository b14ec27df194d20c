//! The records of the canonical text.
ghost use Rattle.std.specs.Prelude.{◌≡◌, ◌++◌, OnOk};
ghost use Rattle.pb_election.specs.Instance.{projects};
ghost use Rattle.pb_election.specs.Text.{IsElection};
ghost use Rattle.pb_records.specs.Inside.RecordWriter.{IsOpen, held};
ghost use Rattle.pb_certificate.specs.Prices.Canon.{head_records, lines, rows_of_voter};
ghost use Rattle.pb_certificate.specs.Prices.{IsPaymentMap};

use csv::Writer;
use itoa::Buffer;
use pb_election::Election;
use pb_records::record_writer;
use std::alloc::AllocError;

/// Adds the four head records.
pub fn add_heads(
    writer: &mut Writer<Vec<u8>>,
    denominator: u32,
    budget: u128,
) -> Result<(), AllocError>
    requires open { IsOpen writer.old }
    ensures open { OnOk result (IsOpen writer.new) }
    ensures text { OnOk result (held writer.new ≡ held writer.old ++ lines (head_records denominator budget)) }
{
    let mut digits = Buffer::new();
    record_writer::add_pair(writer, "pb-prices", "1")?;
    record_writer::add_pair(writer, "denominator", digits.format(denominator))?;
    record_writer::add_pair(writer, "voter_budget", digits.format(budget))?;
    record_writer::add_triple(writer, "voter", "project", "payment")?;
    Ok(())
}

/// Adds a row for each of the payments that a voter makes.
pub fn add_payments(
    writer: &mut Writer<Vec<u8>>,
    election: &Election,
    voter: u32,
    payments: &[(u32, u128)],
) -> Result<(), AllocError>
    requires open { IsOpen writer.old }
    requires election { IsElection election.now }
    requires payments { IsPaymentMap (projects election.now) payments.now }
    ensures open { OnOk result (IsOpen writer.new) }
    ensures text { OnOk result (held writer.new ≡ held writer.old ++ lines (rows_of_voter election.now voter payments.now)) }
{
    let mut voter_digits = Buffer::new();
    let mut payment_digits = Buffer::new();
    let voter_field = voter_digits.format(voter);
    for payment in payments {
        let payment_field = payment_digits.format(payment.1);
        record_writer::add_triple(writer, voter_field, election.id(payment.0), payment_field)?;
    }
    Ok(())
}
