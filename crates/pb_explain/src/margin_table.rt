//! The table of margins, as comma-separated values.
ghost use Rattle.std.specs.Prelude.{◌≡◌, ◌++◌, false, Bool, List, IfOk, OnOk, decimal, length};
ghost use Rattle.std.specs.Fmt.{signed_decimal};
ghost use Rattle.std.specs.List.{list_any};
ghost use Rattle.pb_election.specs.Instance.{projects};
ghost use Rattle.pb_election.specs.Rows.{is_control};
ghost use Rattle.pb_election.specs.Text.{IsId};
ghost use Rattle.pb_records.specs.Inside.RecordWriter.{IsOpen, held};
ghost use Rattle.pb_certificate.specs.Prices.Canon.{line, lines};
ghost use Rattle.pb_certificate.specs.Prices.{Prices};
ghost use Rattle.pb_price.specs.Margins.{AreMargins};
ghost use Rattle.pb_explain.specs.MarginTable.{flag_of, margin_head, row_of, table_of};

use csv::Writer;
use itoa::Buffer;
use pb_election::Election;
use pb_price::{Margins, ProjectMargins};
use pb_records::record_writer;
use std::alloc::{AllocError, Global};

/// The table as comma-separated values: its name and version, how many grains one unit of the currency has, the names
/// of the columns, and then a row for each project in the order of the election. Amounts are in grains. The margins are
/// to be of this election. An error means out of memory.
pub fn margin_table_text(
    alloc: Global,
    election: &Election,
    margins: &Margins,
) -> Result<Vec<u8>, AllocError>
    requires projects { length (margins.now).projects.items ≡ projects election.now }
    ensures { (w : List Bool) (p : Prices) → AreMargins election.now w p margins.now → IfOk result (λ text. text.items ≡ lines (table_of election.now w p)) }
{
    let mut writer = record_writer::open(alloc);
    add_head(&mut writer, margins.grains_per_unit)?;
    for k in 0..election.projects() {
        let of_project = &margins.projects[k as usize];
        add_row(&mut writer, election.id(k + 1), of_project)?;
    }
    record_writer::close(writer)
}

// Adds the three head records.
fn add_head(writer: &mut Writer<Vec<u8>>, grains_per_unit: u64) -> Result<(), AllocError>
    requires { IsOpen writer.old }
    ensures open { OnOk result (IsOpen writer.new) }
    ensures text { OnOk result (held writer.new ≡ held writer.old ++ lines (margin_head grains_per_unit)) }
{
    let mut digits = Buffer::new();
    record_writer::add_pair(writer, "pb-margins", "1")?;
    record_writer::add_pair(writer, "grains_per_unit", digits.format(grains_per_unit))?;
    record_writer::add_record(
        writer,
        &[
            b"project",
            b"funded",
            b"supporters",
            b"cost",
            b"paid",
            b"left",
            b"offer",
        ],
    )?;
    Ok(())
}

// Adds the row of a project with this id.
fn add_row(
    writer: &mut Writer<Vec<u8>>,
    id: &str,
    margins: &ProjectMargins,
) -> Result<(), AllocError>
    requires open { IsOpen writer.old }
    requires id { IsId id.now }
    ensures open { OnOk result (IsOpen writer.new) }
    ensures text { OnOk result (held writer.new ≡ held writer.old ++ line (row_of id.now margins.now)) }
{
    let mut supporters = Buffer::new();
    let mut cost = Buffer::new();
    let mut paid = Buffer::new();
    let mut left = Buffer::new();
    let mut offer = Buffer::new();
    record_writer::add_record(
        writer,
        &[
            id.as_bytes(),
            flag(margins.funded).as_bytes(),
            amount(&mut supporters, u128::from(margins.supporters)).as_bytes(),
            amount(&mut cost, margins.cost).as_bytes(),
            amount(&mut paid, margins.paid).as_bytes(),
            balance(&mut left, margins.left).as_bytes(),
            balance(&mut offer, margins.offer).as_bytes(),
        ],
    )?;
    Ok(())
}

// Whether a project is funded, as a field.
fn flag<'a>(funded: bool) -> &'a str
    ensures { result.now ≡ flag_of funded }
{
    if funded { "1" } else { "0" }
}

/// The digits of an amount.
pub(crate) fn amount<'a>(buffer: &'a mut Buffer, amount: u128) -> &'a str
    ensures text { result.now ≡ decimal amount }
    ensures plain { list_any is_control result.now ≡ false }
{
    buffer.format(amount)
}

/// The digits of an amount that may be negative, behind its sign.
pub(crate) fn balance<'a>(buffer: &'a mut Buffer, balance: i128) -> &'a str
    ensures text { result.now ≡ signed_decimal balance }
    ensures plain { list_any is_control result.now ≡ false }
{
    buffer.format(balance)
}
