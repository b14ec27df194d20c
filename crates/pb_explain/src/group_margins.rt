//! The table of margins of groups, as comma-separated values.
ghost use Rattle.std.specs.Prelude.{◌≡◌, ◌++◌, All, IfOk, OnOk};
ghost use Rattle.pb_election.specs.Text.{IsElection};
ghost use Rattle.pb_records.specs.Inside.RecordWriter.{IsOpen, held};
ghost use Rattle.pb_certificate.specs.Prices.Canon.{line, lines};
ghost use Rattle.pb_explain.specs.GroupMargins as spec;
ghost use Rattle.pb_explain.specs.ShownGroup.{CanBeShown};

use crate::margin_table::{amount, balance};
use crate::shown_group::{need_of, share_of};
use csv::Writer;
use itoa::Buffer;
use pb_certificate::Measure;
use pb_cohesion::GroupFigures;
use pb_election::Election;
use pb_records::record_writer;
use std::alloc::{AllocError, Global};

/// The table as comma-separated values: its name and version, the measure, over what the numerators are, the names of the
/// columns, and then a row for each of the figures, in their order. A need, a share and what is missing are numerators of
/// millionths; the most that a member got is in millionths, or a number by count. The figures are to be of this election
/// and by this measure. An error means out of memory.
pub fn group_margins_text(
    alloc: Global,
    measure: Measure,
    election: &Election,
    figures: &[GroupFigures],
) -> Result<Vec<u8>, AllocError>
    requires { All (CanBeShown election.now) figures.now }
    ensures { IfOk result (λ text. text.items ≡ lines (spec.group_margin_table measure election.now figures.now)) }
{
    let mut writer = record_writer::open(alloc);
    add_head(&mut writer, measure, denominator(election.voters()))?;
    for group in figures {
        add_row(&mut writer, election, group)?;
    }
    record_writer::close(writer)
}

// Over what the numerators are, by the number of all voters.
fn denominator(voters: u32) -> u32
    ensures { result ≡ spec.denominator voters }
{
    if voters == 0 { 1 } else { voters }
}

// Adds the four head records.
fn add_head(
    writer: &mut Writer<Vec<u8>>,
    measure: Measure,
    denominator: u32,
) -> Result<(), AllocError>
    requires { IsOpen writer.old }
    ensures open { OnOk result (IsOpen writer.new) }
    ensures text { OnOk result (held writer.new ≡ held writer.old ++ lines (spec.group_margin_head measure denominator)) }
{
    let mut digits = Buffer::new();
    record_writer::add_pair(writer, "pb-groups", "1")?;
    record_writer::add_pair(writer, "satisfaction", measure_name(measure))?;
    record_writer::add_pair(writer, "denominator", digits.format(denominator))?;
    record_writer::add_record(
        writer,
        &[
            b"project", b"voters", b"most", b"need", b"share", b"missing",
        ],
    )?;
    Ok(())
}

fn measure_name<'a>(measure: Measure) -> &'a str
    ensures { result.now ≡ spec.measure_name measure }
{
    match measure {
        Measure::ByCount => "count",
        Measure::ByCost => "cost",
    }
}

// Adds the row of a group.
fn add_row(
    writer: &mut Writer<Vec<u8>>,
    election: &Election,
    group: &GroupFigures,
) -> Result<(), AllocError>
    requires open { IsOpen writer.old }
    requires sound { IsElection election.now }
    requires group { CanBeShown election.now group.now }
    ensures open { OnOk result (IsOpen writer.new) }
    ensures text { OnOk result (held writer.new ≡ held writer.old ++ line (spec.group_row election.now group.now)) }
{
    let mut voters = Buffer::new();
    let mut most = Buffer::new();
    let mut need = Buffer::new();
    let mut share = Buffer::new();
    let mut missing = Buffer::new();
    record_writer::add_record(
        writer,
        &[
            election.id(group.project).as_bytes(),
            amount(&mut voters, u128::from(group.voters)).as_bytes(),
            amount(&mut most, group.most).as_bytes(),
            amount(&mut need, need_of(election, group)).as_bytes(),
            amount(&mut share, share_of(election, group)).as_bytes(),
            balance(&mut missing, missing_of(election, group)).as_bytes(),
        ],
    )?;
    Ok(())
}

// What is missing of the need.
fn missing_of(election: &Election, group: &GroupFigures) -> i128
    requires { CanBeShown election.now group.now }
    ensures { result ≡ spec.missing_of election.now group.now }
{
    need_of(election, group) as i128 - share_of(election, group) as i128
}
