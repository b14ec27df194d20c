//! Records written into memory, as comma-separated values: a field is in quotes where it has to be, and a record ends
//! in LF. An error means out of memory.
ghost use Rattle.std.specs.Prelude.{◌≡◌, ◌++◌, ◌∷◌, [], IfOk, OnOk, map};
ghost use Rattle.csv.specs.Writing.{default_writer, row_text};
ghost use Rattle.pb_records.specs.Inside.RecordWriter.{IsOpen, held};

use csv::{Writer, WriterBuilder};
use std::alloc::{AllocError, Global};

/// A writer with no record yet.
pub fn open(alloc: Global) -> Writer<Vec<u8>>
    ensures open { IsOpen result }
    ensures text { held result ≡ [] }
{
    WriterBuilder::new()
        .flexible(true)
        .from_writer(Vec::new(alloc))
}

/// Adds a record.
pub fn add_record(writer: &mut Writer<Vec<u8>>, fields: &[&[u8]]) -> Result<(), AllocError>
    requires { IsOpen writer.old }
    ensures open { OnOk result (IsOpen writer.new) }
    ensures text { OnOk result (held writer.new ≡ held writer.old ++ row_text default_writer (map (λ f. f.now) fields.now)) }
{
    let Ok(()) = writer.write_fields(fields) else {
        return Err(AllocError);
    };
    Ok(())
}

/// Adds a record of two fields.
pub fn add_pair<'a>(
    writer: &mut Writer<Vec<u8>>,
    first: &'a str,
    second: &'a str,
) -> Result<(), AllocError>
    requires { IsOpen writer.old }
    ensures open { OnOk result (IsOpen writer.new) }
    ensures text { OnOk result (held writer.new ≡ held writer.old ++ row_text default_writer (first.now ∷ second.now ∷ [])) }
{
    add_record(writer, &[first.as_bytes(), second.as_bytes()])
}

/// Adds a record of three fields.
pub fn add_triple<'a>(
    writer: &mut Writer<Vec<u8>>,
    first: &'a str,
    second: &'a str,
    third: &'a str,
) -> Result<(), AllocError>
    requires { IsOpen writer.old }
    ensures open { OnOk result (IsOpen writer.new) }
    ensures text { OnOk result (held writer.new ≡ held writer.old ++ row_text default_writer (first.now ∷ second.now ∷ third.now ∷ [])) }
{
    add_record(
        writer,
        &[first.as_bytes(), second.as_bytes(), third.as_bytes()],
    )
}

/// The text of all records.
pub fn close(writer: Writer<Vec<u8>>) -> Result<Vec<u8>, AllocError>
    ensures { IfOk result (λ text. text.items ≡ held writer) }
{
    match writer.into_inner() {
        Ok(text) => Ok(text),
        Err(_) => Err(AllocError),
    }
}
