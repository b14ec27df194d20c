//! The report on a folder, made of one entry after the other.
ghost use Rattle.std.specs.Prelude.{◌≡◌, ◌∷◌, ◌++◌, [], List, IfOk, OnOk, OnErr, false, string_bytes, true};
ghost use Rattle.std.specs.Io.KnownBytes.{Appends};
ghost use Rattle.pb_records.specs.Loading.{AppendsFront, IsFlushed, Rises};
ghost use Rattle.pb_records.specs.Records.{Text};
ghost use Rattle.pb_json.specs.Texts.{IsPlain, most_nested};
ghost use Rattle.pb_reply.specs.Replies.{AreJsonLines, text_of};
ghost use Rattle.serde_json.specs.Read.{max_depth};
ghost use Rattle.serde_json.specs.View.{view};
ghost use Rattle.serde_json.specs.Written.{compact_text};
ghost use Rattle.pb_audit.specs.Inside.Folders.{files_of, found_as};
ghost use Rattle.pb_audit.specs.Reports.{AddsJsonLine, IsRestOf, EntryFiles, HasTaken, certificate_endings, certificate_lines, file_lines};
ghost use Rattle.pb_audit.specs.Reports as spec;

use crate::endings::{ELECTION, PRICES, VIOLATION};
use crate::folder::Entry;
use crate::found::{Found, found_of};
use crate::total::{Ending, FolderStatus, Total};
use pb_election::{PutFault, Sink, put};
use pb_json::{entry_json, json_text};
use pb_price::Mode;
use pb_reply::{Answer, Reply, Status, push_line};
use serde_json::Value;
use std::alloc::{AllocError, Global};
use std::fmt::Write;
use std::marker::Model;

/// A report that takes one entry after the other, so that no more than one entry need be in memory. What is there of its
/// text can be written out ahead of the rest.
#[derive(Drop)]
pub struct FolderReport {
    as_json: bool,
    mode: Mode,
    text: String,
    endings: Vec<Ending>,
}

impl Model for FolderReport {
    ghost use Rattle.std.specs.Prelude.{string_bytes};
    ghost use Rattle.pb_audit.specs.Reports.{Progress};

    ghost Value = { Progress };

    ghost view = { λ r. record { as_json = r.as_json; mode = r.mode; text = string_bytes r.text; endings = r.endings.items } };
}

impl FolderReport {
    /// The report with no entry yet, which is written as lines, or else as JSON objects.
    pub fn new(alloc: Global, as_json: bool, mode: Mode) -> FolderReport
        ensures as_json { result.as_json ≡ as_json }
        ensures mode { result.mode ≡ mode }
        ensures taken { HasTaken result [] [] }
        ensures json { AreJsonLines result.text }
    {
        FolderReport {
            as_json,
            mode,
            text: String::new(alloc),
            endings: Vec::new(alloc),
        }
    }

    /// The report with one entry more. An error means out of memory; the report is then lost.
    pub fn add(self, alloc: Global, entry: &Entry) -> Result<FolderReport, AllocError>
        ensures as_json { IfOk result (λ more. more.as_json ≡ self.as_json) }
        ensures mode { IfOk result (λ more. more.mode ≡ self.mode) }

        // Whichever entries the text was of, it is now of these and of the new one.
        ensures taken { (entries : List EntryFiles) → (written : Text) → HasTaken self entries written → IfOk result (λ more. HasTaken more (entries ++ (files_of entry.now ∷ [])) written) }

        // As JSON each line is one value, whatever is in the files and in their name.
        ensures json { self.as_json ≡ true → AreJsonLines self.text → IfOk result (λ more. AreJsonLines more.text) }
    {
        let FolderReport {
            as_json,
            mode,
            mut text,
            mut endings,
        } = self;
        let found = found_of(alloc, entry.lent(), mode)?;
        push_endings(&mut endings, &found)?;
        push_entry(alloc, as_json, &mut text, &entry.name, found)?;
        Ok(FolderReport {
            as_json,
            mode,
            text,
            endings,
        })
    }

    /// Writes out the text so far, and flushes. The report goes on without it; after an error it is lost.
    pub fn write<W: Sink>(self, out: &mut W) -> Result<FolderReport, PutFault>
        ensures as_json { IfOk result (λ rest. rest.as_json ≡ self.as_json) }
        ensures mode { IfOk result (λ rest. rest.mode ≡ self.mode) }
        ensures taken { (entries : List EntryFiles) → (written : Text) → HasTaken self entries written → IfOk result (λ rest. HasTaken rest entries (written ++ self.text)) }
        ensures json { IfOk result (λ rest. AreJsonLines rest.text) }
        ensures all { OnOk result (Appends (W.holds out.old) (W.holds out.new) self.text) }
        ensures flushed { OnOk result (IsFlushed (W.counts out.old) (W.counts out.new)) }
        ensures calm { OnOk result ((W.counts out.new).failures ≡ (W.counts out.old).failures) }
        ensures front { OnErr result (AppendsFront (W.holds out.old) (W.holds out.new) self.text) }
        ensures failed { OnErr result (Rises (W.counts out.old).failures (W.counts out.new).failures) }
    {
        let FolderReport {
            as_json,
            mode,
            mut text,
            endings,
        } = self;
        put(text.as_bytes(), out)?;
        text.clear();
        Ok(FolderReport {
            as_json,
            mode,
            text,
            endings,
        })
    }

    /// The report with the total, but for what was written out of it. An error means out of memory.
    pub fn finish(self, alloc: Global) -> Result<Answer<FolderStatus>, AllocError>
        ensures rest { (entries : List EntryFiles) → (written : Text) → HasTaken self entries written → IfOk result (IsRestOf self entries written) }
        ensures json { self.as_json ≡ true → AreJsonLines self.text → IfOk result (λ rest. AreJsonLines rest.text) }
    {
        let FolderReport {
            as_json,
            mode: _,
            mut text,
            endings,
        } = self;
        let total = Total::of(&endings);
        total.push(alloc, as_json, &mut text)?;
        Ok(Answer {
            text: text.into_bytes(),
            status: total.status(),
        })
    }
}

/// Adds an entry, as lines or else as an object.
fn push_entry(
    alloc: Global,
    as_json: bool,
    text: &mut String,
    name: &str,
    found: Found,
) -> Result<(), AllocError>
    ensures text { OnOk result (string_bytes text.new ≡ string_bytes text.old ++ text_of (spec.lines_of as_json (found_as name.now found))) }
    ensures json { as_json ≡ true → OnOk result (AddsJsonLine (string_bytes text.old) (string_bytes text.new)) }
{
    if as_json {
        push_object(alloc, text, name, found)
    } else {
        push_found(text, name, &found)
    }
}

/// Adds the object of an entry, in a line.
pub(crate) fn push_object(
    alloc: Global,
    text: &mut String,
    name: &str,
    found: Found,
) -> Result<(), AllocError>
    ensures text { OnOk result (string_bytes text.new ≡ string_bytes text.old ++ text_of (spec.entry_object (found_as name.now found) ∷ [])) }
    ensures json { OnOk result (AddsJsonLine (string_bytes text.old) (string_bytes text.new)) }
{
    let object = entry_value(alloc, name, found)?;
    let line = json_text(alloc, &object)?;
    push_line(text, &line)
}

/// The objects of an entry's replies in one.
fn entry_value(alloc: Global, name: &str, found: Found) -> Result<Value, AllocError>
    ensures value { IfOk result (λ v. compact_text (view v) ≡ spec.entry_told name.now found.read.json (spec.object_of found.prices) (spec.object_of found.violation)) }
    ensures plain { IfOk result (λ v. IsPlain max_depth (view v)) }
{
    let Found {
        read,
        prices,
        violation,
    } = found;
    let election = read.object.into_value();
    let (prices, violation) = (value_of(prices), value_of(violation));
    entry_json(alloc, name, election, prices, violation)
}

/// The object of a reply, or null where there is none.
fn value_of(reply: Option<Reply>) -> Value
    ensures value { compact_text (view result) ≡ spec.object_of reply }
    ensures plain { IsPlain most_nested (view result) }
{
    match reply {
        Some(reply) => reply.object.into_value(),
        None => Value::Null,
    }
}

/// Adds the lines on the files of an entry.
pub(crate) fn push_found(text: &mut String, name: &str, found: &Found) -> Result<(), AllocError>
    ensures { OnOk result (string_bytes text.new ≡ string_bytes text.old ++ text_of (spec.lines_of false (found_as name.now found.now))) }
{
    push_file(text, name, ELECTION, &found.read)?;
    push_certificate(text, name, PRICES, &found.prices)?;
    push_certificate(text, name, VIOLATION, &found.violation)
}

/// Adds the line on a certificate, where one was audited.
fn push_certificate(
    text: &mut String,
    name: &str,
    ending: &str,
    reply: &Option<Reply>,
) -> Result<(), AllocError>
    ensures { OnOk result (string_bytes text.new ≡ string_bytes text.old ++ text_of (certificate_lines (name.now ++ ending.now) reply.now)) }
{
    match reply {
        Some(reply) => push_file(text, name, ending, reply),
        None => Ok(()),
    }
}

/// Adds the first line of the reply on a file, behind the file's name.
fn push_file(text: &mut String, name: &str, ending: &str, reply: &Reply) -> Result<(), AllocError>
    ensures { OnOk result (string_bytes text.new ≡ string_bytes text.old ++ text_of (file_lines (name.now ++ ending.now) reply.now)) }
{
    match reply.lines.first() {
        Some(line) => writeln!(text, "{name}{ending}: {line}"),
        None => Ok(()),
    }
}

/// Adds how the lines on the files of an entry end.
pub(crate) fn push_endings(endings: &mut Vec<Ending>, found: &Found) -> Result<(), AllocError>
    ensures { OnOk result (endings.new.items ≡ endings.old.items ++ spec.endings_on (found.now).read (found.now).prices (found.now).violation) }
{
    endings.push(Ending {
        of_certificate: false,
        status: found.read.status,
    })?;
    push_certificate_ending(endings, &found.prices)?;
    push_certificate_ending(endings, &found.violation)
}

/// Adds how the line on a certificate ends, where one was audited.
fn push_certificate_ending(
    endings: &mut Vec<Ending>,
    reply: &Option<Reply>,
) -> Result<(), AllocError>
    ensures { OnOk result (endings.new.items ≡ endings.old.items ++ certificate_endings reply.now) }
{
    let Some(reply) = reply else {
        return Ok(());
    };
    endings.push(Ending {
        of_certificate: true,
        status: reply.status,
    })?;
    Ok(())
}
