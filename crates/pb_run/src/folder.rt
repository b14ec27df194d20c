//! The audit of a folder of elections.
ghost use Rattle.std.specs.Prelude.{◌≡◌, IfOk, option_map, string_bytes};
ghost use Rattle.pb_audit.specs.Inside.Folders.{files_of};
ghost use Rattle.pb_reply.specs.Inside.Loaded.{delivery_of};
ghost use Rattle.pb_reply.specs.Replies.{answer_as, refused};
ghost use Rattle.pb_reply.specs.Writing.{Writes};
ghost use Rattle.pb_run.specs.Asking.{format_of};
ghost use Rattle.pb_run.specs.Folders.{AddsEntry, ListsFolder, Loads, LoadsBeside, LoadsEntry, path_in, unlisted};
ghost use Rattle.pb_run.specs.Reporting.{TakesEntry, WritesAhead, WritesReport};
ghost use Rattle.pb_run.specs.Runs.{EndsFolder, end_of};

use crate::asking::format_of;
use crate::end::End;
use crate::files::Files;
use crate::listed::ListFault;
use crate::listing::Listing;
use crate::progress::Progress;
use crate::refusals::tell_unlisted;
use pb_audit::endings::{ELECTION, PRICES, VIOLATION};
use pb_audit::{
    Answer, Entry, Fault, FolderReport, FolderStatus, InputFault, InputName, InputRefusal, Loaded,
    Status,
};
use pb_cohesion::Mode;
use pb_election::Sink;
use pb_hints::push_shown;
use pb_reply::{Given, refused};
use std::alloc::{AllocError, Global};
use std::io::{IsTerminal, Write};

/// How many files are named in a line.
const MOST_NAMED: usize = 5;

/// What is told of names, ahead of them and behind them.
const NOT_AUDITED: &str = "not audited";

const UNSEEN: &str = "names with characters that can't be seen";

const NAMES: &str =
    "an election is NAME.pb, and its certificates are NAME.prices.csv and NAME.violation.csv, with endings in lower case";

const REGULAR: &str = "only regular files are, and no links, folders or pipes";

const CLEAN: &str = "their names have control characters";

const AS_THEY_ARE: &str = "the report has them as they are";

/// Writes the report on a folder of elections on `out`: as lines once the whole of it is there, and as JSON each object
/// once that is there. Where `err` is a terminal, it tells there how far it is. That the folder has no election, or can't
/// be listed, is told on `err` as well, and so are files that may be meant to be audited and aren't.
pub fn run_folder<F: Files, W: Sink, E: Write + IsTerminal>(
    alloc: Global,
    files: &mut F,
    folder: &str,
    mode: Mode,
    json: bool,
    out: &mut W,
    err: &mut E,
) -> Result<End, Fault>
    ensures { EndsFolder F.lists F.hands F.Input.delivers W.Sink json mode folder.now (end_of result) files.old files.new out.old out.new }
{
    let listing = match listing_of(alloc, files, folder) {
        Ok(listing) => listing,
        Err(ListFault::Memory) => return Err(Fault::Memory),
        Err(ListFault::Unlisted(failure)) => {
            let status = refuse(alloc, json, out)?;
            tell_unlisted(alloc, files, folder, failure, err);
            return Ok(End::Answered(status));
        }
    };
    let status = write_report(alloc, files, folder, &listing, mode, json, out, err)?;
    tell_beside(alloc, &listing, err);
    Ok(End::Reported(status))
}

/// Writes that a folder can't be listed.
fn refuse<W: Sink>(alloc: Global, json: bool, out: &mut W) -> Result<Status, Fault>
    ensures { Writes W.Sink (λ answer. answer ≡ answer_as (format_of json) (refused unlisted)) result out.old out.new }
{
    let reply = refused(alloc, unlisted())?;
    let answer = reply.answer_as(alloc, format_of(json))?;
    answer.write(out)
}

/// Writes the report on the elections and the certificates of a folder.
pub fn write_report<F: Files, W: Sink, E: Write + IsTerminal>(
    alloc: Global,
    files: &mut F,
    folder: &str,
    listing: &Listing,
    mode: Mode,
    json: bool,
    out: &mut W,
    err: &mut E,
) -> Result<FolderStatus, Fault>
    ensures { WritesReport F.hands F.Input.delivers W.Sink json mode folder.now listing.now result files.old files.new out.old out.new }
{
    let mut progress = Progress::new(err, listing.elections().len());
    let rest = rest_of_report(
        alloc,
        files,
        folder,
        listing,
        mode,
        json,
        out,
        &mut progress,
    );
    progress.clear();
    rest?.write(out)
}

/// Why a folder is refused that can't be listed.
fn unlisted() -> InputRefusal
    ensures { result ≡ unlisted }
{
    InputRefusal {
        input: InputName::Folder,
        fault: InputFault::Unread,
    }
}

/// The elections and the certificates of a folder.
fn listing_of<F: Files>(alloc: Global, files: &mut F, folder: &str) -> Result<Listing, ListFault>
    ensures { IfOk result (ListsFolder F.lists folder.now files.old files.new) }
{
    let listed = files.list(alloc, folder)?;
    Ok(Listing::of(alloc, &listed)?)
}

/// Tells that there is no election, which files may be meant to be audited and aren't, and in which names something
/// can't be seen. What `err` does not take is lost, and the files are not told if memory runs out.
fn tell_beside<E: Write>(alloc: Global, listing: &Listing, err: &mut E) {
    if listing.elections().is_empty() {
        let _ = writeln!(
            err,
            "pbaudit: no election was found: the folder has no file named NAME.pb"
        );
    }
    if let Ok(lines) = lines_on_names(alloc, listing) {
        let _ = err.write_all(lines.as_bytes());
    }
}

/// The lines that name files, a line for each of the reasons for which there are any.
fn lines_on_names(alloc: Global, listing: &Listing) -> Result<String, AllocError> {
    let mut lines = String::new(alloc);
    let overlooked = listing.overlooked(alloc)?;
    let mut rule = String::from_str(alloc, NAMES)?;
    if listing.has_refutations() {
        rule.push_str("; a refutation is audited by itself, with pbaudit refutation")?;
    }
    push_names(&mut lines, NOT_AUDITED, &overlooked, &rule)?;
    push_names(&mut lines, NOT_AUDITED, listing.irregular(), REGULAR)?;
    push_names(&mut lines, NOT_AUDITED, listing.unclean(), CLEAN)?;
    push_names(&mut lines, UNSEEN, &listing.unseen(alloc)?, AS_THEY_ARE)?;
    Ok(lines)
}

/// Adds a line of these words, the first of the names, and a rule, where there are names.
fn push_names(
    lines: &mut String,
    words: &str,
    names: &[String],
    rule: &str,
) -> Result<(), AllocError> {
    if names.is_empty() {
        return Ok(());
    }
    write!(lines, "pbaudit: {words}: ")?;
    for (place, name) in names.iter().take(MOST_NAMED).enumerate() {
        if place > 0 {
            lines.push_str(", ")?;
        }
        push_shown(lines, name)?;
    }
    if names.len() > MOST_NAMED {
        write!(lines, " and {} more", names.len() - MOST_NAMED)?;
    }
    writeln!(lines, "; {rule}")
}

/// The report on the elections and the certificates of a folder, but for what is written of it: as JSON the object of
/// each election. One entry after the other is loaded, audited and let go.
fn rest_of_report<F: Files, W: Sink, E: Write + IsTerminal>(
    alloc: Global,
    files: &mut F,
    folder: &str,
    listing: &Listing,
    mode: Mode,
    json: bool,
    out: &mut W,
    progress: &mut Progress<'_, E>,
) -> Result<Answer<FolderStatus>, Fault>
    ensures { WritesAhead F.hands F.Input.delivers W.Sink json mode folder.now listing.now result files.old files.new out.old out.new }
{
    let mut report = FolderReport::new(alloc, json, mode);
    for name in listing.elections() {
        progress.tell(name);
        report = take_entry(
            alloc, files, folder, listing, name, report, json, out, progress,
        )?;
    }
    Ok(report.finish(alloc)?)
}

/// The report with the files of one name more, of which as JSON all is written that is there.
fn take_entry<F: Files, W: Sink, E: Write + IsTerminal>(
    alloc: Global,
    files: &mut F,
    folder: &str,
    listing: &Listing,
    name: &str,
    report: FolderReport,
    json: bool,
    out: &mut W,
    progress: &mut Progress<'_, E>,
) -> Result<FolderReport, Fault>
    ensures { TakesEntry F.hands F.Input.delivers W.Sink json folder.now listing.now name.now report result files.old files.new out.old out.new }
{
    let report = add_entry(alloc, files, folder, listing, name, report)?;
    if json {
        progress.clear();
        return Ok(report.write(out)?);
    }
    Ok(report)
}

/// The report with the files of one name more.
fn add_entry<F: Files>(
    alloc: Global,
    files: &mut F,
    folder: &str,
    listing: &Listing,
    name: &str,
    report: FolderReport,
) -> Result<FolderReport, AllocError>
    ensures { IfOk result (AddsEntry F.hands F.Input.delivers folder.now listing.now name.now files.old files.new report) }
{
    let entry = load_entry(alloc, files, folder, listing, name)?;
    Ok(report.add(alloc, &entry)?)
}

/// Loads the files of one name.
fn load_entry<F: Files>(
    alloc: Global,
    files: &mut F,
    folder: &str,
    listing: &Listing,
    name: &str,
) -> Result<Entry, AllocError>
    ensures { IfOk result (λ entry. LoadsEntry F.hands F.Input.delivers folder.now listing.now name.now files.old files.new (files_of entry)) }
{
    Ok(Entry {
        name: String::from_str(alloc, name)?,
        election: load_file(alloc, files, folder, name, ELECTION)?,
        prices: load_beside(alloc, files, folder, name, PRICES, listing.has_prices(name))?,
        violation: load_beside(
            alloc,
            files,
            folder,
            name,
            VIOLATION,
            listing.has_violation(name),
        )?,
    })
}

/// Loads a certificate, where it is there.
fn load_beside<F: Files>(
    alloc: Global,
    files: &mut F,
    folder: &str,
    name: &str,
    ending: &str,
    is_there: bool,
) -> Result<Option<Loaded>, AllocError>
    ensures { IfOk result (λ loaded. LoadsBeside F.hands F.Input.delivers is_there (path_in folder.now name.now ending.now) files.old files.new (option_map delivery_of loaded)) }
{
    match is_there {
        true => Ok(Some(load_file(alloc, files, folder, name, ending)?)),
        false => Ok(None),
    }
}

/// Loads the file of this name and ending in a folder.
fn load_file<F: Files>(
    alloc: Global,
    files: &mut F,
    folder: &str,
    name: &str,
    ending: &str,
) -> Result<Loaded, AllocError>
    ensures { IfOk result (λ loaded. Loads F.hands F.Input.delivers (path_in folder.now name.now ending.now) files.old files.new (delivery_of loaded)) }
{
    let path = path_in(alloc, folder, name, ending)?;
    let mut file = files.at(alloc, &path)?;
    Ok(file.take(alloc)?)
}

/// The path of the file of this name and ending in a folder.
fn path_in(alloc: Global, folder: &str, name: &str, ending: &str) -> Result<String, AllocError>
    ensures { IfOk result (λ path. string_bytes path ≡ path_in folder.now name.now ending.now) }
{
    format!(in alloc; "{folder}/{name}{ending}")
}
