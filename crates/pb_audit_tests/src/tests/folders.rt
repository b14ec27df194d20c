//! The report on entries of a folder.
use pb_audit::{
    Entry, FolderReport, FolderStatus, LentEntry, Loaded, ToldEntry, Total, folder_text,
    told_of_total,
};
use pb_election::Output;
use pb_price::Mode;
use pb_reply::File;
use pb_samples::files::{ELECTION, FAIR_VIOLATION, PRICES};
use std::alloc::{AllocError, Global};
use std::test::Fail;

/// A file of this text.
fn file(alloc: Global, text: &str) -> Result<Loaded, AllocError> {
    Ok(Loaded::Bytes(Vec::from_slice(alloc, text.as_bytes())?))
}

/// Two elections, of which the first has a certificate of each kind, and the second can't be read.
fn entries(alloc: Global) -> Result<Vec<Entry>, AllocError> {
    let one = Entry {
        name: String::from_str(alloc, "one")?,
        election: file(alloc, ELECTION)?,
        prices: Some(file(alloc, PRICES)?),
        violation: Some(file(alloc, FAIR_VIOLATION)?),
    };
    let two = unread(alloc)?;
    Ok(vec![in alloc; one, two]?)
}

/// An election that can't be read, with prices.
fn unread(alloc: Global) -> Result<Entry, AllocError> {
    Ok(Entry {
        name: String::from_str(alloc, "two")?,
        election: Loaded::Unread,
        prices: Some(file(alloc, PRICES)?),
        violation: None,
    })
}

const REPORT: &str = "\
one.pb: read 3 voters 3 projects 2 funded
one.prices.csv: supported priceable
one.violation.csv: failed V4 voter 1
two.pb: refused election 18 Read record 0
total 2 elections 1 yes 1 no 1 refused
";

#[test]
fn entries_are_reported_at_once_or_one_by_one(rt: HostRuntime) -> Result<(), Fail> {
    let alloc = rt.alloc();
    let entries = entries(alloc)?;
    let report = folder_text(alloc, &entries, Mode::PLAIN)?;
    assert!(rt; report.text.as_slice() == REPORT.as_bytes());
    assert!(rt; report.status == FolderStatus::SomeRefused);
    let mut one_by_one = FolderReport::new(alloc, false, Mode::PLAIN);
    for entry in &entries {
        one_by_one = one_by_one.add(alloc, entry)?;
    }
    let report = one_by_one.finish(alloc)?;
    let mut written = Vec::new(alloc);
    let status = report.write(&mut Output::new(&mut written))?;
    assert!(rt; status == FolderStatus::SomeRefused);
    assert!(rt; written.as_slice() == REPORT.as_bytes());
    Ok(())
}

#[test]
fn entries_are_reported_as_objects(rt: HostRuntime) -> Result<(), Fail> {
    let alloc = rt.alloc();
    let report = FolderReport::new(alloc, true, Mode::PLAIN);
    let report = report.add(alloc, &unread(alloc)?)?.finish(alloc)?;
    let want = "{\"election\":{\"answer\":\"refused\",\"input\":\"election\",\"kind\":\"refusal\",\
        \"name\":\"Read\",\"number\":18,\"record\":0,\"version\":1},\"kind\":\"entry\",\"name\":\"two\",\
        \"prices\":null,\"version\":1,\"violation\":null}\n\
        {\"elections\":1,\"kind\":\"total\",\"no\":0,\"refused\":1,\"version\":1,\"yes\":0}\n";
    assert!(rt; report.text.as_slice() == want.as_bytes());
    assert!(rt; report.status == FolderStatus::SomeRefused);
    Ok(())
}

const LINES: &str = "\
one.pb: read 3 voters 3 projects 2 funded
one.prices.csv: supported priceable
one.violation.csv: refused certificate 18 Read record 0
";

const TOTAL: &str = "\
{\"elections\":1,\"kind\":\"total\",\"no\":0,\"refused\":1,\"version\":1,\"yes\":1}
total 1 elections 1 yes 0 no 1 refused
";

#[test]
fn entries_are_told_of_by_themselves(rt: HostRuntime) -> Result<(), Fail> {
    let alloc = rt.alloc();
    let entry = LentEntry {
        name: "one",
        election: File::in_memory(ELECTION.as_bytes()),
        prices: Some(File::in_memory(PRICES.as_bytes())),
        violation: Some(File::Unread),
    };
    let told = ToldEntry::on(alloc, entry, Mode::PLAIN)?;
    let one = Total {
        elections: 1,
        yes: 1,
        no: 0,
        refused: 1,
    };
    assert!(rt; told.total == one);
    assert!(rt; told.text.as_slice().starts_with(b"{\"election\":"));
    assert!(rt; told.text.as_slice().ends_with(LINES.as_bytes()));
    let end = told_of_total(alloc, told.total)?;
    assert!(rt; end.text.as_slice() == TOTAL.as_bytes());
    assert!(rt; end.status == FolderStatus::SomeRefused);
    Ok(())
}
