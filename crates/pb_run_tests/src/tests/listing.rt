//! The listing of a folder, and what is reported of it.
use super::fakes::FakeWriter;
use super::room::Room;
use pb_audit::FolderStatus;
use pb_election::Output;
use pb_price::Mode;
use pb_run::{Files, ListFault, Listing, Machine, write_report};
use pb_samples::files::{ELECTION, PRICES};
use std::alloc::Global;
use std::cell::Cell;
use std::io::ErrorKind;
use std::test::Fail;
use std::{fs, io};

/// What is reported of a listing, and how it ends.
fn reported(
    alloc: Global,
    files: &mut Machine<'_>,
    folder: &str,
    listing: &Listing,
    json: bool,
) -> Result<(String, FolderStatus), Fail> {
    let (mut written, mut err) = (Vec::new(alloc), FakeWriter::new(alloc));
    let status = write_report(
        alloc,
        files,
        folder,
        listing,
        Mode::PLAIN,
        json,
        &mut Output::new(&mut written),
        &mut err,
    )?;
    Ok((String::from_utf8(written)?, status))
}

#[test]
fn files_that_vanish_after_the_listing_are_refused(rt: HostRuntime) -> Result<(), Fail> {
    let room = Room::new(&rt, "vanish")?;
    let gone = room.write("gone.pb", ELECTION.as_bytes())?;
    room.write("here.pb", ELECTION.as_bytes())?;
    let prices = room.write("here.prices.csv", PRICES.as_bytes())?;
    let folder = room.path()?;
    let failure = Cell::new(None);
    let mut files = Machine::new(&rt, &failure);
    let Ok(listed) = files.list(rt.alloc(), &folder) else {
        return Err(Fail::new("not listed"));
    };
    let listing = Listing::of(rt.alloc(), &listed)?;
    fs::remove_file(&rt, gone.as_str())?;
    fs::remove_file(&rt, prices.as_str())?;
    room.write("late.pb", ELECTION.as_bytes())?;
    let (text, status) = reported(rt.alloc(), &mut files, &folder, &listing, false)?;
    let wanted = "gone.pb: refused election 18 Read record 0\n\
        here.pb: read 3 voters 3 projects 2 funded\n\
        here.prices.csv: refused certificate 18 Read record 0\n\
        total 2 elections 0 yes 0 no 2 refused\n";
    assert!(rt; text.as_str() == wanted, "{text}");
    assert!(rt; status == FolderStatus::SomeRefused);
    let (text, status) = reported(rt.alloc(), &mut files, &folder, &listing, true)?;
    let total =
        "{\"elections\":2,\"kind\":\"total\",\"no\":0,\"refused\":2,\"version\":1,\"yes\":0}";
    assert!(rt;
        text.lines().count() == 3 && text.lines().last() == Some(total),
        "{text}"
    );
    assert!(rt; status == FolderStatus::SomeRefused);
    Ok(())
}

#[test]
fn want_of_memory_in_a_listing_is_told_apart(rt: HostRuntime) -> Result<(), Fail> {
    for (error, fault) in [
        (io::Error::from(ErrorKind::OutOfMemory), ListFault::Memory),
        (
            io::Error::from_raw_os_error(2),
            ListFault::Unlisted(Some(2)),
        ),
        (
            io::Error::from(ErrorKind::InvalidFilename),
            ListFault::Unlisted(None),
        ),
    ] {
        assert_eq!(rt; ListFault::from(error), fault);
    }
    Ok(())
}
