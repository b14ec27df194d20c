//! Pages about certificates and about groups: each call once, and what no file shows from outside. What stands on a page is
//! tried there.
mod answers;
mod groups;
mod names;
mod ranking;
mod sums;

use pb_certificate::Measure;
use pb_page::{Language, PageNames, groups_page_answer, page_answer};
use pb_price::Mode;
use pb_reply::{File, Status};
use std::alloc::Global;
use std::test::Fail;

/// The page on an election and on a certificate in a file of this name, and how it ends.
fn page<'a>(
    alloc: Global,
    election: &'a str,
    name: &'a [u8],
    certificate: &'a str,
    language: Language,
) -> Result<(String, Status), Fail> {
    page_in(alloc, Mode::PLAIN, election, name, certificate, language)
}

/// The same in a mode.
fn page_in<'a>(
    alloc: Global,
    mode: Mode,
    election: &'a str,
    name: &'a [u8],
    certificate: &'a str,
    language: Language,
) -> Result<(String, Status), Fail> {
    let names = PageNames {
        election: b"elections/t.pb",
        outcome: b"",
        certificate: name,
    };
    let mut no_outcome: Option<File<'_>> = None;
    let answer = page_answer(
        alloc,
        names,
        &mut File::in_memory(election.as_bytes()),
        &mut no_outcome,
        &mut File::in_memory(certificate.as_bytes()),
        mode,
        language,
    )?;
    Ok((String::from_utf8_lossy(alloc, &answer.text)?, answer.status))
}

/// The page about groups by a measure on an election, and on an outcome file where one is given, and how it ends.
fn groups_page(
    alloc: Global,
    election: &str,
    outcome: Option<&str>,
    measure: Measure,
    language: Language,
) -> Result<(String, Status), Fail> {
    let names = PageNames {
        election: b"elections/t.pb",
        outcome: b"elections/o.csv",
        certificate: b"",
    };
    let mut outcome = outcome.map(|text| File::in_memory(text.as_bytes()));
    let answer = groups_page_answer(
        alloc,
        names,
        &mut File::in_memory(election.as_bytes()),
        &mut outcome,
        measure,
        language,
    )?;
    Ok((String::from_utf8_lossy(alloc, &answer.text)?, answer.status))
}
