//! The files that the page is about, and how to check it.
ghost use Rattle.std.specs.Prelude.{ℕ, List, [], ◌∷◌, ◌++◌, IfSome, map, option_to_list};
ghost use Rattle.pb_page.specs.Sums.{HasInOrder};
ghost use Rattle.pb_page.specs.Taken as spec;
ghost use Rattle.pb_page.specs.Taken.{sums_shown};

use pb_case::{Case, Fillings, InputFile, PageFiles, push_label};
use pb_certificate::Measure;
use pb_figures::CertificateFigures;
use pb_markup::{Page, Tag};
use pb_words::{Sentence, VERSION};
use std::alloc::{AllocError, Global};

// No file system has longer names, in bytes.
const MOST_IN_A_WORD: usize = 255;

/// Adds the files with their sizes and sums, and how to check the page, up to the line that the program prints.
pub(crate) fn push_files(page: &mut Page, case: &Case<'_>)
    ensures { IfSome page.new (HasInOrder (sums_shown (case.now).files)) }
{
    page.open(Tag::Footer);
    page.element(Tag::H2, case.words.say(Sentence::Files));
    page.open_class(Tag::Dl, "files");
    push_file(page, case, Sentence::ElectionFile, &case.files.election);
    push_given(page, case, Sentence::OutcomeFile, &case.files.outcome);
    push_given(
        page,
        case,
        Sentence::CertificateFile,
        &case.files.certificate,
    );
    page.close();
    page.append(checks(case));
}

/// Adds what stands behind that line, and ends the part.
pub(crate) fn push_behind_line(page: &mut Page, case: &Case<'_>) {
    page.close();
    page.element(Tag::P, case.words.say(Sentence::CheckBrowser));
    page.element_class(Tag::P, "note", case.words.say(Sentence::Trust));
    let fillings = Fillings::none(case.words.alloc).and("version", VERSION);
    case.say_in(page, Tag::P, "note", Sentence::MadeBy, &fillings);
    page.close();
}

// Adds a file, where one is given.
fn push_given(page: &mut Page, case: &Case<'_>, role: Sentence, file: &Option<InputFile>)
    ensures { (texts : List (List ℕ)) → IfSome page.old (HasInOrder texts) → IfSome page.new (HasInOrder (texts ++ map spec.sum_of (option_to_list file.now))) }
{
    match file {
        Some(file) => push_file(page, case, role, file),
        None => {}
    }
}

// Adds a file, with its sum.
fn push_file(page: &mut Page, case: &Case<'_>, role: Sentence, file: &InputFile)
    ensures { (texts : List (List ℕ)) → IfSome page.old (HasInOrder texts) → IfSome page.new (HasInOrder (texts ++ spec.sum_of file.now ∷ [])) }
{
    page.append(facts_of(case, role, file));
    page.element(Tag::Code, &file.sum);
    page.close();
    page.close();
}

// A file's name and size, up to its sum.
fn facts_of(case: &Case<'_>, role: Sentence, file: &InputFile) -> Page {
    let bytes = file.length as u64;
    let mut page = Page::new(case.words.alloc);
    page.open(Tag::Div);
    page.element(Tag::Dt, case.words.say(role));
    page.open(Tag::Dd);
    push_label(&mut page, case, "named", base_name(file));
    page.text(", ");
    let fillings = Fillings::none(case.words.alloc).and_number("count", bytes);
    case.say(
        &mut page,
        Sentence::Bytes(case.words.plural(bytes)),
        &fillings,
    );
    page.open(Tag::Br);
    page.text("SHA-256 ");
    page
}

// How to check the page, up to the line that the program prints.
fn checks(case: &Case<'_>) -> Page {
    let mut page = Page::new(case.words.alloc);
    page.open(Tag::P);
    if fits_a_command(&case.files) {
        push_command(&mut page, case);
    } else {
        push_without_command(&mut page, case);
    }
    page.open(Tag::Br);
    page.text(case.words.say(Sentence::CheckAnswer));
    page.text(" ");
    page
}

// Whether the files can be named in a command that gives the same answer. Their names stand there whole or not at all.
fn fits_a_command(files: &PageFiles) -> bool {
    is_word(&files.election)
        && is_other_word(&files.outcome, &files.election)
        && is_other_word(&files.certificate, &files.election)
        && match &files.outcome {
            Some(outcome) => is_other_word(&files.certificate, outcome),
            None => true,
        }
}

// Whether a file, where one is given, can be a word of a command, and isn't named as another one.
fn is_other_word(file: &Option<InputFile>, other: &InputFile) -> bool {
    match file {
        Some(file) => is_word(file) && base_name(file) != base_name(other),
        None => true,
    }
}

// Whether the name of a file, without its folders, can be a word of a command.
fn is_word(file: &InputFile) -> bool {
    let name = base_name(file);
    file.is_exact
        && !name.is_empty()
        && name.chars().nth(MOST_IN_A_WORD).is_none()
        && name.chars().all(is_kept)
}

// Whether each shell reads a character within quotes as itself, and browsers copy it so. Some shells read a backslash
// there otherwise, and spaces that aren't ASCII are copied as others.
fn is_kept(c: char) -> bool {
    c == ' ' || (c != '\\' && !c.is_whitespace())
}

// Adds the command that gives the same answer.
fn push_command(page: &mut Page, case: &Case<'_>) {
    let alloc = case.words.alloc;
    page.text(case.words.say(Sentence::CheckProgram));
    page.open(Tag::Br);
    page.open(Tag::Code);
    page.text("pbaudit explain ");
    push_word(alloc, page, &case.files.election);
    if let Some(certificate) = &case.files.certificate {
        page.text(" ");
        push_word(alloc, page, certificate);
    }
    if let Some(outcome) = &case.files.outcome {
        page.text(" --outcome ");
        push_word(alloc, page, outcome);
    }
    page.text_made(options(case));
    page.close();
}

// Adds which files to give to the program, and the options, where their names are no words of a command.
fn push_without_command(page: &mut Page, case: &Case<'_>) {
    page.text(case.words.say(Sentence::CheckByHand));
    let Ok(given) = options_by_hand(case) else {
        return page.fail();
    };
    if given.is_empty() {
        return;
    }
    page.text(" ");
    let fillings = Fillings::none(case.words.alloc).and("options", given.trim_start());
    case.say(page, Sentence::CheckOptions, &fillings);
}

// The options to give with files that can't be named, each behind a blank.
fn options_by_hand(case: &Case<'_>) -> Result<String, AllocError> {
    let mut given = String::new(case.words.alloc);
    if case.files.outcome.is_some() {
        given.push_str(" --outcome")?;
    }
    given.push_str(&options(case)?)?;
    Ok(given)
}

// The options that ask for what was asked, each behind a blank.
fn options(case: &Case<'_>) -> Result<String, AllocError> {
    let mut options = String::new(case.words.alloc);
    if let CertificateFigures::Groups(figures) = &case.told.found {
        options.push_str(" --groups")?;
        if figures.measure == Measure::ByCount {
            options.push_str(" --satisfaction count")?;
        }
        return Ok(options);
    }
    let mode = case.told.mode;
    if mode.stable && !matches!(case.told.found, CertificateFigures::Violation(_)) {
        options.push_str(" --stable")?;
    }
    if !matches!(case.told.found, CertificateFigures::Prices(_)) {
        return Ok(options);
    }
    if !mode.exhaustive {
        options.push_str(" --no-exhaustive")?;
    }
    if mode.cover {
        options.push_str(" --cover")?;
    }
    Ok(options)
}

// Adds the name of a file as a word of a command.
fn push_word(alloc: Global, page: &mut Page, file: &InputFile) {
    page.open(Tag::Bdi);
    page.text_made(word_of(alloc, base_name(file)));
    page.close();
}

// A name as a word of a command: in quotes, unless it has plain letters alone.
fn word_of(alloc: Global, name: &str) -> Result<String, AllocError> {
    let mut word = String::new(alloc);
    // What begins with a dash is an option.
    if name.starts_with('-') {
        word.push_str("./")?;
    }
    word.push_str(name)?;
    if word.chars().all(is_plain) {
        return Ok(word);
    }
    let quoted = word.replace(alloc, '\'', "'\\''")?;
    format!(in alloc; "'{quoted}'")
}

// The name of a file without its folders.
fn base_name(file: &InputFile) -> &str {
    match file.name.rsplit_once('/') {
        Some((_, name)) => name,
        None => &file.name,
    }
}

fn is_plain(c: char) -> bool {
    c.is_ascii_alphanumeric() || matches!(c, '.' | '_' | '-' | '/')
}
