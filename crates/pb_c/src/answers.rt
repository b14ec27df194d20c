//! The answers on files in memory. An outcome file comes as its bytes and whether it is given, as C has it.
ghost use Rattle.std.specs.Prelude.{◌≡◌, IfOk, option_copied, option_map};
ghost use Rattle.pb_audit.specs.Questions.{Answers};
ghost use Rattle.pb_c.specs.Commands.{measure_of, question_of};
ghost use Rattle.pb_c.specs.Files.{given_file};
ghost use Rattle.pb_page.specs.Groups.{ReadsGroupsPage};
ghost use Rattle.pb_page.specs.InTurn.{ReadsPage};
ghost use Rattle.pb_reply.specs.Inputs.{in_memory};
ghost use Rattle.pb_reply.specs.Inside.Loaded.{lent};
ghost use Rattle.pb_reply.specs.Turns.{gives, gives_file};

use pb_audit::{Answer, Format, Question, Status, answer};
use pb_certificate::Measure;
use pb_page::{Language, PageNames, groups_page_answer, page_answer};
use pb_price::Mode;
use pb_reply::File;
use std::alloc::{AllocError, Global};

/// The question of a number: 0 read, 1 prices, 2 violation, 3 refutation, 4 both, 5 explain, 6 margins, 7 tidy, 8
/// groups, 10 explain and 12 margins of groups by cost, and 9, 11 and 13 the same by counting.
pub(crate) fn question_of(number: u8, mode: Mode) -> Option<Question>
    ensures { result ≡ question_of number mode }
{
    Some(match number {
        0 => Question::Read,
        1 => Question::Prices(mode),
        2 => Question::Violation,
        3 => Question::Refutation(mode.stable),
        4 => Question::Both(mode),
        5 => Question::Explain(mode),
        6 => Question::Margins,
        7 => Question::Tidy,
        8 => Question::Groups(Measure::ByCost),
        9 => Question::Groups(Measure::ByCount),
        10 => Question::ExplainGroups(Measure::ByCost),
        11 => Question::ExplainGroups(Measure::ByCount),
        12 => Question::GroupMargins(Measure::ByCost),
        13 => Question::GroupMargins(Measure::ByCount),
        _ => return None,
    })
}

/// The measure by counting, or else that by cost.
fn measure_of(by_count: bool) -> Measure
    ensures { result ≡ measure_of by_count }
{
    if by_count {
        Measure::ByCount
    } else {
        Measure::ByCost
    }
}

/// The answer in a format to a question.
pub(crate) fn answer_on(
    alloc: Global,
    format: Format,
    question: Question,
    election: &[u8],
    outcome: &[u8],
    has_outcome: bool,
    certificate: &[u8],
    violation: &[u8],
) -> Result<Answer<Status>, AllocError>
    ensures { IfOk result (Answers format question (gives (in_memory election.now)) (gives_file (option_map in_memory (given_file has_outcome outcome.now))) (gives (in_memory certificate.now)) (gives (in_memory violation.now))) }
{
    let mut notes = Vec::new(alloc);
    noted_answer_on(
        alloc,
        format,
        question,
        election,
        outcome,
        has_outcome,
        certificate,
        violation,
        &mut notes,
    )
}

/// The answer in a format to a question. The notes on it are added to `notes`.
pub(crate) fn noted_answer_on(
    alloc: Global,
    format: Format,
    question: Question,
    election: &[u8],
    outcome: &[u8],
    has_outcome: bool,
    certificate: &[u8],
    violation: &[u8],
    notes: &mut Vec<String>,
) -> Result<Answer<Status>, AllocError>
    ensures { IfOk result (Answers format question (gives (in_memory election.now)) (gives_file (option_map in_memory (given_file has_outcome outcome.now))) (gives (in_memory certificate.now)) (gives (in_memory violation.now))) }
{
    let mut election = File::in_memory(election);
    let mut outcome = file_given(outcome, has_outcome);
    let mut certificate = File::in_memory(certificate);
    let mut violation = File::in_memory(violation);
    answer(
        alloc,
        format,
        question,
        &mut election,
        &mut outcome,
        &mut certificate,
        &mut violation,
        notes,
    )
}

/// The page about a certificate.
pub(crate) fn page_on(
    alloc: Global,
    names: PageNames<'_>,
    election: &[u8],
    outcome: &[u8],
    has_outcome: bool,
    certificate: &[u8],
    mode: Mode,
    language: Language,
) -> Result<Answer<Status>, AllocError>
    ensures { IfOk result (ReadsPage mode language (gives (in_memory election.now)) (gives_file (option_map in_memory (given_file has_outcome outcome.now))) (gives (in_memory certificate.now))) }
{
    let mut election = File::in_memory(election);
    let mut outcome = file_given(outcome, has_outcome);
    let mut certificate = File::in_memory(certificate);
    page_answer(
        alloc,
        names,
        &mut election,
        &mut outcome,
        &mut certificate,
        mode,
        language,
    )
}

/// The page about groups that fall short, by counting or else by cost.
pub(crate) fn groups_page_on(
    alloc: Global,
    names: PageNames<'_>,
    election: &[u8],
    outcome: &[u8],
    has_outcome: bool,
    by_count: bool,
    language: Language,
) -> Result<Answer<Status>, AllocError>
    ensures { IfOk result (ReadsGroupsPage (measure_of by_count) language (gives (in_memory election.now)) (gives_file (option_map in_memory (given_file has_outcome outcome.now)))) }
{
    let mut election = File::in_memory(election);
    let mut outcome = file_given(outcome, has_outcome);
    let measure = measure_of(by_count);
    groups_page_answer(alloc, names, &mut election, &mut outcome, measure, language)
}

/// The file, where it is given.
fn file_given(bytes: &[u8], is_given: bool) -> Option<File<'_>>
    ensures { option_map lent result ≡ option_map in_memory (given_file is_given bytes.now) }
{
    if is_given {
        Some(File::in_memory(bytes))
    } else {
        None
    }
}

/// The bytes, where they are given.
pub(crate) fn given_bytes(bytes: &[u8], is_given: bool) -> Option<&[u8]>
    ensures { option_copied result ≡ given_file is_given bytes.now }
{
    if is_given { Some(bytes) } else { None }
}
