//! The auditor for C: whole files in memory in, and the answer's text in memory out. `include/pbaudit.h` says the same
//! in the words of C. By its contract a call reports the number, the text and its length of what it answers on these
//! bytes, and what is told of that in numbers; or that memory ran out, and then nothing is written. That it runs out only
//! at a failed allocation is tested and not proved.
#![tactic(auto)]

ghost use Rattle.std.specs.Prelude.{◌≡◌, ◌≤◌, IfNone, IfSome, option_map};
ghost use Rattle.pb_audit.specs.Questions.{Answers};
ghost use Rattle.pb_c.specs.Commands.{measure_of, question_of};
ghost use Rattle.pb_c.specs.Files.{given_file, given_mode};
ghost use Rattle.pb_c.specs.Facts.{no_facts};
ghost use Rattle.pb_c.specs.Folders.{IsNoEntry, ReportsEntry, ReportsTotal};
ghost use Rattle.pb_c.specs.Folders as folder;
ghost use Rattle.pb_c.specs.Kinds.{TellsKind};
ghost use Rattle.pb_c.specs.Reports.{IsNothing, Reports, ReportsFacts};
ghost use Rattle.pb_c.specs.Whole.{IsWhole};
ghost use Rattle.pb_page.specs.Groups.{ReadsGroupsPage};
ghost use Rattle.pb_page.specs.InTurn.{ReadsPage};
ghost use Rattle.pb_reply.specs.Inputs.{in_memory};
ghost use Rattle.pb_reply.specs.Turns.{gives, gives_file};
ghost use Rattle.pb_reply.specs.declared.answer.Format.TheVariants.{Json, JsonAndLines, Lines};
ghost use Rattle.pb_reply.specs.declared.status.Status.TheVariants.{Yes};
ghost use Rattle.pb_words.specs.Languages.{language_of};

mod answers;
mod facts;
mod faults;
mod folders;
mod groups;
mod hints;
mod kinds;
mod notes;
mod report;
mod whole;

use answers::{answer_on, given_bytes, groups_page_on, page_on, question_of};
use facts::NO_FACTS;
pub use facts::{Culprit, Facts};
use folders::{entry_of, report_entry, report_no_entry, report_total};
use groups::groups_on;
use hints::hint_answer;
use kinds::tell_kind;
use notes::note_answer;
use pb_audit::{Format, ToldEntry, Total};
use pb_page::{Language, PageNames};
use pb_price::Mode;
use report::{report, report_facts, report_nothing};
use std::alloc::Global;
use whole::report_on;

/// Answers a question: 0 where the answer is yes, or what was asked for is given, 1 where it is no, 2 where a file is
/// refused, 3 where there is no such question, and then nothing is written and `needed` is 0, and 4 where memory ran out.
/// The question is a number: 0 what an election has, 1 prices, 2 a violation, 3 a refutation, 4 prices and a violation, 5
/// the explanation of a certificate of any kind, 6 the margins of prices, 7 the canonical text of prices, 8 whether a
/// group falls short by cost, 10 that with the figures of one group, 12 the margins of groups, and 9, 11 and 13 the same by
/// counting. The outcome is that of the outcome file where `has_outcome`, and else the election's own. `violation` is
/// looked at for 4 alone, and the certificate for 1 to 7. The text goes to the front of `out` if it fits, and its length
/// in bytes to `needed`; where memory ran out, that is 0. What is told in numbers goes to `facts`.
#[unsafe(no_mangle)]
pub extern "C" fn pbaudit_answer(
    alloc: Global,
    question: u8,
    election: &[u8],
    outcome: &[u8],
    has_outcome: bool,
    certificate: &[u8],
    violation: &[u8],
    stable: bool,
    exhaustive: bool,
    cover: bool,
    facts: &mut Facts,
    out: &mut [u8],
    needed: &mut usize,
) -> u8
    ensures answer { IfSome (question_of question (given_mode stable exhaustive cover)) (λ q. ReportsFacts (Answers Lines q (gives (in_memory election.now)) (gives_file (option_map in_memory (given_file has_outcome outcome.now))) (gives (in_memory certificate.now)) (gives (in_memory violation.now))) result facts.new out.old out.new needed.new) }
    ensures no_question { IfNone (question_of question (given_mode stable exhaustive cover)) (IsNothing result facts.new out.old out.new needed.new) }
{
    let mode = Mode {
        stable,
        exhaustive,
        cover,
    };
    let Some(question) = question_of(question, mode) else {
        return report_nothing(facts, needed);
    };
    let answer = answer_on(
        alloc,
        Format::Lines,
        question,
        election,
        outcome,
        has_outcome,
        certificate,
        violation,
    );
    report_facts(&answer, facts, out, needed)
}

/// Answers a question as one JSON object, in a line: 0 to 4 as `pbaudit_answer` does, whose questions and files these are.
/// The canonical text of prices is no object, but as `pbaudit_answer` gives it; so is what is told of a file that is
/// refused there. `docs/JSON.md` describes the objects. The text and its length are given as by
/// `pbaudit_answer`.
#[unsafe(no_mangle)]
pub extern "C" fn pbaudit_json(
    alloc: Global,
    question: u8,
    election: &[u8],
    outcome: &[u8],
    has_outcome: bool,
    certificate: &[u8],
    violation: &[u8],
    stable: bool,
    exhaustive: bool,
    cover: bool,
    out: &mut [u8],
    needed: &mut usize,
) -> u8
    ensures answer { IfSome (question_of question (given_mode stable exhaustive cover)) (λ q. Reports (Answers Json q (gives (in_memory election.now)) (gives_file (option_map in_memory (given_file has_outcome outcome.now))) (gives (in_memory certificate.now)) (gives (in_memory violation.now))) result out.old out.new needed.new) }
    ensures no_question { IfNone (question_of question (given_mode stable exhaustive cover)) (IsNothing result no_facts out.old out.new needed.new) }
{
    let mode = Mode {
        stable,
        exhaustive,
        cover,
    };
    let mut untold = NO_FACTS;
    let Some(asked) = question_of(question, mode) else {
        return report_nothing(&mut untold, needed);
    };
    let object = answer_on(
        alloc,
        Format::Json,
        asked,
        election,
        outcome,
        has_outcome,
        certificate,
        violation,
    );
    report(&object, out, needed)
}

/// Reports all that is to be told of the answer to a question, whose files are read once: 0 to 4 as `pbaudit_answer` does,
/// whose questions and files these are. The text has three parts. First a line, a JSON object of what stands beside the
/// answer: `notes`, a list of texts; `refusal`, the object of the refusal where a file is refused, and null otherwise; and
/// `hint`, what a person is told of that, with the `line` of the file on which the refused record begins, from 1, or null,
/// and `sentences`. Behind it the text of `pbaudit_json`, one line, where the answer is an object: the
/// canonical text of prices is none. And behind that the text of `pbaudit_answer`. Notes and hints are for people; that
/// they are the right ones is tested and not proved. The text and its length are given as by `pbaudit_answer`.
#[unsafe(no_mangle)]
pub extern "C" fn pbaudit_report(
    alloc: Global,
    question: u8,
    election: &[u8],
    outcome: &[u8],
    has_outcome: bool,
    certificate: &[u8],
    violation: &[u8],
    stable: bool,
    exhaustive: bool,
    cover: bool,
    out: &mut [u8],
    needed: &mut usize,
) -> u8
    ensures answer { IfSome (question_of question (given_mode stable exhaustive cover)) (λ q. Reports (IsWhole (Answers JsonAndLines q (gives (in_memory election.now)) (gives_file (option_map in_memory (given_file has_outcome outcome.now))) (gives (in_memory certificate.now)) (gives (in_memory violation.now)))) result out.old out.new needed.new) }
    ensures no_question { IfNone (question_of question (given_mode stable exhaustive cover)) (IsNothing result no_facts out.old out.new needed.new) }
{
    let mode = Mode {
        stable,
        exhaustive,
        cover,
    };
    let mut untold = NO_FACTS;
    let Some(asked) = question_of(question, mode) else {
        return report_nothing(&mut untold, needed);
    };
    let whole = report_on(
        alloc,
        asked,
        election,
        outcome,
        has_outcome,
        certificate,
        violation,
    );
    report(&whole, out, needed)
}

/// Makes the page about a certificate of any kind, as HTML: 0 where the prices support the outcome, the group and its
/// demand are a violation, or the weights refute, 1 where it isn't so, 2 where a file is refused, and then the text is the
/// line of the refusal, 3 where there is no such language, and then nothing is written and `needed` is 0, and 4 where
/// memory ran out. The page shows the files by these names, which needn't be UTF-8. The language is a code, as `en`. A
/// certificate whose first record is the head of a violation certificate or of a refutation is taken as one; any other is
/// taken as prices. For a violation `stable`, `exhaustive` and `cover` count for nothing, and for a refutation `stable`
/// alone counts. The rest is as for `pbaudit_answer`.
#[unsafe(no_mangle)]
pub extern "C" fn pbaudit_answer_page(
    alloc: Global,
    election: &[u8],
    election_name: &[u8],
    outcome: &[u8],
    outcome_name: &[u8],
    has_outcome: bool,
    certificate: &[u8],
    certificate_name: &[u8],
    stable: bool,
    exhaustive: bool,
    cover: bool,
    language: &[u8],
    facts: &mut Facts,
    out: &mut [u8],
    needed: &mut usize,
) -> u8
    ensures page { IfSome (language_of language.now) (λ l. ReportsFacts (ReadsPage (given_mode stable exhaustive cover) l (gives (in_memory election.now)) (gives_file (option_map in_memory (given_file has_outcome outcome.now))) (gives (in_memory certificate.now))) result facts.new out.old out.new needed.new) }
    ensures no_language { IfNone (language_of language.now) (IsNothing result facts.new out.old out.new needed.new) }
{
    let Some(language) = Language::of_code(language) else {
        return report_nothing(facts, needed);
    };
    let names = PageNames {
        election: election_name,
        outcome: outcome_name,
        certificate: certificate_name,
    };
    let mode = Mode {
        stable,
        exhaustive,
        cover,
    };
    let answer = page_on(
        alloc,
        names,
        election,
        outcome,
        has_outcome,
        certificate,
        mode,
        language,
    );
    report_facts(&answer, facts, out, needed)
}

/// Makes the page about groups that fall short, by counting where `by_count` and else by cost, as HTML: 0 where none does,
/// 1 where one does, and 2, 3 and 4 as for `pbaudit_answer_page`. No certificate is taken. The rest is as there.
#[unsafe(no_mangle)]
pub extern "C" fn pbaudit_groups_page(
    alloc: Global,
    election: &[u8],
    election_name: &[u8],
    outcome: &[u8],
    outcome_name: &[u8],
    has_outcome: bool,
    by_count: bool,
    language: &[u8],
    facts: &mut Facts,
    out: &mut [u8],
    needed: &mut usize,
) -> u8
    ensures page { IfSome (language_of language.now) (λ l. ReportsFacts (ReadsGroupsPage (measure_of by_count) l (gives (in_memory election.now)) (gives_file (option_map in_memory (given_file has_outcome outcome.now)))) result facts.new out.old out.new needed.new) }
    ensures no_language { IfNone (language_of language.now) (IsNothing result facts.new out.old out.new needed.new) }
{
    let Some(language) = Language::of_code(language) else {
        return report_nothing(facts, needed);
    };
    let names = PageNames {
        election: election_name,
        outcome: outcome_name,
        certificate: &[],
    };
    let answer = groups_page_on(
        alloc,
        names,
        election,
        outcome,
        has_outcome,
        by_count,
        language,
    );
    report_facts(&answer, facts, out, needed)
}

/// Tells what is found of the files of one name in a folder, as `pbaudit folder` does: the object of these, in a line, and
/// behind it their lines. It answers 0 where no file is refused and each certificate is answered yes, 1 where one is
/// answered no and none is refused, 2 where a file is refused, 3 where there is no such entry, and 4 where memory ran
/// out. `election_state` and its like are 0 where a file is missing, 1 where its bytes are given, and 2 where it couldn't be
/// read; there is no entry without an election, with another number, or with a name that isn't UTF-8, is empty or has a
/// control character. How many of its files are answered how goes to `total`, and is 0 where nothing is told; these
/// add up to what `pbaudit_folder_total` takes. The text and its length are given as by `pbaudit_answer`.
#[unsafe(no_mangle)]
pub extern "C" fn pbaudit_folder_entry(
    alloc: Global,
    name: &[u8],
    election_state: u8,
    election: &[u8],
    prices_state: u8,
    prices: &[u8],
    violation_state: u8,
    violation: &[u8],
    stable: bool,
    exhaustive: bool,
    cover: bool,
    total: &mut Total,
    out: &mut [u8],
    needed: &mut usize,
) -> u8
    ensures entry { IfSome (folder.entry_of (folder.name_of name.now) (folder.file_as election_state election.now) (folder.file_as prices_state prices.now) (folder.file_as violation_state violation.now)) (λ files. ReportsEntry (given_mode stable exhaustive cover) files result total.new out.old out.new needed.new) }
    ensures no_entry { IfNone (folder.entry_of (folder.name_of name.now) (folder.file_as election_state election.now) (folder.file_as prices_state prices.now) (folder.file_as violation_state violation.now)) (IsNoEntry result total.new out.old out.new needed.new) }
{
    let mode = Mode {
        stable,
        exhaustive,
        cover,
    };
    let Some(entry) = entry_of(
        name,
        election_state,
        election,
        prices_state,
        prices,
        violation_state,
        violation,
    ) else {
        return report_no_entry(total, needed);
    };
    report_entry(&ToldEntry::on(alloc, entry, mode), total, out, needed)
}

/// Tells the total of a folder, of which the entries are added up, as `pbaudit folder` does: its object, in a line, and
/// behind it its line. It answers 0 where no file is refused and no certificate is answered no, 1 where one is answered
/// no and no file is refused, 2 where one is refused, and 4 where memory ran out. The text and its length are given as by
/// `pbaudit_answer`.
#[unsafe(no_mangle)]
pub extern "C" fn pbaudit_folder_total(
    alloc: Global,
    total: &Total,
    out: &mut [u8],
    needed: &mut usize,
) -> u8
    ensures { ReportsTotal total.now result out.old out.new needed.new }
{
    report_total(alloc, *total, out, needed)
}

/// Tells what a yes to a price certificate leaves open: 0, and the note that the voter budgets together are less than the
/// limit, or an empty text; or 4 where memory ran out. It isn't looked whether the prices support an outcome, and of
/// files that are refused nothing is told. The text and its length are given as by `pbaudit_answer`.
#[unsafe(no_mangle)]
pub extern "C" fn pbaudit_note(
    alloc: Global,
    election: &[u8],
    certificate: &[u8],
    out: &mut [u8],
    needed: &mut usize,
) -> u8
    ensures { Reports (λ answer. answer.status ≡ Yes) result out.old out.new needed.new }
{
    report(&note_answer(alloc, election, certificate), out, needed)
}

/// Tells what a yes to a price certificate says of groups of voters, by whether the condition Exhaustive was asked for: 1
/// little, 2 the weak case, 3 the strict one; 0 where a file is refused, and 4 where memory ran out. It isn't looked
/// whether the prices support an outcome.
#[unsafe(no_mangle)]
pub extern "C" fn pbaudit_groups(
    alloc: Global,
    election: &[u8],
    certificate: &[u8],
    exhaustive: bool,
) -> u8
    ensures { result ≤ 4 }
{
    groups_on(alloc, election, certificate, exhaustive)
}

/// Tells what a file is by its first record that isn't blank: 0, and in `kind` 1 where that is the first of an election, 2
/// of an outcome file, 3 of a price certificate, 4 of a violation certificate, 5 of a refutation, and 0 where it is none
/// of these, isn't UTF-8 or is missing; or 4 where memory ran out, and then `kind` is 0. What follows the record isn't
/// looked at, so the front of a file is enough.
#[unsafe(no_mangle)]
pub extern "C" fn pbaudit_kind(alloc: Global, file: &[u8], kind: &mut u8) -> u8
    ensures { TellsKind file.now result kind.new }
{
    tell_kind(alloc, file, kind)
}

/// Tells a person why a file is refused, by its bytes and by the number and the record (`place`) of its refusal: 0 where it is
/// told, and 4 where memory ran out. The file is an election where `input` is 0, an outcome file where it is 1, a price
/// certificate where it is 2, a violation certificate where it is 3, a certificate of any kind where it is 4, and a
/// refutation where it is 5. The election is that beside which it was read, where `has_election`. The line of the file on
/// which the refused record begins, from 1, goes to `line`, or 0 where there is none. The text, a sentence a line, and
/// its length are given as by `pbaudit_answer`. A sentence on another line of the file begins with `line N: `. The text is
/// empty where no refusal has the number, or no kind of file.
#[unsafe(no_mangle)]
pub extern "C" fn pbaudit_hint(
    alloc: Global,
    input: u8,
    number: u32,
    record_number: u64,
    file: &[u8],
    election: &[u8],
    has_election: bool,
    line: &mut u64,
    out: &mut [u8],
    needed: &mut usize,
) -> u8
    ensures { Reports (λ answer. answer.status ≡ Yes) result out.old out.new needed.new }
{
    let election = given_bytes(election, has_election);
    let answer = hint_answer(alloc, input, number, record_number, file, election, line);
    report(&answer, out, needed)
}
