//! The page on some files.
ghost use Rattle.std.specs.Prelude.{◌∷◌, ◌++◌, IfOk, IfSome, option_map, option_to_list};
ghost use Rattle.pb_reply.specs.Inside.Loaded.{lent};
ghost use Rattle.pb_reply.specs.Inside.Taking.{or_refusal};
ghost use Rattle.pb_reply.specs.Replies.{answer_of};
ghost use Rattle.pb_reply.specs.Turns.{file_turn, turn};
ghost use Rattle.pb_page.specs.InTurn.{ReadsPage};
ghost use Rattle.pb_page.specs.Sums.{sums_of};
ghost use Rattle.pb_page.specs.Taken as spec;
ghost use Rattle.pb_page.specs.Taken.{RendersTold, sums_shown};

use crate::input_files::{ElectionFile, file_given, input_files, take_election, take_file};
use crate::parts::whole_page;
use crate::telling::{PageTold, told_of};
use pb_case::{Case, Labels, PageFiles, Words, currency_of, language_of};
use pb_election::DecidedElection;
use pb_figures::{Style, decimals_of};
use pb_price::Mode;
use pb_reply::{Answer, AsFile, File, Given, Status, Unanswered, decided_of, or_refusal};
use pb_words::Language;
use std::alloc::{AllocError, Global};

/// The names of the files, as a page shows them. They needn't be UTF-8.
#[derive(Clone, Copy)]
pub struct PageNames<'a> {
    pub election: &'a [u8],
    /// That of the outcome file, where one is given.
    pub outcome: &'a [u8],
    pub certificate: &'a [u8],
}

/// The page on an election, an outcome file where one is given, and a certificate of any kind: one HTML file. The inputs
/// are files in memory, or readers that are loaded when their turn comes, of at most 2^28 bytes each. They are taken in
/// this order; one after an input that is refused is left alone, and then the text is the line of the refusal. The
/// status is that of `explain`. Where the first record of the certificate that is not blank is the head of a violation
/// certificate or of a refutation, it is taken as one; any other is taken as prices. Of the mode it counts for a
/// refutation whether stable prices are asked about, and for a violation nothing. Without an outcome file the outcome is
/// the election's own. An error means out of memory.
pub fn page_answer<E: Given, O: Given, C: Given>(
    alloc: Global,
    names: PageNames<'_>,
    election: &mut E,
    outcome: &mut Option<O>,
    certificate: &mut C,
    mode: Mode,
    language: Language,
) -> Result<Answer<Status>, AllocError>
    // The page on what was delivered: its text is the rendering of pieces whose elements and attributes are the
    // program's own, and which show what is told of the files; or the line of the input that is refused.
    ensures { IfOk result (ReadsPage mode language (turn E.delivers election.old election.new) (file_turn O.delivers outcome.old outcome.new) (turn C.delivers certificate.old certificate.new)) }
{
    let work = page_in_turn(alloc, names, election, outcome, certificate, mode, language);
    or_refusal(alloc, work)
}

// The page, or why there is none.
fn page_in_turn<E: Given, O: Given, C: Given>(
    alloc: Global,
    names: PageNames<'_>,
    election: &mut E,
    outcome: &mut Option<O>,
    certificate: &mut C,
    mode: Mode,
    language: Language,
) -> Result<Answer<Status>, Unanswered>
    ensures { IfSome (or_refusal answer_of result) (ReadsPage mode language (turn E.delivers election.old election.new) (file_turn O.delivers outcome.old outcome.new) (turn C.delivers certificate.old certificate.new)) }
{
    let taken = take_election(alloc, names.election, election)?;
    let given = take_file(alloc, outcome)?;
    let decided = decided_of(alloc, taken.election, file_given(&given))?;
    let certificate = certificate.take(alloc)?;
    let style = Style {
        language,
        decimals: decimals_of(decided.election()),
    };
    let told = told_of(alloc, &decided, certificate.as_file(), mode, style)?;
    let page = page_on(
        alloc,
        names,
        taken.shown,
        file_given(&given),
        Some(certificate.as_file()),
        &decided,
        told,
    )?;
    Ok(page)
}

/// The page on files that were accepted.
pub(crate) fn page_on(
    alloc: Global,
    names: PageNames<'_>,
    election: ElectionFile,
    outcome: Option<File<'_>>,
    certificate: Option<File<'_>>,
    decided: &DecidedElection,
    told: PageTold,
) -> Result<Answer<Status>, AllocError>
    ensures { IfOk result (RendersTold told (spec.sum_of election.file ∷ sums_of (option_to_list (option_map lent outcome.entry) ++ option_to_list (option_map lent certificate.entry)))) }
{
    let files = input_files(alloc, names, election.file, outcome, certificate)?;
    page_with(alloc, files, election.labels, decided, told)
}

// The page on what is shown of files that were accepted.
fn page_with(
    alloc: Global,
    files: PageFiles,
    labels: Labels,
    decided: &DecidedElection,
    told: PageTold,
) -> Result<Answer<Status>, AllocError>
    ensures { IfOk result (RendersTold told (sums_shown files)) }
{
    let PageTold {
        told,
        nearest,
        status,
    } = told;
    let case = Case {
        words: Words {
            alloc,
            language: told.style.language,
        },
        decided,
        files,
        currency: currency_of(alloc, &labels)?,
        names_in: language_of(&labels),
        labels,
        nearest,
        told,
    };
    let page = whole_page(alloc, &case);
    Ok(Answer {
        text: page.into_text(&case.told)?,
        status,
    })
}
