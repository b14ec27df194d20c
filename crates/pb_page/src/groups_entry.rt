//! The page about groups that fall short, which needs no certificate.
ghost use Rattle.std.specs.Prelude.{IfOk, IfSome};
ghost use Rattle.pb_reply.specs.Inside.Taking.{or_refusal};
ghost use Rattle.pb_reply.specs.Replies.{answer_of};
ghost use Rattle.pb_reply.specs.Turns.{file_turn, turn};
ghost use Rattle.pb_page.specs.Groups.{ReadsGroupsPage};

use crate::entry::{PageNames, page_on};
use crate::groups_told::groups_told;
use crate::input_files::{file_given, take_election, take_file};
use pb_certificate::Measure;
use pb_figures::{Style, decimals_of};
use pb_reply::{Answer, Given, Status, Unanswered, decided_of, or_refusal};
use pb_words::Language;
use std::alloc::{AllocError, Global};

/// The page about groups of voters that fall short by this measure, for an election and an outcome file where one is
/// given: one HTML file. The inputs are files in memory, or readers that are loaded when their turn comes, of at most
/// 2^28 bytes each. They are taken in this order; one after an input that is refused is left alone, and then the text is
/// the line of the refusal. The status is that of the answer on groups. Without an outcome file the outcome is the
/// election's own. An error means out of memory.
pub fn groups_page_answer<E: Given, O: Given>(
    alloc: Global,
    names: PageNames<'_>,
    election: &mut E,
    outcome: &mut Option<O>,
    measure: Measure,
    language: Language,
) -> Result<Answer<Status>, AllocError>
    // The page on what was delivered: its text is the rendering of pieces whose elements and attributes are the
    // program's own, and which show what is told of the groups; or the line of the input that is refused.
    ensures { IfOk result (ReadsGroupsPage measure language (turn E.delivers election.old election.new) (file_turn O.delivers outcome.old outcome.new)) }
{
    let work = groups_page_in_turn(alloc, names, election, outcome, measure, language);
    or_refusal(alloc, work)
}

// The page, or why there is none.
fn groups_page_in_turn<E: Given, O: Given>(
    alloc: Global,
    names: PageNames<'_>,
    election: &mut E,
    outcome: &mut Option<O>,
    measure: Measure,
    language: Language,
) -> Result<Answer<Status>, Unanswered>
    ensures { IfSome (or_refusal answer_of result) (ReadsGroupsPage measure language (turn E.delivers election.old election.new) (file_turn O.delivers outcome.old outcome.new)) }
{
    let taken = take_election(alloc, names.election, election)?;
    let given = take_file(alloc, outcome)?;
    let decided = decided_of(alloc, taken.election, file_given(&given))?;
    let style = Style {
        language,
        decimals: decimals_of(decided.election()),
    };
    let told = groups_told(alloc, &decided, measure, style)?;
    let page = page_on(
        alloc,
        names,
        taken.shown,
        file_given(&given),
        None,
        &decided,
        told,
    )?;
    Ok(page)
}
