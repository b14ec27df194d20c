//! The one answer to a question.
ghost use Rattle.std.specs.Prelude.{◌≡◌, IfOk};
ghost use Rattle.pb_reply.specs.Replies.{AreJsonLines};
ghost use Rattle.pb_reply.specs.Turns.{file_turn, turn};
ghost use Rattle.pb_reply.specs.declared.answer.Format.TheVariants.{Json};
ghost use Rattle.pb_audit.specs.Questions.{Answers, HasObject};

use crate::auditing::answer_as_by;
use crate::both::both;
use crate::explain::ExplainAudit;
use crate::figured::figured_as;
use crate::groups::{ExplainGroupsAudit, GroupMarginAudit, GroupsAudit};
use crate::margins::MarginAudit;
use crate::prices::PriceAudit;
use crate::question::Question;
use crate::read::read;
use crate::refutation::RefutationAudit;
use crate::tidy::tidy;
use crate::violation::ViolationAudit;
use pb_reply::{Answer, Format, Given, Status};
use std::alloc::{AllocError, Global};

/// The answer in a format to a question on an election, an outcome file where one is given, a certificate, and the
/// violation certificate beside prices: a text, and how it ends. The canonical text of prices is the same in each
/// format. The inputs are files in memory, or readers that are loaded when their turn comes, of at
/// most 2^28 bytes each. They are taken in this order; an input that a question doesn't have,
/// or one after an input that is refused, is left alone. Without an outcome file the outcome is the election's own.
/// Where an input is refused the text is the line of the refusal. The notes on the election, and that on a yes to
/// prices that says little, are added to `notes` where the question has them. An error means out of memory.
pub fn answer<E: Given, O: Given, C: Given, V: Given>(
    alloc: Global,
    format: Format,
    question: Question,
    election: &mut E,
    outcome: &mut Option<O>,
    certificate: &mut C,
    violation: &mut V,
    notes: &mut Vec<String>,
) -> Result<Answer<Status>, AllocError>
    // The answer is the one on these inputs. Where none is refused, its status promises what the definition of the
    // question says: of prices, that it is yes exactly where they support the outcome, and what this says of every
    // group; of a group and its demand, that it is yes exactly where they are a violation; and so on.
    ensures answers { IfOk result (Answers format question (turn E.delivers election.old election.new) (file_turn O.delivers outcome.old outcome.new) (turn C.delivers certificate.old certificate.new) (turn V.delivers violation.old violation.new)) }
    // As JSON the answer is one line, which is one value, whatever is in the inputs. The canonical text of prices is a file
    // of its own form.
    ensures json { format ≡ Json → HasObject question → IfOk result (λ answer. AreJsonLines answer.text) }
{
    match question {
        Question::Read => read(alloc, format, election, notes),
        Question::Groups(measure) => {
            let groups = GroupsAudit { measure };
            figured_as(alloc, format, &groups, election, outcome, notes)
        }
        Question::ExplainGroups(measure) => {
            let explained = ExplainGroupsAudit { measure };
            figured_as(alloc, format, &explained, election, outcome, notes)
        }
        Question::GroupMargins(measure) => {
            let margins = GroupMarginAudit { measure };
            let mut untold = Vec::new(alloc);
            figured_as(alloc, format, &margins, election, outcome, &mut untold)
        }
        Question::Prices(mode) => {
            let prices = PriceAudit { mode };
            answer_as_by(
                alloc,
                format,
                &prices,
                election,
                outcome,
                certificate,
                notes,
            )
        }
        Question::Violation => answer_as_by(
            alloc,
            format,
            &ViolationAudit,
            election,
            outcome,
            certificate,
            notes,
        ),
        Question::Refutation(stable) => {
            let weights = RefutationAudit { stable };
            answer_as_by(
                alloc,
                format,
                &weights,
                election,
                outcome,
                certificate,
                notes,
            )
        }
        Question::Both(mode) => both(
            alloc,
            format,
            mode,
            election,
            outcome,
            certificate,
            violation,
            notes,
        ),
        Question::Explain(mode) => {
            let explained = ExplainAudit { mode };
            answer_as_by(
                alloc,
                format,
                &explained,
                election,
                outcome,
                certificate,
                notes,
            )
        }
        Question::Margins => {
            let mut untold = Vec::new(alloc);
            answer_as_by(
                alloc,
                format,
                &MarginAudit,
                election,
                outcome,
                certificate,
                &mut untold,
            )
        }
        Question::Tidy => tidy(alloc, election, certificate),
    }
}
