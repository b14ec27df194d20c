//! What is asked of files at paths, and the answer.
ghost use Rattle.std.specs.Prelude.{◌≡◌, [], IfOk, option_map};
ghost use Rattle.pb_command.specs.Tasks.{asked, outcome_paths, paths};
ghost use Rattle.pb_run.specs.Asking.{AnswersAt, AnswersOn, HandsAll, HandsOutcome, alone, beside, format_of, of_outcome, order, places_of, with_outcome};

use crate::files::Files;
use pb_audit::{Answer, Format, InputName, Question, Status, answer};
use pb_certificate::Measure;
use pb_cohesion::Mode;
use pb_command::{Inputs, OutcomeInputs, Task};
use pb_page::{Language, PageNames, groups_page_answer, page_answer};
use pb_reply::Given;
use std::alloc::{AllocError, Global};

/// What is asked of files.
#[derive(Clone, Copy)]
pub enum Ask {
    /// One of the questions, and as what the answer is written.
    Question(Question, Format),
    /// The page about a certificate.
    Page(Mode, Language),
    /// The page about groups that fall short.
    GroupsPage(Measure, Language),
}

/// The paths of the files of which something is asked. The path of a file that isn't asked for is empty.
#[derive(Clone, Copy)]
pub struct Paths<'a> {
    pub election: &'a str,
    pub outcome: Option<&'a str>,
    pub certificate: &'a str,
    /// The violation certificate beside prices.
    pub violation: &'a str,
}

/// The files at the paths, each of which is opened when its turn comes.
#[derive(Drop)]
pub struct HandedOut<I> {
    election: I,
    outcome: Option<I>,
    certificate: I,
    violation: I,
}

impl<'a> Paths<'a> {
    /// An election alone.
    fn of_election(election: &'a str) -> Paths<'a>
        ensures { places_of result ≡ alone election.now }
    {
        Paths {
            election,
            outcome: None,
            certificate: "",
            violation: "",
        }
    }

    /// An election and its outcome.
    fn of_outcome(inputs: &'a OutcomeInputs) -> Paths<'a>
        ensures { places_of result ≡ with_outcome (outcome_paths inputs.now) }
    {
        Paths {
            election: &inputs.election,
            outcome: inputs.outcome.as_deref(),
            certificate: "",
            violation: "",
        }
    }

    /// The paths of a task, but for a violation certificate beside prices.
    fn of(inputs: &'a Inputs) -> Paths<'a>
        ensures { places_of result ≡ beside (paths inputs.now) [] }
    {
        Paths {
            election: &inputs.election,
            outcome: inputs.outcome.as_deref(),
            certificate: &inputs.certificate,
            violation: "",
        }
    }

    /// The path of an input, where it has one.
    pub(crate) fn of_input(self, input: InputName) -> Option<&'a str> {
        match input {
            InputName::Election => Some(self.election),
            InputName::Outcome => self.outcome,
            InputName::Violation => Some(self.violation),
            _ => Some(self.certificate),
        }
    }
}

/// What a task asks of the files at which paths; nothing where it is on standard input or on a folder.
pub fn asked_by(task: &Task) -> Option<(Paths<'_>, Ask)>
    ensures { option_map (λ r. (places_of r.0, r.1)) result ≡ order (asked task.now) }
{
    let (inputs, ask) = match task {
        Task::Read { election: None, .. } | Task::Folder { .. } => return None,
        Task::Read {
            election: Some(election),
            json,
        } => {
            let ask = Ask::Question(Question::Read, format_of(*json));
            return Some((Paths::of_election(election), ask));
        }
        Task::Groups { inputs, measure } => {
            return Some(asked_of_outcome(inputs, Question::Groups(*measure)));
        }
        Task::ExplainGroups { inputs, measure } => {
            return Some(asked_of_outcome(inputs, Question::ExplainGroups(*measure)));
        }
        Task::GroupMargins { inputs, measure } => {
            return Some(asked_of_outcome(inputs, Question::GroupMargins(*measure)));
        }
        Task::Both {
            inputs,
            violation,
            mode,
        } => {
            let paths = Paths {
                violation,
                ..Paths::of(inputs)
            };
            return Some((paths, questioned(inputs, Question::Both(*mode))));
        }
        Task::Prices { inputs, mode } => (inputs, questioned(inputs, Question::Prices(*mode))),
        Task::Violation(inputs) => (inputs, questioned(inputs, Question::Violation)),
        Task::Refutation { inputs, stable } => {
            (inputs, questioned(inputs, Question::Refutation(*stable)))
        }
        Task::Explain { inputs, mode } => (inputs, questioned(inputs, Question::Explain(*mode))),
        Task::Page {
            inputs,
            mode,
            language,
        } => (inputs, Ask::Page(*mode, *language)),
        Task::GroupsPage {
            inputs,
            measure,
            language,
        } => return Some((
            Paths::of_outcome(inputs),
            Ask::GroupsPage(*measure, *language),
        )),
        Task::Margins(inputs) => (inputs, questioned(inputs, Question::Margins)),
        Task::Tidy(inputs) => (inputs, questioned(inputs, Question::Tidy)),
    };
    Some((Paths::of(inputs), ask))
}

/// A question on an election and its outcome, in the format that is asked for.
fn asked_of_outcome(inputs: &OutcomeInputs, question: Question) -> (Paths<'_>, Ask)
    ensures { (places_of result.0, result.1) ≡ of_outcome (outcome_paths inputs.now) question }
{
    let ask = Ask::Question(question, format_of(inputs.json));
    (Paths::of_outcome(inputs), ask)
}

/// A question on these inputs, in the format that is asked for.
fn questioned(inputs: &Inputs, question: Question) -> Ask
    ensures { result ≡ Ask.Question question (format_of (paths inputs.now).json) }
{
    Ask::Question(question, format_of(inputs.json))
}

/// As what an answer is written.
pub(crate) fn format_of(json: bool) -> Format
    ensures { result ≡ format_of json }
{
    if json { Format::Json } else { Format::Lines }
}

/// Answers what is asked of the files at these paths, and adds the notes on the election, and on a yes that says little,
/// to `notes`, where the question has them. A file whose turn doesn't come isn't opened. An error means out of memory.
pub fn answer_at<F: Files>(
    alloc: Global,
    files: &mut F,
    paths: Paths<'_>,
    ask: Ask,
    notes: &mut Vec<String>,
) -> Result<Answer<Status>, AllocError>
    ensures { IfOk result (AnswersAt F.hands F.Input.delivers (places_of paths.entry) ask files.old files.new) }
{
    let mut handed = hand_out(alloc, files, paths)?;
    Ok(answer_on(alloc, &mut handed, names_of(paths), ask, notes)?)
}

/// The files at the paths.
fn hand_out<F: Files>(
    alloc: Global,
    files: &mut F,
    paths: Paths<'_>,
) -> Result<HandedOut<F::Input>, AllocError>
    ensures { IfOk result (HandsAll F.hands (places_of paths.entry) files.old files.new) }
{
    Ok(HandedOut {
        election: files.at(alloc, paths.election)?,
        outcome: outcome_at(alloc, files, paths.outcome)?,
        certificate: files.at(alloc, paths.certificate)?,
        violation: files.at(alloc, paths.violation)?,
    })
}

/// The outcome file, where one is named.
fn outcome_at<F: Files>(
    alloc: Global,
    files: &mut F,
    path: Option<&str>,
) -> Result<Option<F::Input>, AllocError>
    ensures { IfOk result (HandsOutcome F.hands (option_map (λ p. p.now) path.entry) files.old files.new) }
{
    match path {
        Some(path) => Ok(Some(files.at(alloc, path)?)),
        None => Ok(None),
    }
}

/// The answer on files that are opened in turn.
fn answer_on<I: Given + Drop>(
    alloc: Global,
    handed: &mut HandedOut<I>,
    names: PageNames<'_>,
    ask: Ask,
    notes: &mut Vec<String>,
) -> Result<Answer<Status>, AllocError>
    ensures { IfOk result (AnswersOn I.delivers ask handed.old handed.new) }
{
    match ask {
        Ask::Question(question, format) => answer(
            alloc,
            format,
            question,
            &mut handed.election,
            &mut handed.outcome,
            &mut handed.certificate,
            &mut handed.violation,
            notes,
        ),
        Ask::GroupsPage(measure, language) => groups_page_answer(
            alloc,
            names,
            &mut handed.election,
            &mut handed.outcome,
            measure,
            language,
        ),
        Ask::Page(mode, language) => page_answer(
            alloc,
            names,
            &mut handed.election,
            &mut handed.outcome,
            &mut handed.certificate,
            mode,
            language,
        ),
    }
}

/// The names of the files, as a page shows them.
fn names_of(paths: Paths<'_>) -> PageNames<'_> {
    PageNames {
        election: name_of(paths.election),
        outcome: name_of(paths.outcome.unwrap_or("")),
        certificate: name_of(paths.certificate),
    }
}

/// The name of the file at a path, without its folders.
fn name_of(path: &str) -> &[u8] {
    match path.rsplit_once('/') {
        Some((_, name)) => name.as_bytes(),
        None => path.as_bytes(),
    }
}
