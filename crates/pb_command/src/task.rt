//! The task that a line of words asks for.
ghost use Rattle.std.specs.Prelude.{◌≡◌, ◌⊎◌, [], Some, IfErr, IfOk, codes, map, option_map, string_bytes, true};
ghost use Rattle.clap.specs.Words.{
  first_of,
  found_of,
  kind_of,
  rows_of,
  subcommand_rows_of,
  takes,
};
ghost use Rattle.clap.specs.declared.error.kind.ErrorKind.TheVariants.{InvalidValue, OutOfMemory};
ghost use Rattle.pb_command.specs.Commands.{pbaudit};
ghost use Rattle.pb_command.specs.declared.task.UsageFault.TheVariants.{Memory};
ghost use Rattle.pb_command.specs.Tasks.{
  FitsKind,
  IsFaultOf,
  IsNoHelp,
  IsRefusalAbout,
  IsRefusalOf,
  TaskOf,
  about,
  about_certificate,
  about_groups,
  about_in,
  asked,
  asked_by,
  asked_in,
  faults_of,
  is_named,
  is_on,
  names_conditions,
  value_fault,
  language_in,
  measure_in,
  measure_of,
  mode_in,
  outcome_paths,
  outcome_paths_in,
  paged,
  paths,
  paths_in,
};

use crate::command::pbaudit_command;
use clap::error::ErrorKind;
use clap::{ArgMatches, Error};
use pb_certificate::Measure;
use pb_cohesion::Mode;
use pb_words::Language;
use std::alloc::{AllocError, Global};

/// What commands on a certificate share. Each text is a path, as it stands among the words.
#[derive(Debug, Drop)]
pub struct Inputs {
    /// The election.
    pub election: String,
    /// The certificate.
    pub certificate: String,
    /// The outcome file. Where none is named, the outcome is the election's own.
    pub outcome: Option<String>,
    /// Whether the answer is to be a JSON object. It never is for a page or a canonical text.
    pub json: bool,
}

/// What commands on an outcome without a certificate share. Each text is a path, as it stands among the words.
#[derive(Debug, Drop)]
pub struct OutcomeInputs {
    /// The election.
    pub election: String,
    /// The outcome file. Where none is named, the outcome is the election's own.
    pub outcome: Option<String>,
    /// Whether the answer is to be a JSON object.
    pub json: bool,
}

/// What a line of words asks for.
#[derive(Debug, Drop)]
pub enum Task {
    /// Read an election.
    Read {
        /// The election's path. Where there is none, it is on standard input.
        election: Option<String>,
        /// Whether the answer is to be a JSON object.
        json: bool,
    },
    /// Decide whether a group of voters falls short.
    Groups {
        /// The files.
        inputs: OutcomeInputs,
        /// The measure of what voters got: by cost where none is named.
        measure: Measure,
    },
    /// Check a price certificate.
    Prices {
        /// The files.
        inputs: Inputs,
        /// Which conditions are asked for.
        mode: Mode,
    },
    /// Check a violation certificate.
    Violation(Inputs),
    /// Check a refutation.
    Refutation {
        /// The files.
        inputs: Inputs,
        /// Whether it is asked too whether the weights refute stable prices alone.
        stable: bool,
    },
    /// Check a price certificate and a violation certificate.
    Both {
        /// The files, with the price certificate.
        inputs: Inputs,
        /// The path of the violation certificate.
        violation: String,
        /// Which conditions are asked for.
        mode: Mode,
    },
    /// Check a certificate of any kind and write what each condition or test comes to.
    Explain {
        /// The files.
        inputs: Inputs,
        /// Which conditions on prices are asked for, and whether a refutation is asked about stable prices too.
        mode: Mode,
    },
    /// Decide whether a group of voters falls short, and write the figures of one group.
    ExplainGroups {
        /// The files.
        inputs: OutcomeInputs,
        /// The measure of what voters got: by cost where none is named.
        measure: Measure,
    },
    /// Check a certificate of any kind and write a page for people.
    Page {
        /// The files.
        inputs: Inputs,
        /// Which conditions on prices are asked for, and whether a refutation is asked about stable prices too.
        mode: Mode,
        /// The language of the page: English where none is named.
        language: Language,
    },
    /// Decide whether a group of voters falls short, and write a page for people.
    GroupsPage {
        /// The files.
        inputs: OutcomeInputs,
        /// The measure of what voters got: by cost where none is named.
        measure: Measure,
        /// The language of the page: English where none is named.
        language: Language,
    },
    /// Write the figures of each project by a price certificate.
    Margins(Inputs),
    /// Write the figures of one group for each unfunded project with a supporter.
    GroupMargins {
        /// The files.
        inputs: OutcomeInputs,
        /// The measure of what voters got: by cost where none is named.
        measure: Measure,
    },
    /// Write a price certificate in its canonical form. No outcome file is named.
    Tidy(Inputs),
    /// Audit the elections of a folder with their certificates.
    Folder {
        /// The path of the folder.
        folder: String,
        /// Which conditions are asked for.
        mode: Mode,
        /// Whether the report is to be JSON objects.
        json: bool,
    },
}

/// What `explain`, `page` and `margins` are about.
#[derive(Drop)]
enum Subject {
    /// A certificate.
    Certificate(Inputs),
    /// Groups that fall short by a measure, with the files.
    Groups(OutcomeInputs, Measure),
}

/// Why a line of words gives no task.
#[derive(Debug, Drop)]
pub enum UsageFault {
    /// Help or the version was asked for. Its text is for standard output.
    Help(String),
    /// The words are not understood. The text is for standard error.
    Usage(String),
    /// Out of memory.
    Memory,
}

impl From<AllocError> for UsageFault {
    ghost from_gives = { λ _ e. e ≡ Memory };

    fn from(_error: AllocError) -> UsageFault {
        UsageFault::Memory
    }
}

/// The task that the words ask for, the first of which is the program's name.
///
/// # Errors
/// `Help` where the words ask for help or the version, `Usage` where they are no line of a command, name a measure or a
/// language that there isn't, or leave open whether a certificate or groups are asked about, and `Memory` if memory ran
/// out, which comes only after a failed allocation; that is tested and not proved.
pub fn task_of(alloc: Global, words: Vec<String>) -> Result<Task, UsageFault>
    ensures task { IfOk result (λ t. Some (asked t) ≡ TaskOf (map string_bytes words.items)) }
    ensures taken { takes pbaudit (map string_bytes words.items) ≡ true
        → value_fault (TaskOf (map string_bytes words.items)) ≡ [] → IfErr result (λ e. e ≡ UsageFault.Memory) }
    ensures accepted { IfOk result (λ _. faults_of (map string_bytes words.items) ≡ []) }
    ensures refused { IfErr result (IsFaultOf (faults_of (map string_bytes words.items))) }
{
    let command = pbaudit_command(alloc)?;
    match command.try_get_matches_from(words.as_slice()) {
        Ok(matches) => match task_in(alloc, &matches)? {
            Some(task) => Ok(task),
            None => unreachable!(),
        },
        Err(error) => Err(fault_in(alloc, &error)),
    }
}

/// The fault that clap's error stands for.
fn fault_in(alloc: Global, error: &Error) -> UsageFault
    ensures memory { kind_of error.now ≡ OutOfMemory → result ≡ UsageFault.Memory }
    ensures kind { (result ≡ UsageFault.Memory) ⊎ FitsKind (kind_of error.now) result }
{
    let text = match error.to_string(alloc) {
        Ok(text) => text,
        Err(_) => return UsageFault::Memory,
    };
    match error.kind() {
        ErrorKind::OutOfMemory => UsageFault::Memory,
        ErrorKind::DisplayHelp | ErrorKind::DisplayVersion => UsageFault::Help(text),
        _ => UsageFault::Usage(text),
    }
}

/// The task of the matches, where they are those of a command with its paths.
fn task_in(alloc: Global, matches: &ArgMatches<'_>) -> Result<Option<Task>, UsageFault>
    ensures task { IfOk result (λ t. option_map asked t ≡ asked_in (subcommand_rows_of matches.now)) }
    ensures refused { IfErr result (IsRefusalOf (asked_in (subcommand_rows_of matches.now))) }
{
    match matches.subcommand() {
        Some((name, inner)) => command_task(alloc, name, inner),
        None => Ok(Some(Task::Read {
            election: None,
            json: false,
        })),
    }
}

/// The task of the command `name`, by its matches.
fn command_task(
    alloc: Global,
    name: &str,
    matches: &ArgMatches<'_>,
) -> Result<Option<Task>, UsageFault>
    ensures task { IfOk result (λ t. option_map asked t ≡ asked_by name.now (rows_of (found_of matches.now))) }
    ensures refused { IfErr result (IsRefusalOf (asked_by name.now (rows_of (found_of matches.now)))) }
{
    Ok(match name {
        "read" => read_task(alloc, matches)?,
        "groups" => groups_task(alloc, matches)?,
        "prices" => prices_task(alloc, matches)?,
        "violation" => violation_task(alloc, matches)?,
        "refutation" => refutation_task(alloc, matches)?,
        "both" => both_task(alloc, matches)?,
        "explain" => explain_task(alloc, matches)?,
        "page" => page_task(alloc, matches)?,
        "margins" => margins_task(alloc, matches)?,
        "tidy" => tidy_task(alloc, matches)?,
        "folder" => folder_task(alloc, matches)?,
        _ => None,
    })
}

fn read_task(alloc: Global, matches: &ArgMatches<'_>) -> Result<Option<Task>, AllocError>
    ensures { IfOk result (λ t. option_map asked t ≡ asked_by (codes "read") (rows_of (found_of matches.now))) }
{
    match text_of(alloc, matches, "election")? {
        Some(election) => Ok(Some(Task::Read {
            election: Some(election),
            json: is_given(matches, "json"),
        })),
        None => Ok(None),
    }
}

fn groups_task(alloc: Global, matches: &ArgMatches<'_>) -> Result<Option<Task>, UsageFault>
    ensures task { IfOk result (λ t. option_map asked t ≡ asked_by (codes "groups") (rows_of (found_of matches.now))) }
    ensures refused { IfErr result (IsRefusalOf (asked_by (codes "groups") (rows_of (found_of matches.now)))) }
{
    let Some(inputs) = outcome_inputs_of(alloc, matches)? else {
        return Ok(None);
    };
    match measure_of(matches) {
        Some(measure) => Ok(Some(Task::Groups { inputs, measure })),
        None => Err(no_measure(alloc)),
    }
}

/// The measure that the words name, or that by cost: nothing where there is none of the name that they give.
fn measure_of(matches: &ArgMatches<'_>) -> Option<Measure>
    ensures { result ≡ measure_in (rows_of (found_of matches.now)) }
{
    match matches.get_str("satisfaction") {
        Some(name) => measure_named(name.as_bytes()),
        None => Some(Measure::ByCost),
    }
}

/// The measure of this name.
fn measure_named(name: &[u8]) -> Option<Measure>
    ensures { result ≡ measure_of name.now }
{
    if name == b"cost".as_slice() {
        return Some(Measure::ByCost);
    }
    if name == b"count".as_slice() {
        return Some(Measure::ByCount);
    }
    None
}

/// What is told of a measure that there isn't.
fn no_measure(alloc: Global) -> UsageFault
    ensures { (result ≡ UsageFault.Memory) ⊎ FitsKind InvalidValue result }
{
    words_refused(alloc, "error: the satisfaction has to be cost or count\n")
}

/// What is told of words that aren't understood.
fn words_refused(alloc: Global, words: &str) -> UsageFault
    ensures { IsNoHelp result }
{
    match String::from_str(alloc, words) {
        Ok(text) => UsageFault::Usage(text),
        Err(_) => UsageFault::Memory,
    }
}

fn prices_task(alloc: Global, matches: &ArgMatches<'_>) -> Result<Option<Task>, AllocError>
    ensures { IfOk result (λ t. option_map asked t ≡ asked_by (codes "prices") (rows_of (found_of matches.now))) }
{
    let mode = mode_of(matches);
    match inputs_of(alloc, matches, "certificate")? {
        Some(inputs) => Ok(Some(Task::Prices { inputs, mode })),
        None => Ok(None),
    }
}

fn violation_task(alloc: Global, matches: &ArgMatches<'_>) -> Result<Option<Task>, AllocError>
    ensures { IfOk result (λ t. option_map asked t ≡ asked_by (codes "violation") (rows_of (found_of matches.now))) }
{
    match inputs_of(alloc, matches, "certificate")? {
        Some(inputs) => Ok(Some(Task::Violation(inputs))),
        None => Ok(None),
    }
}

fn refutation_task(alloc: Global, matches: &ArgMatches<'_>) -> Result<Option<Task>, AllocError>
    ensures { IfOk result (λ t. option_map asked t ≡ asked_by (codes "refutation") (rows_of (found_of matches.now))) }
{
    let stable = is_given(matches, "stable");
    match inputs_of(alloc, matches, "certificate")? {
        Some(inputs) => Ok(Some(Task::Refutation { inputs, stable })),
        None => Ok(None),
    }
}

fn both_task(alloc: Global, matches: &ArgMatches<'_>) -> Result<Option<Task>, AllocError>
    ensures { IfOk result (λ t. option_map asked t ≡ asked_by (codes "both") (rows_of (found_of matches.now))) }
{
    let inputs = inputs_of(alloc, matches, "prices")?;
    let violation = text_of(alloc, matches, "violation")?;
    match (inputs, violation) {
        (Some(inputs), Some(violation)) => Ok(Some(Task::Both {
            inputs,
            violation,
            mode: mode_of(matches),
        })),
        _ => Ok(None),
    }
}

fn explain_task(alloc: Global, matches: &ArgMatches<'_>) -> Result<Option<Task>, UsageFault>
    ensures task { IfOk result (λ t. option_map asked t ≡ asked_by (codes "explain") (rows_of (found_of matches.now))) }
    ensures refused { IfErr result (IsRefusalOf (asked_by (codes "explain") (rows_of (found_of matches.now)))) }
{
    let mode = mode_of(matches);
    Ok(match subject_of(alloc, matches)? {
        Some(Subject::Certificate(inputs)) => Some(Task::Explain { inputs, mode }),
        Some(Subject::Groups(inputs, measure)) => Some(Task::ExplainGroups { inputs, measure }),
        None => None,
    })
}

/// What `explain`, `page` and `margins` are about: groups where `--groups` stands in the certificate's place, and else a
/// certificate.
fn subject_of(alloc: Global, matches: &ArgMatches<'_>) -> Result<Option<Subject>, UsageFault>
    ensures subject { IfOk result (λ s. option_map about s ≡ about_in (rows_of (found_of matches.now))) }
    ensures refused { IfErr result (IsRefusalAbout (about_in (rows_of (found_of matches.now)))) }
{
    if is_given(matches, "groups") {
        groups_named(alloc, matches)
    } else {
        certificate_named(alloc, matches)
    }
}

/// The files and the measure, where nothing that belongs to a certificate stands beside `--groups`.
fn groups_named(alloc: Global, matches: &ArgMatches<'_>) -> Result<Option<Subject>, UsageFault>
    ensures subject { IfOk result (λ s. option_map about s ≡ about_groups (rows_of (found_of matches.now))) }
    ensures refused { IfErr result (IsRefusalAbout (about_groups (rows_of (found_of matches.now)))) }
{
    if has_text(matches, "certificate") {
        return Err(words_refused(
            alloc,
            "error: --groups stands in the certificate's place: give one of the two\n",
        ));
    }
    if has_conditions(matches) {
        return Err(words_refused(
            alloc,
            "error: --stable, --no-exhaustive and --cover are about prices, and don't go with --groups\n",
        ));
    }
    let Some(inputs) = outcome_inputs_of(alloc, matches)? else {
        return Ok(None);
    };
    match measure_of(matches) {
        Some(measure) => Ok(Some(Subject::Groups(inputs, measure))),
        None => Err(no_measure(alloc)),
    }
}

/// The files with the certificate, where there is one and no measure beside it.
fn certificate_named(alloc: Global, matches: &ArgMatches<'_>) -> Result<Option<Subject>, UsageFault>
    ensures subject { IfOk result (λ s. option_map about s ≡ about_certificate (rows_of (found_of matches.now))) }
    ensures refused { IfErr result (IsRefusalAbout (about_certificate (rows_of (found_of matches.now)))) }
{
    if has_text(matches, "satisfaction") {
        return Err(words_refused(alloc, "error: --satisfaction needs --groups\n"));
    }
    if !has_text(matches, "certificate") {
        return Err(words_refused(
            alloc,
            "error: a certificate is needed, or --groups in its place\n",
        ));
    }
    match inputs_of(alloc, matches, "certificate")? {
        Some(inputs) => Ok(Some(Subject::Certificate(inputs))),
        None => Ok(None),
    }
}

/// Whether the words ask for a condition on prices or leave one out.
fn has_conditions(matches: &ArgMatches<'_>) -> bool
    ensures { result ≡ names_conditions (rows_of (found_of matches.now)) }
{
    is_given(matches, "stable") || is_given(matches, "no-exhaustive") || is_given(matches, "cover")
}

/// Whether the words give a text for the argument.
fn has_text(matches: &ArgMatches<'_>, id: &str) -> bool
    ensures { result ≡ is_named (rows_of (found_of matches.now)) id.now }
{
    matches.get_str(id).is_some()
}

fn page_task(alloc: Global, matches: &ArgMatches<'_>) -> Result<Option<Task>, UsageFault>
    ensures task { IfOk result (λ t. option_map asked t ≡ asked_by (codes "page") (rows_of (found_of matches.now))) }
    ensures refused { IfErr result (IsRefusalOf (asked_by (codes "page") (rows_of (found_of matches.now)))) }
{
    let mode = mode_of(matches);
    let Some(subject) = subject_of(alloc, matches)? else {
        return Ok(None);
    };
    match language_of(matches) {
        Some(language) => Ok(Some(page_about(subject, mode, language))),
        None => Err(no_language(alloc)),
    }
}

/// A page about a certificate, or about groups.
fn page_about(subject: Subject, mode: Mode, language: Language) -> Task
    ensures { asked result ≡ paged mode (Some language) (about subject) }
{
    match subject {
        Subject::Certificate(inputs) => Task::Page {
            inputs,
            mode,
            language,
        },
        Subject::Groups(inputs, measure) => Task::GroupsPage {
            inputs,
            measure,
            language,
        },
    }
}

/// The language that the words name, or English: nothing where there is none of the code that they give.
fn language_of(matches: &ArgMatches<'_>) -> Option<Language>
    ensures { result ≡ language_in (rows_of (found_of matches.now)) }
{
    match matches.get_str("language") {
        Some(code) => Language::of_code(code.as_bytes()),
        None => Some(Language::English),
    }
}

/// What is told of a language that there isn't.
fn no_language(alloc: Global) -> UsageFault
    ensures { (result ≡ UsageFault.Memory) ⊎ FitsKind InvalidValue result }
{
    words_refused(
        alloc,
        "error: the language of a page has to be en, pl, de or fr\n",
    )
}

fn margins_task(alloc: Global, matches: &ArgMatches<'_>) -> Result<Option<Task>, UsageFault>
    ensures task { IfOk result (λ t. option_map asked t ≡ asked_by (codes "margins") (rows_of (found_of matches.now))) }
    ensures refused { IfErr result (IsRefusalOf (asked_by (codes "margins") (rows_of (found_of matches.now)))) }
{
    Ok(match subject_of(alloc, matches)? {
        Some(Subject::Certificate(inputs)) => Some(Task::Margins(inputs)),
        Some(Subject::Groups(inputs, measure)) => Some(Task::GroupMargins { inputs, measure }),
        None => None,
    })
}

fn tidy_task(alloc: Global, matches: &ArgMatches<'_>) -> Result<Option<Task>, AllocError>
    ensures { IfOk result (λ t. option_map asked t ≡ asked_by (codes "tidy") (rows_of (found_of matches.now))) }
{
    match inputs_of(alloc, matches, "certificate")? {
        Some(inputs) => Ok(Some(Task::Tidy(inputs))),
        None => Ok(None),
    }
}

fn folder_task(alloc: Global, matches: &ArgMatches<'_>) -> Result<Option<Task>, AllocError>
    ensures { IfOk result (λ t. option_map asked t ≡ asked_by (codes "folder") (rows_of (found_of matches.now))) }
{
    let json = is_given(matches, "json");
    match text_of(alloc, matches, "folder")? {
        Some(folder) => Ok(Some(Task::Folder {
            folder,
            mode: mode_of(matches),
            json,
        })),
        None => Ok(None),
    }
}

/// The files that the words name, without a certificate.
fn outcome_inputs_of(
    alloc: Global,
    matches: &ArgMatches<'_>,
) -> Result<Option<OutcomeInputs>, AllocError>
    ensures { IfOk result (λ inputs. option_map outcome_paths inputs ≡ outcome_paths_in (rows_of (found_of matches.now))) }
{
    let election = text_of(alloc, matches, "election")?;
    let outcome = text_of(alloc, matches, "outcome")?;
    let json = is_given(matches, "json");
    match election {
        Some(election) => Ok(Some(OutcomeInputs {
            election,
            outcome,
            json,
        })),
        None => Ok(None),
    }
}

/// The files that the words name, with the path that they give for this argument as that of the certificate.
fn inputs_of(
    alloc: Global,
    matches: &ArgMatches<'_>,
    certificate: &str,
) -> Result<Option<Inputs>, AllocError>
    ensures { IfOk result (λ inputs. option_map paths inputs ≡ paths_in certificate.now (rows_of (found_of matches.now))) }
{
    let election = text_of(alloc, matches, "election")?;
    let certificate = text_of(alloc, matches, certificate)?;
    let outcome = text_of(alloc, matches, "outcome")?;
    let json = is_given(matches, "json");
    match (election, certificate) {
        (Some(election), Some(certificate)) => Ok(Some(Inputs {
            election,
            certificate,
            outcome,
            json,
        })),
        _ => Ok(None),
    }
}

/// The text that the words give for the argument, such as a path.
fn text_of(alloc: Global, matches: &ArgMatches<'_>, id: &str) -> Result<Option<String>, AllocError>
    ensures { IfOk result (λ o. option_map string_bytes o ≡ first_of id.now (rows_of (found_of matches.now))) }
{
    match matches.get_str(id) {
        Some(path) => Ok(Some(String::from_str(alloc, path)?)),
        None => Ok(None),
    }
}

/// The mode that the switches choose: plain, with Exhaustive and without Cover where there is none.
fn mode_of(matches: &ArgMatches<'_>) -> Mode
    ensures { result ≡ mode_in (rows_of (found_of matches.now)) }
{
    Mode {
        stable: is_given(matches, "stable"),
        exhaustive: !is_given(matches, "no-exhaustive"),
        cover: is_given(matches, "cover"),
    }
}

/// Whether the switch is among the words.
fn is_given(matches: &ArgMatches<'_>, id: &str) -> bool
    ensures { result ≡ is_on (rows_of (found_of matches.now)) id.now }
{
    matches.get_one::<bool>(id).unwrap_or(false)
}
