//! The commands of `pbaudit`, as clap reads them.
ghost use Rattle.std.specs.Prelude.{◌≡◌, IfOk, codes, false, fold};
ghost use Rattle.clap.specs.Words.{App, new_app, rule_of};
ghost use Rattle.pb_command.specs.Commands.{IsCommand, pbaudit, with_questions, with_tables, with_version};
ghost use Rattle.pb_command.specs.Descriptions.{app_described, rule_of_parameter, with_described};

use crate::help::{
    BOTH_NOTES, EXPLAIN_NOTES, FOLDER_NOTES, GROUPS_NOTES, MARGINS_NOTES, PAGE_NOTES, PRICES_NOTES,
    PROGRAM_NOTES, READ_NOTES, REFUTATION_NOTES, TIDY_NOTES, VIOLATION_NOTES,
};
use clap::{Arg, ArgAction, Command};
use pb_words::VERSION;
use std::alloc::{AllocError, Global};

/// What a command is called and takes, and what its help says.
struct Description {
    name: &'static str,
    about: &'static str,
    /// In the order of the paths among the words, and of the options in help.
    parameters: &'static [Parameter],
    notes: &'static str,
}

/// What a command takes.
enum Parameter {
    /// A path that the command needs.
    Path {
        id: &'static str,
        name: &'static str,
        help: &'static str,
    },
    /// The path of a certificate of any kind, where `--groups` doesn't stand in its place.
    Certificate {
        help: &'static str,
    },
    /// A switch, off unless its name is among the words.
    Switch {
        name: &'static str,
        help: &'static str,
    },
    /// The path of an outcome file, where the column `selected` is not the outcome.
    Outcome,
    /// The code of the language of a page.
    Language,
    /// The name of a measure of what voters got.
    Satisfaction,
}

const ELECTION: Parameter = Parameter::Path {
    id: "election",
    name: "ELECTION",
    help: "The election, a Pabulib file (.pb)",
};

const PRICE_CERTIFICATE: Parameter = Parameter::Path {
    id: "certificate",
    name: "CERTIFICATE",
    help: "The price certificate, a CSV file",
};

const ANY_CERTIFICATE: Parameter = Parameter::Certificate {
    help: "The certificate of prices, a violation or a refutation, a CSV file",
};

const GROUPS: Parameter = Parameter::Switch {
    name: "groups",
    help: "Ask about groups that fall short, instead of a certificate",
};

const STABLE: Parameter = Parameter::Switch {
    name: "stable",
    help: "Ask for the stable form: condition S5 in place of C5",
};

const NO_EXHAUSTIVE: Parameter = Parameter::Switch {
    name: "no-exhaustive",
    help: "Leave out the condition Exhaustive",
};

const COVER: Parameter = Parameter::Switch {
    name: "cover",
    help: "Add the condition Cover",
};

const JSON: Parameter = Parameter::Switch {
    name: "json",
    help: "Print one JSON object with all that is found, for programs",
};

/// The commands that answer a question on an election or an outcome, in the order of help.
const QUESTIONS: [Description; 6] = [
    Description {
        name: "read",
        about: "Read an election and print how many voters and projects it has",
        parameters: &[ELECTION, JSON],
        notes: READ_NOTES,
    },
    Description {
        name: "groups",
        about: "Check whether a group of voters falls short, for an outcome without a certificate",
        parameters: &[ELECTION, Parameter::Satisfaction, Parameter::Outcome, JSON],
        notes: GROUPS_NOTES,
    },
    Description {
        name: "prices",
        about: "Check whether the payments of a price certificate support the outcome",
        parameters: &[
            ELECTION,
            PRICE_CERTIFICATE,
            STABLE,
            NO_EXHAUSTIVE,
            COVER,
            Parameter::Outcome,
            JSON,
        ],
        notes: PRICES_NOTES,
    },
    Description {
        name: "violation",
        about: "Check whether the outcome treats a group of voters worse than EJR allows",
        parameters: &[
            ELECTION,
            Parameter::Path {
                id: "certificate",
                name: "CERTIFICATE",
                help: "The violation certificate, a CSV file",
            },
            Parameter::Outcome,
            JSON,
        ],
        notes: VIOLATION_NOTES,
    },
    Description {
        name: "refutation",
        about: "Check a proof that no prices whatever support the outcome",
        parameters: &[
            ELECTION,
            Parameter::Path {
                id: "certificate",
                name: "CERTIFICATE",
                help: "The refutation, a CSV file",
            },
            Parameter::Switch {
                name: "stable",
                help: "Ask too whether the weights refute stable prices alone",
            },
            Parameter::Outcome,
            JSON,
        ],
        notes: REFUTATION_NOTES,
    },
    Description {
        name: "both",
        about: "Check a price certificate and a violation certificate for one outcome",
        parameters: &[
            ELECTION,
            Parameter::Path {
                id: "prices",
                name: "PRICES",
                help: "The price certificate, a CSV file",
            },
            Parameter::Path {
                id: "violation",
                name: "VIOLATION",
                help: "The violation certificate, a CSV file",
            },
            STABLE,
            NO_EXHAUSTIVE,
            COVER,
            Parameter::Outcome,
            JSON,
        ],
        notes: BOTH_NOTES,
    },
];

/// The commands behind those that tell more of a certificate.
const TABLES: [Description; 3] = [
    Description {
        name: "explain",
        about: "Check a certificate and print the figures of each condition or test",
        parameters: &[
            ELECTION,
            ANY_CERTIFICATE,
            GROUPS,
            Parameter::Satisfaction,
            STABLE,
            NO_EXHAUSTIVE,
            COVER,
            Parameter::Outcome,
            JSON,
        ],
        notes: EXPLAIN_NOTES,
    },
    Description {
        name: "page",
        about: "Check a certificate and print a page in plain words, as HTML",
        parameters: &[
            ELECTION,
            ANY_CERTIFICATE,
            GROUPS,
            Parameter::Satisfaction,
            STABLE,
            NO_EXHAUSTIVE,
            COVER,
            Parameter::Outcome,
            Parameter::Language,
        ],
        notes: PAGE_NOTES,
    },
    Description {
        name: "margins",
        about: "Print what each project costs, is paid and could be offered, as CSV",
        parameters: &[
            ELECTION,
            Parameter::Certificate {
                help: "The price certificate, a CSV file",
            },
            GROUPS,
            Parameter::Satisfaction,
            Parameter::Outcome,
            JSON,
        ],
        notes: MARGINS_NOTES,
    },
];

/// The commands behind those.
const OTHERS: [Description; 2] = [
    Description {
        name: "tidy",
        about: "Print a price certificate in its canonical form",
        parameters: &[ELECTION, PRICE_CERTIFICATE],
        notes: TIDY_NOTES,
    },
    Description {
        name: "folder",
        about: "Audit the elections of a folder with their certificates",
        parameters: &[
            Parameter::Path {
                id: "folder",
                name: "FOLDER",
                help: "The folder of elections and certificates",
            },
            STABLE,
            NO_EXHAUSTIVE,
            COVER,
            Parameter::Switch {
                name: "json",
                help: "Print a JSON object for each election and one for the total, for programs",
            },
        ],
        notes: FOLDER_NOTES,
    },
];

/// The whole command, with its subcommands.
pub(crate) fn pbaudit_command<'a>(alloc: Global) -> Result<Command<'a>, AllocError>
    ensures { IfOk result (IsCommand pbaudit) }
{
    let all = with_commands(alloc, with_tables(alloc)?, &OTHERS)?;
    Ok(all.after_help(PROGRAM_NOTES))
}

/// The program with all commands but the last.
fn with_tables<'a>(alloc: Global) -> Result<Command<'a>, AllocError>
    ensures { IfOk result (IsCommand with_tables) }
{
    with_commands(alloc, with_questions(alloc)?, &TABLES)
}

/// The program with the first commands.
fn with_questions<'a>(alloc: Global) -> Result<Command<'a>, AllocError>
    ensures { IfOk result (IsCommand with_questions) }
{
    with_commands(alloc, bare_program(alloc), &QUESTIONS)
}

/// The program, without commands.
fn bare_program<'a>(alloc: Global) -> Command<'a>
    ensures { IsCommand (with_version (new_app (codes "pbaudit"))) result }
{
    Command::new(alloc, "pbaudit").version(VERSION).about(
        "Audit the outcomes of participatory budgeting elections, in exact arithmetic",
    )
}

/// A command, with those of these descriptions beside its own.
fn with_commands<'a>(
    alloc: Global,
    program: Command<'a>,
    descriptions: &[Description],
) -> Result<Command<'a>, AllocError>
    ensures { (app : App) → IsCommand app program.entry → IfOk result (IsCommand (fold with_described app descriptions.now)) }
{
    let mut command = program;
    for description in descriptions {
        command = command.subcommand(command_of(alloc, description)?)?;
    }
    Ok(command)
}

/// The command of this description.
fn command_of<'a>(alloc: Global, description: &Description) -> Result<Command<'a>, AllocError>
    ensures { IfOk result (IsCommand (app_described description.now)) }
{
    let mut command = Command::new(alloc, description.name).about(description.about);
    for parameter in description.parameters {
        command = command.arg(arg_of(alloc, parameter))?;
    }
    Ok(command.after_help(description.notes))
}

/// The argument by which a command takes this.
fn arg_of<'a>(alloc: Global, parameter: &Parameter) -> Arg<'a>
    ensures rule { rule_of result ≡ rule_of_parameter parameter.now }
    ensures local { result.global ≡ false }
{
    match parameter {
        Parameter::Path { id, name, help } => Arg::new(alloc, id)
            .required(true)
            .value_name(name)
            .help(help),
        Parameter::Certificate { help } => Arg::new(alloc, "certificate")
            .value_name("CERTIFICATE")
            .help(help),
        Parameter::Switch { name, help } => Arg::new(alloc, name)
            .long(name)
            .action(ArgAction::SetTrue)
            .help(help),
        Parameter::Outcome => Arg::new(alloc, "outcome")
            .long("outcome")
            .value_name("FILE")
            .help("Take the funded projects from this file, not from the column 'selected'"),
        Parameter::Language => Arg::new(alloc, "language")
            .long("language")
            .value_name("CODE")
            .help("Write the page in this language: en, pl, de or fr"),
        Parameter::Satisfaction => Arg::new(alloc, "satisfaction")
            .long("satisfaction")
            .value_name("MEASURE")
            .help("Measure what voters got by 'cost' or by 'count'; by cost where none is named"),
    }
}
