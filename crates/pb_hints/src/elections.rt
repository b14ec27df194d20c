//! Sentences on elections that are refused.
use crate::lookup::find_project;
use crate::oddity::{Oddity, section_name};
use crate::remark::Remark;
use crate::scene::Scene;
use crate::story::small;
use pb_election::{ElectionFault, MOST_VOTERS, RecordKind, Section, field_in, is_named, marker_of};
use pb_money::{Money, MoneyFault};
use pb_records::clean;
use std::alloc::AllocError;

/// What is wrong with an election, where its bytes can't be had.
pub(crate) fn general(fault: ElectionFault) -> &'static str {
    match fault {
        ElectionFault::NotUtf8 => "the text isn't UTF-8",
        ElectionFault::NoMeta => "the file doesn't begin with META",
        ElectionFault::NoHeader => "a section has no header",
        ElectionFault::MissingSection => "a section is missing",
        ElectionFault::UnexpectedSection => {
            "the sections aren't META, PROJECTS and VOTES, in this order"
        }
        ElectionFault::MissingKey => "META has no budget or no vote_type",
        ElectionFault::RepeatedKey => "META has a key twice",
        ElectionFault::NotApproval => "the vote_type isn't approval",
        ElectionFault::BadMoney => "the budget, or a cost, isn't an amount",
        ElectionFault::MissingColumn => "a header lacks a column",
        ElectionFault::RepeatedColumn => "a header has a column twice",
        ElectionFault::BadId => "the project_id is empty or has a control character",
        ElectionFault::RepeatedProject => "the project_id is that of an earlier project",
        ElectionFault::UnknownProject => "the vote names something that is no project's id",
        ElectionFault::TooMany => {
            "there are more than 20,000 projects, 1,000,000 voters or 20,000,000 approvals"
        }
        ElectionFault::NoOutcome => {
            "PROJECTS has no column selected, so an outcome file is needed (--outcome FILE)"
        }
        ElectionFault::Memory => "out of memory",
    }
}

/// The columns that the header of a section has to have.
fn needed_columns(section: Section) -> &'static [&'static str] {
    match section {
        Section::Meta => &[],
        Section::Projects => &["project_id", "cost"],
        Section::Votes => &["vote"],
    }
}

impl Scene<'_> {
    /// What is wrong with the election here.
    pub fn election_sentence(&self, fault: ElectionFault) -> Result<String, AllocError> {
        if self.is_end() {
            return self.ends_before(&self.wanted_at_end()?);
        }
        let section = section_name(self.section());
        match fault {
            ElectionFault::NotUtf8 => self.not_utf8(),
            ElectionFault::NoMeta => {
                let line = self.quoted_line()?;
                format!(in self.alloc; "the file doesn't begin with META, but with {line}")
            }
            ElectionFault::NoHeader => {
                let line = self.quoted_line()?;
                format!(in self.alloc; "the header of {section} is missing before {line}")
            }
            ElectionFault::UnexpectedSection => self.unexpected_section(),
            ElectionFault::MissingKey => self.text(self.missing_key()),
            ElectionFault::RepeatedKey => {
                let key = small(self.alloc, self.field(0))?;
                self.duplicate("the key ", &key, self.story.keys.get(&key).copied())
            }
            ElectionFault::NotApproval => self.with(
                "the vote_type isn't approval: ",
                self.field(1),
            ),
            ElectionFault::BadMoney => self.bad_money(),
            ElectionFault::MissingColumn => {
                let (column, line) = (self.column(false), self.quoted_line()?);
                format!(in self.alloc; "the header of {section} has no column {column}: {line}")
            }
            ElectionFault::RepeatedColumn => {
                let column = self.column(true);
                format!(in self.alloc; "the header of {section} has the column {column} twice")
            }
            ElectionFault::BadId if self.id().is_empty() => self.text("the project_id is empty"),
            ElectionFault::BadId => {
                self.with("the project_id has a control character: ", self.id())
            }
            ElectionFault::RepeatedProject => {
                let first = self.story.projects.get(self.id()).copied();
                self.duplicate("the project ", self.id(), first)
            }
            ElectionFault::UnknownProject => {
                let name = self.quoted(self.unknown_name())?;
                format!(in self.alloc; "the vote names {name}, but no project has this id")
            }
            ElectionFault::TooMany => self.text(self.too_many()),
            ElectionFault::MissingSection | ElectionFault::NoOutcome | ElectionFault::Memory => {
                self.text(general(fault))
            }
        }
    }

    /// The section at hand.
    fn section(&self) -> Section {
        self.story.section().unwrap_or(Section::Meta)
    }

    /// What is wanted where the file ends.
    fn wanted_at_end(&self) -> Result<String, AllocError> {
        let (words, section) = match self.story.part {
            RecordKind::Stray => return self.text("META"),
            RecordKind::Marker(section) => ("the header of ", section),
            RecordKind::Header(Section::Meta) | RecordKind::Row(Section::Meta) => {
                ("the section ", Section::Projects)
            }
            _ => ("the section ", Section::Votes),
        };
        let name = section_name(section);
        format!(in self.alloc; "{words}{name}")
    }

    fn unexpected_section(&self) -> Result<String, AllocError> {
        let marked = marker_of(self.row()).unwrap_or(Section::Meta);
        if marked == Section::Votes && self.section() == Section::Meta {
            return self.text("the section VOTES begins here, but PROJECTS has to come before it");
        }
        let name = section_name(marked);
        format!(in self.alloc; "the section {name} begins a second time")
    }

    fn missing_key(&self) -> &'static str {
        let keys = &self.story.keys;
        match (keys.contains_key("budget"), keys.contains_key("vote_type")) {
            (false, false) => "META ends here without a budget and a vote_type",
            (false, true) => "META ends here without a budget",
            _ => "META ends here without a vote_type",
        }
    }

    fn bad_money(&self) -> Result<String, AllocError> {
        let (name, amount) = self.amount();
        let words = match Money::read(amount.as_bytes()) {
            Err(MoneyFault::Empty) => return format!(in self.alloc; "the {name} is empty"),
            Err(MoneyFault::TooFine) => "has more than six decimals",
            Err(MoneyFault::TooLarge) => "is more than 10^12",
            _ => "isn't an amount",
        };
        let amount = self.quoted(amount)?;
        format!(in self.alloc; "the {name} {words}: {amount}")
    }

    /// The amount of the record: what it is called, and its field.
    fn amount(&self) -> (&'static str, &str) {
        match self.section() {
            Section::Meta => ("budget", self.field(1)),
            _ => ("cost", field_in(self.story.columns.cost, self.row())),
        }
    }

    /// The first needed column that the header lacks, or has twice; or else the one that may be left out.
    fn column(&self, is_twice: bool) -> &'static str {
        for name in needed_columns(self.section()) {
            let count = self.occurrences(name);
            if count == 0 && !is_twice || count > 1 && is_twice {
                return name;
            }
        }
        "selected"
    }

    fn occurrences(&self, name: &str) -> usize {
        let fields = self.row().iter();
        fields.filter(|field| is_named(clean(field), name)).count()
    }

    fn id(&self) -> &str {
        field_in(self.story.columns.id, self.row())
    }

    /// The first name of the vote that is no project's id.
    fn unknown_name(&self) -> &str {
        let vote = field_in(self.story.columns.vote, self.row());
        let names = vote.split(',').map(|name| clean(name));
        for name in names {
            if !name.is_empty() && !self.story.projects.contains_key(name) {
                return name;
            }
        }
        ""
    }

    fn too_many(&self) -> &'static str {
        match self.section() {
            Section::Votes if self.story.rows >= MOST_VOTERS as u64 => {
                "there are more than 1,000,000 voters"
            }
            Section::Votes => "there are more than 20,000,000 approvals up to this vote",
            _ => "there are more than 20,000 projects",
        }
    }

    /// What often causes such a fault.
    pub fn election_cause(&self, fault: ElectionFault) -> Result<Option<Remark>, AllocError> {
        match fault {
            ElectionFault::NotApproval => self.remark("only approval ballots are audited"),
            ElectionFault::BadMoney if self.has_grouped_amount() => self.remark(
                "an amount is written in digits, optionally with a point or comma and up to six digits after it",
            ),
            ElectionFault::UnknownProject => {
                self.project_cause(find_project(self.alloc, self.file(), self.unknown_name())?)
            }
            ElectionFault::BadMoney | ElectionFault::BadId if self.story.odd.is_none() => {
                self.odd(Oddity::of_row(self.alloc, self.section(), self.row())?)
            }
            ElectionFault::BadMoney
            | ElectionFault::BadId
            | ElectionFault::MissingKey
            | ElectionFault::MissingSection
            | ElectionFault::UnexpectedSection => self.odd_before(),
            ElectionFault::NoMeta | ElectionFault::MissingColumn => {
                self.odd(Oddity::of_one_field(self.row(), self.kind.delimiter()))
            }
            _ => Ok(None),
        }
    }

    /// Whether the amount has a digit, as where it is grouped or has a sign or a currency.
    fn has_grouped_amount(&self) -> bool {
        let amount = self.amount().1.as_bytes();
        Money::read(amount) == Err(MoneyFault::NotNumber)
            && amount.iter().any(|byte| byte.is_ascii_digit())
    }
}
