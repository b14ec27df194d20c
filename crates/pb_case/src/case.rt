//! What a page is about: the files, and what was found of them.
use crate::labels::Labels;
use crate::saying::Words;
use pb_election::DecidedElection;
use pb_figures::{Balance, Told, push_amount};
use pb_price::NearestGroup;
use pb_words::Sentence;
use std::alloc::AllocError;

/// What a page is about. Names and facts of files are there as they are shown: with what can't be seen made visible.
#[derive(Drop)]
pub struct Case<'a> {
    pub words: Words,
    pub decided: &'a DecidedElection,
    pub files: PageFiles,
    pub labels: Labels,
    /// The currency, as it stands behind amounts. Empty where the election's file names none.
    pub currency: String,
    /// The code of the language in which the election's file names things. Empty where that isn't known.
    pub names_in: &'static str,
    /// The answer, and what was found.
    pub told: Told,
    /// The supporters of an unfunded project who come nearest to their share, where the answer speaks of groups.
    pub nearest: Option<NearestGroup>,
}

/// The files that were audited.
#[derive(Drop)]
pub struct PageFiles {
    pub election: InputFile,
    pub outcome: Option<InputFile>,
    /// Where the page is about one.
    pub certificate: Option<InputFile>,
}

/// A file that was audited.
#[derive(Drop)]
pub struct InputFile {
    pub name: String,
    /// Whether that is its name byte for byte.
    pub is_exact: bool,
    /// How many bytes it has.
    pub length: usize,
    /// Its SHA-256, as 64 hexadecimal digits.
    pub sum: String,
}

impl Case<'_> {
    /// Whether a project, which is numbered from 1, is funded.
    pub fn is_funded(&self, j: u32) -> bool {
        j != 0 && j <= self.decided.election().projects() && self.decided.outcome().has(j)
    }

    /// What is said of all projects, or that there are none.
    pub fn or_no_projects(&self, sentence: Sentence) -> Sentence {
        if self.decided.election().projects() == 0 {
            Sentence::NoProjects
        } else {
            sentence
        }
    }

    /// The text of an amount, for where no piece of the page can stand, as in an attribute.
    pub(crate) fn amount_text(&self, amount: Balance) -> Result<String, AllocError> {
        let mut text = String::new(self.words.alloc);
        push_amount(
            &mut text,
            self.told.style,
            self.told.grains_per_unit(),
            amount,
        )?;
        Ok(text)
    }
}
