//! What files say, as it stands on the page: isolated from the words around it, cut where it is long, and marked with
//! its language where that is known.
ghost use Rattle.std.specs.List.{list_all};
ghost use Rattle.std.specs.Prelude.{◌≡◌, IfOk, string_bytes};
ghost use Rattle.pb_case.specs.Shown as spec;
ghost use Rattle.pb_case.specs.Shown.{ShowsLine};

use crate::case::Case;
use crate::labels::Labels;
use crate::saying::Fillings;
use pb_markup::{Attributes, Name, Page, Tag};
use pb_visible::visible;
use pb_words::Sentence;
use std::alloc::{AllocError, Global};

// A label is cut behind so many characters, and what it shows under the pointer behind so many.
const MOST_SHOWN: usize = 80;

const MOST_IN_TITLE: usize = 2_000;

const MOST_OF_A_CURRENCY: usize = 12;

// The line that the program prints is cut behind so many.
const MOST_IN_A_LINE: usize = 120;

/// Adds what a file says, as it is shown. Where it is long it is cut, with the whole under the pointer.
pub fn push_label(page: &mut Page, case: &Case<'_>, class: &str, label: &str) {
    let alloc = case.words.alloc;
    let mut attributes = Attributes::none(alloc);
    if !class.is_empty() {
        attributes = attributes.and(Name::Class, class);
    }
    if !case.names_in.is_empty() {
        attributes = attributes.and(Name::Lang, case.names_in);
    }
    if is_longer(label, MOST_SHOWN) {
        attributes = attributes.and_made(Name::Title, cut(alloc, label, MOST_IN_TITLE));
    }
    page.open_with(Tag::Bdi, attributes);
    page.text_made(shortened(alloc, label));
    page.close();
}

/// A label, cut where it is long.
pub fn shortened(alloc: Global, label: &str) -> Result<String, AllocError> {
    cut(alloc, label, MOST_SHOWN)
}

/// The currency that the election's file names, cut where it is long. Empty where it names none.
pub fn currency_of(alloc: Global, labels: &Labels) -> Result<String, AllocError> {
    cut(alloc, labels.fact("currency"), MOST_OF_A_CURRENCY)
}

/// The code of the language in which the election's file names things, by what it says of its language or its country.
/// Empty where that isn't known.
pub fn language_of(labels: &Labels) -> &'static str {
    let stated = code_of(labels.fact("language"));
    if stated.is_empty() {
        code_of(labels.fact("country"))
    } else {
        stated
    }
}

// The code of a language, by its code or by a country.
fn code_of(fact: &str) -> &'static str {
    match fact {
        "pl" | "Poland" | "Polska" => "pl",
        "de" | "Germany" | "Deutschland" | "Austria" | "Österreich" => "de",
        "fr" | "France" => "fr",
        "en" | "United Kingdom" | "UK" | "United States" | "USA" | "Ireland" => "en",
        "nl" | "Netherlands" => "nl",
        "cs" | "Czechia" | "Czech Republic" => "cs",
        "es" | "Spain" => "es",
        "pt" | "Portugal" | "Brazil" => "pt",
        "it" | "Italy" => "it",
        _ => "",
    }
}

fn is_longer(text: &str, most: usize) -> bool {
    text.chars().nth(most).is_some()
}

// So many characters of a text from its beginning, or all if it has fewer.
fn front(alloc: Global, text: &str, most: usize) -> Result<String, AllocError> {
    let mut front = String::new(alloc);
    for c in text.chars().take(most) {
        front.push(c)?;
    }
    Ok(front)
}

// A text, cut behind so many characters.
fn cut(alloc: Global, text: &str, most: usize) -> Result<String, AllocError> {
    let mut shown = front(alloc, text, most)?;
    if is_longer(text, most) {
        shown.push_str("\u{2026}")?;
    }
    Ok(shown)
}

/// The line that the program prints, as it is shown: with what can't be seen made visible, and cut where it is long.
pub fn shown_line(alloc: Global, line: &str) -> Result<String, AllocError>
    ensures { IfOk result (λ shown. ShowsLine line.now (string_bytes shown)) }
{
    if is_plain_line(line) {
        return String::from_str(alloc, line);
    }
    cut(alloc, &visible(alloc, line.as_bytes())?, MOST_IN_A_LINE)
}

// Whether a line is short, and has no character that can't be seen.
fn is_plain_line(line: &str) -> bool
    ensures { result ≡ spec.is_plain_line line.now }
{
    line.len() <= MOST_IN_A_LINE && are_visible(line.as_bytes())
}

#[tactic(auto, using(std::proofs::lemmas::List::Folds::list_all_at, std::proofs::lemmas::List::Folds::list_all_more))]
fn are_visible(bytes: &[u8]) -> bool
    ensures { result ≡ list_all spec.is_visible_byte bytes.now }
{
    for b in bytes {
        if !is_visible_byte(*b) {
            return false;
        }
    }
    true
}

// Of ASCII, or of a letter from U+00C0 to U+027F.
fn is_visible_byte(b: u8) -> bool
    ensures { result ≡ spec.is_visible_byte b }
{
    matches!(b, 32..=126 | 128..=191 | 195..=201)
}

impl Case<'_> {
    /// A voter, by its number and where its ballot stands.
    pub fn voter(&self, i: u32) -> Result<String, AllocError> {
        let fillings = Fillings::none(self.words.alloc).and_number("voter", u64::from(i));
        self.said(Sentence::VoterRow, &fillings)
    }

    /// The id of a project, which is numbered from 1, as it is shown, or as much of a long one as any label shows.
    pub fn id(&self, j: u32) -> Result<String, AllocError> {
        let alloc = self.words.alloc;
        let election = self.decided.election();
        if j == 0 || j > election.projects() {
            return Ok(String::new(alloc));
        }
        // How a character is shown depends on the one behind it, and whether a text is cut on one more.
        let id = front(alloc, election.id(j), MOST_IN_TITLE + 2)?;
        visible(alloc, id.as_bytes())
    }

    /// A project by its id, and its name where it has one.
    pub fn project(&self, j: u32) -> Result<String, AllocError> {
        let mut text = self.id(j)?;
        let name = self.labels.name(j);
        if !name.is_empty() {
            text.push_str(" \u{b7} ")?;
            text.push_str(name)?;
        }
        Ok(text)
    }

    /// A project by its name, or by its id where it has none.
    pub fn project_name(&self, j: u32) -> Result<String, AllocError> {
        let name = self.labels.name(j);
        if name.is_empty() {
            self.id(j)
        } else {
            String::from_str(self.words.alloc, name)
        }
    }
}
