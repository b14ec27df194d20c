//! Sentences in a language, with their placeholders filled.
use crate::case::Case;
use crate::naming::{push_label, shortened};
use pb_figures::{Balance, Figure, push_amount, push_grouped};
use pb_markup::{Page, Tag};
use pb_words::{Language, Plural, Sentence, wording_of};
use std::alloc::{AllocError, Global};

/// The words of a language.
#[derive(Clone, Copy)]
pub struct Words {
    pub alloc: Global,
    pub language: Language,
}

/// What fills the placeholders of a sentence. It remembers whether memory ran out, and what is said with it fails then.
#[derive(Drop)]
pub struct Fillings {
    alloc: Global,
    all: Vec<Filling>,
    failed: bool,
}

// What fills a placeholder: its name, which stands in braces in the sentence, and what comes in its place.
#[derive(Drop)]
struct Filling {
    slot: String,
    content: Content,
}

#[derive(Drop)]
enum Content {
    /// Words of the page's own.
    Text(String),
    /// What a file says, as it is shown, in a frame.
    Label(String),
    /// The same without a frame.
    Plain(String),
    /// An amount, with the currency behind it.
    Money(Figure),
    /// The same of one that was computed for the page, in grains.
    Grains(u128),
    /// The same in parts of the currency: how many it is, and how many one unit has.
    Scaled(u128, u64),
}

impl Words {
    /// What a sentence without placeholders says.
    pub fn say(self, sentence: Sentence) -> &'static str {
        wording_of(self.language, sentence)
    }

    /// How the language speaks of so many things.
    pub fn plural(self, count: u64) -> Plural {
        Plural::of(self.language, count)
    }
}

impl Case<'_> {
    /// What a sentence says, with its placeholders filled, for where no elements can stand, as in an attribute. One
    /// that has no filling gets nothing.
    pub fn said(&self, sentence: Sentence, fillings: &Fillings) -> Result<String, AllocError> {
        if fillings.failed {
            return Err(AllocError {});
        }
        let mut text = String::new(self.words.alloc);
        let mut parts = self.words.say(sentence).split('{');
        text.push_str(parts.next().unwrap_or(""))?;
        for part in parts {
            let (slot, literal) = part.split_once('}').unwrap_or(("", part));
            self.push_text(&mut text, fillings.get(slot))?;
            text.push_str(literal)?;
        }
        Ok(text)
    }

    /// Adds a sentence to a page, with its placeholders filled. One that has no filling gets nothing.
    pub fn say(&self, page: &mut Page, sentence: Sentence, fillings: &Fillings) {
        if fillings.failed {
            return page.fail();
        }
        let mut parts = self.words.say(sentence).split('{');
        page.text(parts.next().unwrap_or(""));
        for part in parts {
            let (slot, literal) = part.split_once('}').unwrap_or(("", part));
            self.push_content(page, fillings.get(slot));
            page.text(literal);
        }
    }

    /// Adds a sentence as an element of a class.
    pub fn say_in(
        &self,
        page: &mut Page,
        tag: Tag,
        class: &str,
        sentence: Sentence,
        fillings: &Fillings,
    ) {
        page.open_class(tag, class);
        self.say(page, sentence, fillings);
        page.close();
    }

    fn push_text(&self, text: &mut String, content: Option<&Content>) -> Result<(), AllocError> {
        match content {
            None => Ok(()),
            Some(Content::Text(filling)) => text.push_str(filling),
            Some(Content::Label(label)) => text.push_str(&shortened(self.words.alloc, label)?),
            Some(Content::Plain(label)) => text.push_str(&shortened(self.words.alloc, label)?),
            Some(Content::Money(figure)) => self.push_money_text(
                text,
                self.told.amount_of(*figure),
            ),
            Some(Content::Grains(grains)) => self.push_money_text(text, Balance::of(*grains)),
            Some(Content::Scaled(amount, unit)) => {
                self.push_with_currency(text, &self.scaled_text(*amount, *unit)?)
            }
        }
    }

    fn push_money_text(&self, text: &mut String, amount: Balance) -> Result<(), AllocError> {
        self.push_with_currency(text, &self.amount_text(amount)?)
    }

    fn push_with_currency(&self, text: &mut String, amount: &str) -> Result<(), AllocError> {
        text.push_str(amount)?;
        if !self.currency.is_empty() {
            text.push_str("\u{a0}")?;
            text.push_str(&self.currency)?;
        }
        Ok(())
    }

    fn push_content(&self, page: &mut Page, content: Option<&Content>) {
        match content {
            None => {}
            Some(Content::Text(text)) => page.text(text),
            Some(Content::Label(label)) => push_label(page, self, "named", label),
            Some(Content::Plain(label)) => push_label(page, self, "", label),
            Some(Content::Money(figure)) => {
                page.figure(*figure);
                self.push_currency(page)
            }
            Some(Content::Grains(grains)) => {
                page.text_made(self.amount_text(Balance::of(*grains)));
                self.push_currency(page)
            }
            Some(Content::Scaled(amount, unit)) => {
                page.text_made(self.scaled_text(*amount, *unit));
                self.push_currency(page)
            }
        }
    }

    // An amount in parts of the currency, of which one unit has so many.
    fn scaled_text(&self, amount: u128, unit: u64) -> Result<String, AllocError> {
        let mut text = String::new(self.words.alloc);
        push_amount(&mut text, self.told.style, unit, Balance::of(amount))?;
        Ok(text)
    }

    // Adds the currency behind an amount.
    fn push_currency(&self, page: &mut Page) {
        if self.currency.is_empty() {
            return;
        }
        page.text("\u{a0}");
        page.element(Tag::Bdi, &self.currency);
    }
}

impl Fillings {
    /// No fillings.
    pub fn none(alloc: Global) -> Fillings {
        Fillings {
            alloc,
            all: Vec::new(alloc),
            failed: false,
        }
    }

    /// These fillings and one more, a text of the page's own.
    pub fn and(self, slot: &str, text: &str) -> Fillings {
        let text = String::from_str(self.alloc, text);
        self.and_text(slot, text)
    }

    /// The same of a text that was made.
    pub fn and_text(self, slot: &str, text: Result<String, AllocError>) -> Fillings {
        match text {
            Ok(text) => self.with(slot, Content::Text(text)),
            Err(_) => self.without_memory(),
        }
    }

    /// These fillings and one more, what a file says, which is shown cut where it is long.
    pub fn and_label(self, slot: &str, label: Result<String, AllocError>) -> Fillings {
        match label {
            Ok(label) => self.with(slot, Content::Label(label)),
            Err(_) => self.without_memory(),
        }
    }

    /// These fillings and one more, what a file says, without a frame.
    pub fn and_plain_label(self, slot: &str, label: &str) -> Fillings {
        match String::from_str(self.alloc, label) {
            Ok(label) => self.with(slot, Content::Plain(label)),
            Err(_) => self.without_memory(),
        }
    }

    /// These fillings and one more, a whole number.
    pub fn and_number(self, slot: &str, number: u64) -> Fillings {
        self.and_whole(slot, u128::from(number))
    }

    /// These fillings and one more, a whole number that may be large.
    pub fn and_whole(self, slot: &str, number: u128) -> Fillings {
        let text = grouped(self.alloc, number);
        self.and_text(slot, text)
    }

    /// These fillings and one more, an amount.
    pub fn and_money(self, slot: &str, figure: Figure) -> Fillings {
        self.with(slot, Content::Money(figure))
    }

    /// These fillings and one more, an amount that was computed for the page, in grains.
    pub fn and_grains(self, slot: &str, grains: u128) -> Fillings {
        self.with(slot, Content::Grains(grains))
    }

    /// These fillings and one more, an amount in parts of the currency, of which one unit has so many.
    pub fn and_scaled(self, slot: &str, amount: u128, unit: u64) -> Fillings {
        self.with(slot, Content::Scaled(amount, unit))
    }

    fn with(mut self, slot: &str, content: Content) -> Fillings {
        let Ok(slot) = String::from_str(self.alloc, slot) else {
            return self.without_memory();
        };
        let added = self.all.push(Filling { slot, content });
        self.failed = self.failed || added.is_err();
        self
    }

    fn without_memory(mut self) -> Fillings {
        self.failed = true;
        self
    }

    // What fills a placeholder.
    fn get(&self, slot: &str) -> Option<&Content> {
        for filling in &self.all {
            if filling.slot.as_str() == slot {
                return Some(&filling.content);
            }
        }
        None
    }
}

/// A whole number, with a narrow space between thousands.
pub fn grouped(alloc: Global, number: u128) -> Result<String, AllocError> {
    let mut text = String::new(alloc);
    push_grouped(&mut text, number)?;
    Ok(text)
}
