//! A page that is being made, as a list of pieces, and how it is written out at the end.
ghost use Rattle.std.specs.Prelude.{◌≡◌, ◌∷◌, ◌++◌, [], IfOk, IfSome, IsOkAnd, IsSomeAnd, None, OnOk, Some, string_bytes};
ghost use Rattle.std.specs.List.{flat_map};
ghost use Rattle.pb_markup.specs.PieceList.{piece_of};
ghost use Rattle.pb_markup.specs.Pieces as spec;
ghost use Rattle.pb_markup.specs.Pieces.{Adds, AddsMade, Amount, Close, Headline, Line, Open, Words, rendering, write};
ghost use Rattle.pb_markup.specs.Shown.{shows_of};
ghost use Rattle.pb_markup.specs.declared.tag.Name.TheVariants.{Class};

use crate::attributes::{Attribute, Attributes};
use crate::escapes::push_escaped;
use crate::tag::{Name, Tag};
use pb_figures::{Figure, Told, push_amount};
use pb_words::headline_words;
use std::alloc::{AllocError, Global};
use std::marker::Model;

/// A page, or a part of one, that is being made: a list of pieces. It remembers whether memory ran out, and says so at
/// the end.
#[derive(Drop)]
pub struct Page {
    alloc: Global,
    pieces: Vec<Piece>,
    failed: bool,
}

impl Model for Page {
    ghost use Rattle.std.specs.Prelude.{List, Option, None, Some, if◌then◌else◌, map};
    ghost use Rattle.pb_markup.specs.PieceList.{piece_of};
    ghost use Rattle.pb_markup.specs.Pieces.{Piece};

    ghost Value = { Option (List Piece) };

    ghost view = { λ p. if p.failed then None else Some (map piece_of p.pieces.items) };
}

// A piece of a page.
#[derive(Drop)]
enum Piece {
    /// An element begins.
    Open(Tag, Vec<Attribute>),
    /// Text, as it is to be read.
    Text(String),
    /// An amount.
    Figure(Figure),
    /// The answer in a sentence.
    Headline,
    /// The line that the program prints.
    Line,
    /// The element that began last, and has not ended, ends.
    Close,
}

impl Page {
    /// No pieces yet.
    pub fn new(alloc: Global) -> Page
        ensures { result ≡ Some [] }
    {
        Page {
            alloc,
            pieces: Vec::new(alloc),
            failed: false,
        }
    }

    /// Begins an element without attributes. One that can have no content, as `br`, has ended by that.
    pub fn open(&mut self, tag: Tag)
        ensures { Adds self.old (Open tag [] ∷ []) self.new }
    {
        self.open_with(tag, Attributes::none(self.alloc));
    }

    /// Begins an element with attributes.
    pub fn open_with(&mut self, tag: Tag, attributes: Attributes)
        ensures { AddsMade (λ all. Open tag all ∷ []) self.old attributes self.new }
    {
        match attributes.into_list() {
            Ok(all) => self.push(Piece::Open(tag, all)),
            Err(_) => self.failed = true,
        }
    }

    /// Begins an element of a class.
    pub fn open_class(&mut self, tag: Tag, class: &str)
        ensures { Adds self.old (Open tag ((Class, class.now) ∷ []) ∷ []) self.new }
    {
        let attributes = Attributes::of(self.alloc, Name::Class, class);
        self.open_with(tag, attributes);
    }

    /// Adds text, as it is to be read.
    pub fn text(&mut self, text: &str)
        ensures { Adds self.old (Words text.now ∷ []) self.new }
    {
        let text = String::from_str(self.alloc, text);
        self.text_made(text);
    }

    /// Adds text that was made, or for which memory ran out.
    pub fn text_made(&mut self, text: Result<String, AllocError>)
        ensures { IfSome self.new (λ all. IsOkAnd text (λ words. IsSomeAnd self.old (λ these. all ≡ these ++ Words (string_bytes words) ∷ []))) }
    {
        match text {
            Ok(text) => self.push(Piece::Text(text)),
            Err(_) => self.failed = true,
        }
    }

    /// Adds an amount of what the page is about.
    pub fn figure(&mut self, figure: Figure)
        ensures { Adds self.old (Amount figure ∷ []) self.new }
    {
        self.push(Piece::Figure(figure));
    }

    /// Adds the answer in a sentence.
    pub fn headline(&mut self)
        ensures { Adds self.old (Headline ∷ []) self.new }
    {
        self.push(Piece::Headline);
    }

    /// Adds the line that the program prints.
    pub fn line(&mut self)
        ensures { Adds self.old (Line ∷ []) self.new }
    {
        self.push(Piece::Line);
    }

    /// Ends the element that began last and has not ended.
    pub fn close(&mut self)
        ensures { Adds self.old (Close ∷ []) self.new }
    {
        self.push(Piece::Close);
    }

    /// Adds an element that has text alone.
    pub fn element(&mut self, tag: Tag, text: &str)
        ensures { Adds self.old (Open tag [] ∷ Words text.now ∷ Close ∷ []) self.new }
    {
        self.open(tag);
        self.text(text);
        self.close();
    }

    /// Adds an element of a class that has text alone.
    pub fn element_class(&mut self, tag: Tag, class: &str, text: &str)
        ensures { Adds self.old (Open tag ((Class, class.now) ∷ []) ∷ Words text.now ∷ Close ∷ []) self.new }
    {
        self.open_class(tag, class);
        self.text(text);
        self.close();
    }

    /// Adds all pieces of another page.
    pub fn append(&mut self, mut other: Page)
        ensures { AddsMade (λ pieces. pieces) self.old other self.new }
    {
        let added = self.pieces.append(&mut other.pieces);
        self.failed = self.failed || other.failed || added.is_err();
    }

    /// A page for which memory ran out.
    pub fn failed(alloc: Global) -> Page
        ensures { result ≡ None }
    {
        let mut page = Page::new(alloc);
        page.fail();
        page
    }

    /// Remembers that memory ran out.
    pub fn fail(&mut self)
        ensures { self.new ≡ None }
    {
        self.failed = true;
    }

    // Adds a piece.
    fn push(&mut self, piece: Piece)
        ensures { Adds self.old (piece_of piece ∷ []) self.new }
    {
        let added = self.pieces.push(piece);
        self.failed = self.failed || added.is_err();
    }

    /// The text of the page, which tells this. Elements that have begun and not ended end behind the last piece.
    pub fn into_text(self, told: &Told) -> Result<Vec<u8>, AllocError>
        ensures { IfOk result (λ text. IsSomeAnd self (λ pieces. text.items ≡ rendering (shows_of told.now) pieces)) }
    {
        if self.failed {
            return Err(AllocError {});
        }
        let mut writing = Writing::new(self.alloc)?;
        for piece in &self.pieces {
            writing.push(piece, told)?;
        }
        writing.end_all()?;
        Ok(writing.text)
    }
}

// A page as far as it is written.
#[derive(Drop)]
struct Writing {
    alloc: Global,
    text: Vec<u8>,
    // The elements that have begun and not ended, the innermost last.
    open: Vec<Tag>,
}

impl Model for Writing {
    ghost use Rattle.pb_markup.specs.Pieces.{Written};

    ghost Value = { Written };

    ghost view = { λ w. record { text = w.text.items; opened = w.«open».items } };
}

impl Writing {
    fn new(alloc: Global) -> Result<Writing, AllocError>
        ensures { IfOk result (λ writing. writing ≡ spec.start) }
    {
        let mut text = Vec::new(alloc);
        text.extend_from_slice(b"<!DOCTYPE html>\n")?;
        Ok(Writing {
            alloc,
            text,
            open: Vec::new(alloc),
        })
    }

    fn push(&mut self, piece: &Piece, told: &Told) -> Result<(), AllocError>
        ensures { OnOk result (self.new ≡ write (shows_of told.now) self.old (piece_of piece.now)) }
    {
        match piece {
            Piece::Open(tag, attributes) => self.begin(*tag, attributes),
            Piece::Text(words) => push_escaped(&mut self.text, words.as_bytes()),
            Piece::Figure(figure) => self.push_figure(*figure, told),
            Piece::Headline => push_escaped(&mut self.text, headline(told).as_bytes()),
            Piece::Line => push_escaped(&mut self.text, told.line.as_bytes()),
            Piece::Close => self.end(),
        }
    }

    fn begin(&mut self, tag: Tag, attributes: &[Attribute]) -> Result<(), AllocError>
        ensures { OnOk result (self.new ≡ spec.begin self.old tag attributes.now) }
    {
        push_begin_tag(&mut self.text, tag, attributes)?;
        if !tag.is_void() {
            self.open.push(tag)?;
        }
        Ok(())
    }

    fn end(&mut self) -> Result<(), AllocError>
        ensures { OnOk result (self.new ≡ spec.close self.old) }
    {
        let Some(tag) = self.open.pop() else {
            return Ok(());
        };
        push_end_tag(&mut self.text, tag)
    }

    // Ends all elements that have begun and not ended.
    #[tactic(auto, unfolding(crate::specs::Pieces::close_innermost))]
    fn end_all(&mut self) -> Result<(), AllocError>
        ensures { OnOk result (self.new ≡ spec.ended self.old) }
    {
        for _ in 0..self.open.len() {
            self.end()?;
        }
        Ok(())
    }

    fn push_figure(&mut self, figure: Figure, told: &Told) -> Result<(), AllocError>
        ensures { OnOk result (self.new ≡ spec.add_text self.old ((shows_of told.now).amount figure)) }
    {
        let mut shown = String::new(self.alloc);
        let amount = told.amount_of(figure);
        push_amount(&mut shown, told.style, told.grains_per_unit(), amount)?;
        push_escaped(&mut self.text, shown.as_bytes())
    }
}

fn headline(told: &Told) -> &'static str
    ensures { result.now ≡ (shows_of told.now).headline }
{
    headline_words(told.style.language, told.headline())
}

fn push_begin_tag(text: &mut Vec<u8>, tag: Tag, attributes: &[Attribute]) -> Result<(), AllocError>
    ensures { OnOk result (text.new.items ≡ text.old.items ++ spec.begin_tag tag attributes.now) }
{
    text.extend_from_slice(b"<")?;
    text.extend_from_slice(tag.name().as_bytes())?;
    push_attributes(text, attributes)?;
    text.extend_from_slice(b">")?;
    Ok(())
}

fn push_end_tag(text: &mut Vec<u8>, tag: Tag) -> Result<(), AllocError>
    ensures { OnOk result (text.new.items ≡ text.old.items ++ spec.end_tag tag) }
{
    text.extend_from_slice(b"</")?;
    text.extend_from_slice(tag.name().as_bytes())?;
    text.extend_from_slice(b">")?;
    Ok(())
}

fn push_attributes(text: &mut Vec<u8>, attributes: &[Attribute]) -> Result<(), AllocError>
    ensures { OnOk result (text.new.items ≡ text.old.items ++ flat_map spec.attribute attributes.now) }
{
    for attribute in attributes {
        push_attribute(text, attribute)?;
    }
    Ok(())
}

fn push_attribute(text: &mut Vec<u8>, attribute: &Attribute) -> Result<(), AllocError>
    ensures { OnOk result (text.new.items ≡ text.old.items ++ spec.attribute attribute.now) }
{
    text.extend_from_slice(attribute.name().opening().as_bytes())?;
    push_escaped(text, attribute.value().as_bytes())?;
    text.extend_from_slice(b"\"")?;
    Ok(())
}
