//! The attributes of an element.
ghost use Rattle.std.specs.Prelude.{◌≡◌, ◌++◌, ◌∷◌, [], IfOk, IfSome, IsOkAnd, IsSomeAnd, Some, string_bytes};

use crate::tag::Name;
use std::alloc::{AllocError, Global};
use std::marker::Model;

/// The attributes of an element, in the order in which they are written. They remember whether memory ran out, and say
/// so at the end.
#[derive(Drop)]
pub struct Attributes {
    alloc: Global,
    all: Vec<Attribute>,
    failed: bool,
}

impl Model for Attributes {
    ghost use Rattle.std.specs.Prelude.{ℕ, List, Option, None, Some, if◌then◌else◌};
    ghost use Rattle.pb_markup.specs.declared.tag.Name.{Name};

    ghost Value = { Option (List (Name × List ℕ)) };

    ghost view = { λ a. if a.failed then None else Some a.all.items };
}

/// An attribute.
#[derive(Drop)]
pub struct Attribute {
    name: Name,
    value: String,
}

impl Model for Attribute {
    ghost use Rattle.std.specs.Prelude.{ℕ, List, string_bytes};
    ghost use Rattle.pb_markup.specs.declared.tag.Name.{Name};

    ghost Value = { Name × List ℕ };

    ghost view = { λ a. (a.name, string_bytes a.value) };
}

impl Attributes {
    /// No attributes.
    pub fn none(alloc: Global) -> Attributes
        ensures { result ≡ Some [] }
    {
        Attributes {
            alloc,
            all: Vec::new(alloc),
            failed: false,
        }
    }

    /// One attribute, with its value as it is to be read.
    pub fn of(alloc: Global, name: Name, value: &str) -> Attributes
        ensures { IfSome result (λ all. all ≡ (name, value.now) ∷ []) }
    {
        Attributes::none(alloc).and(name, value)
    }

    /// These attributes and one more, with its value as it is to be read.
    pub fn and(self, name: Name, value: &str) -> Attributes
        ensures { IfSome result (λ all. IsSomeAnd self (λ these. all ≡ these ++ (name, value.now) ∷ [])) }
    {
        let value = String::from_str(self.alloc, value);
        self.and_made(name, value)
    }

    /// The same of a value that was made, or for which memory ran out.
    pub fn and_made(mut self, name: Name, value: Result<String, AllocError>) -> Attributes
        ensures { IfSome result (λ all. IsOkAnd value (λ text. IsSomeAnd self (λ these. all ≡ these ++ (name, string_bytes text) ∷ []))) }
    {
        match value {
            Ok(value) => {
                let added = self.all.push(Attribute { name, value });
                self.failed = self.failed || added.is_err();
            }
            Err(_) => self.failed = true,
        }
        self
    }

    /// The list of them.
    pub fn into_list(self) -> Result<Vec<Attribute>, AllocError>
        ensures { IfOk result (λ all. self ≡ Some all.items) }
    {
        if self.failed {
            return Err(AllocError {});
        }
        Ok(self.all)
    }
}

impl Attribute {
    pub fn name(&self) -> Name
        ensures { result ≡ self.now.0 }
    {
        self.name
    }

    pub fn value(&self) -> &str
        ensures { result.now ≡ self.now.1 }
    {
        &self.value
    }
}
