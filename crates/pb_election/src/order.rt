//! Ids with an order in which they are searched by halves.
ghost use Rattle.std.specs.Prelude.{◌≡◌, ◌≤◌, ◌∷◌, ◌++◌, [], false, length, IfSome, IfOk, OnOk, OnErr};
ghost use Rattle.std.specs.List.{IsDistinct, position_from};
ghost use Rattle.std.specs.Str.{bytes_eq};
ghost use Rattle.pb_election.specs.Names.{is_among};
ghost use Rattle.pb_election.specs.Inside.Ids.{ids_kept};

use std::alloc::{AllocError, Global};
use std::collections::BTreeMap;
use std::marker::Model;

/// Ids in the order of their rows, with the index of each. A look-up compares a text with few others, whatever they are.
#[derive(Drop)]
pub(crate) struct Order {
    texts: Vec<String>,
    indices: BTreeMap<String, usize>,
}

impl Model for Order {
    ghost use Rattle.pb_records.specs.Records.{Rec};
    ghost use Rattle.pb_election.specs.Inside.Ids.{ids_kept, IsIndexed};

    ghost Value = { Rec };

    ghost view = { λ a. ids_kept a.texts.items };

    ghost invariant = { λ a. IsIndexed a.indices (ids_kept a.texts.items) };
}

impl Order {
    /// Of some texts, none of which stands twice.
    pub fn of(alloc: Global, texts: &[String]) -> Result<Order, AllocError>
        requires { IsDistinct bytes_eq (ids_kept texts.now) }
        ensures { IfOk result (λ order. order ≡ ids_kept texts.now) }
    {
        let mut order = Order {
            texts: Vec::new(alloc),
            indices: BTreeMap::new(alloc),
        };
        for text in texts {
            order.add(alloc, text.as_str())?;
        }
        Ok(order)
    }

    /// Adds a new id at the end.
    pub fn add(&mut self, alloc: Global, id: &str) -> Result<(), AllocError>
        requires { is_among self.old id.now ≡ false }
        ensures added { OnOk result (self.new ≡ self.old ++ id.now ∷ []) }
        ensures kept { OnErr result (self.new ≡ self.old) }
    {
        let text = String::from_str(alloc, id)?;
        let key = String::from_str(alloc, id)?;
        self.texts.reserve(1)?;
        self.indices.insert(key, self.texts.len())?;
        self.texts.push_reserved(text);
        Ok(())
    }

    /// The texts, in the order of their rows.
    pub fn texts(&self) -> &[String]
        ensures value { ids_kept result.now ≡ self.now }
        ensures distinct { IsDistinct bytes_eq self.now }
    {
        self.texts.as_slice()
    }

    /// Whether an id is among them.
    pub fn has(&self, id: &str) -> bool
        ensures { result ≡ is_among self.now id.now }
    {
        self.indices.contains_key(id)
    }

    /// The position of an id, from 1, if it is among them.
    pub fn position(&self, id: &str) -> Option<usize>
        ensures value { result ≡ position_from (bytes_eq id.now) 1 self.now }
        ensures within { IfSome result (λ place. place ≤ length self.now) }
    {
        let index = self.indices.get(id)?;
        prove!(*index < self.texts.len());
        Some(*index + 1)
    }
}
