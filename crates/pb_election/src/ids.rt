//! The ids of projects.
ghost use Rattle.std.specs.Prelude.{◌≡◌, ◌<◌, ◌≤◌, ◌∷◌, ◌++◌, false, length, slice_index_or, Some, [], IfOk, IfSome, OnOk, OnErr};
ghost use Rattle.std.specs.List.{IsDistinct, list_any, position_from};
ghost use Rattle.std.specs.Str.{bytes_eq};
ghost use Rattle.pb_election.specs.Names.{is_among};
ghost use Rattle.pb_election.specs.Inside.Ids.{ids_kept};
ghost use Rattle.pb_election.specs.Rows as rows;

use crate::guesses::Guesses;
use crate::order::Order;
use crate::steps::Steps;
use indexmap::IndexSet;
use std::alloc::{AllocError, Global};
use std::marker::Model;

fn has_control(text: &str) -> bool
    ensures { result ≡ list_any rows.is_control text.now }
{
    text.as_bytes().iter().any(|byte| byte.is_ascii_control())
}

/// Whether a text may be the id of a project: it is not empty, and has no control byte.
pub(crate) fn is_id(id: &str) -> bool
    ensures { result ≡ rows.is_id id.now }
{
    !id.is_empty() && !has_control(id)
}

/// The ids of the projects, in the order of their rows. They stand in a set that hashes them, until a look-up there takes
/// too many steps, as where they were made to collide, and from then on in an order.
#[derive(Drop)]
pub(crate) struct Ids {
    guesses: Guesses,
    steps: Steps,
    set: IndexSet<String>,
    order: Option<Order>,
}

impl Model for Ids {
    ghost use Rattle.pb_records.specs.Records.{Rec};
    ghost use Rattle.pb_election.specs.Inside.Ids.{ids_in_order_or_set};

    ghost Value = { Rec };

    ghost view = { λ a. ids_in_order_or_set a.order a.set.keys };
}

impl Ids {
    /// No ids.
    pub fn new(alloc: Global) -> Result<Ids, AllocError>
        ensures { IfOk result (λ ids. ids ≡ []) }
    {
        Ok(Ids {
            guesses: Guesses::new(alloc)?,
            steps: Steps::new(alloc),
            set: IndexSet::new(alloc),
            order: None,
        })
    }

    /// How many there are. None is kept twice.
    pub fn len(&self) -> usize
        ensures value { result ≡ length self.now }
        ensures distinct { IsDistinct bytes_eq self.now }
    {
        self.texts().len()
    }

    /// The id at an index, from 0.
    pub fn get(&self, index: usize) -> &str
        requires { index < length self.now }
        ensures { result.now ≡ slice_index_or self.now index [] }
    {
        &self.texts()[index]
    }

    /// Whether an id is among them.
    pub fn has(&self, id: &str) -> bool
        ensures { result ≡ is_among self.now id.now }
    {
        match &self.order {
            None => self.set.contains(id),
            Some(order) => order.has(id),
        }
    }

    /// Adds a new id at the end.
    pub fn add(&mut self, alloc: Global, id: &str) -> Result<(), AllocError>
        requires { is_among self.old id.now ≡ false }
        ensures added { OnOk result (self.new ≡ self.old ++ id.now ∷ []) }
        ensures kept { OnErr result (self.new ≡ self.old) }
    {
        self.prepare(alloc, id)?;
        match &mut self.order {
            None => {
                let key = String::from_str(alloc, id)?;
                self.set.insert(key)?;
                Ok(())
            }
            Some(order) => order.add(alloc, id),
        }
    }

    // Notes where a new id will stand, and goes over to an order once a look-up in the set would take too many steps.
    fn prepare(&mut self, alloc: Global, id: &str) -> Result<(), AllocError>
        ensures { self.new ≡ self.old }
    {
        let index = self.len();
        self.guesses.note(id, index);
        if self.order.is_none() && self.steps.exceed(id)? {
            self.begin_order(alloc)?;
        }
        Ok(())
    }

    // Goes over to an order.
    #[cold]
    #[inline(never)]
    fn begin_order(&mut self, alloc: Global) -> Result<(), AllocError>
        ensures { self.new ≡ self.old }
    {
        let order = Order::of(alloc, self.texts())?;
        self.order = Some(order);
        self.set = IndexSet::new(alloc);
        self.steps = Steps::new(alloc);
        Ok(())
    }

    fn texts(&self) -> &[String]
        ensures value { ids_kept result.now ≡ self.now }
        ensures distinct { IsDistinct bytes_eq self.now }
    {
        match &self.order {
            None => self.set.as_slice(),
            Some(order) => order.texts(),
        }
    }

    /// The position of an id, from 1, if it is among them. A right guess spares the search.
    pub fn position(&self, id: &str) -> Option<usize>
        ensures value { result ≡ position_from (bytes_eq id.now) 1 self.now }
        ensures within { IfSome result (λ place. place ≤ length self.now) }
    {
        match self.position_at(self.guesses.guess(id), id) {
            Some(position) => Some(position),
            None => self.search(id),
        }
    }

    // The position of an id, from 1, if it stands at this index.
    fn position_at(&self, index: usize, id: &str) -> Option<usize>
        ensures value { IfSome result (λ place. position_from (bytes_eq id.now) 1 self.now ≡ Some place) }
        ensures within { IfSome result (λ place. place ≤ length self.now) }
    {
        let kept = self.texts().get(index)?;
        if kept.as_str() != id {
            return None;
        }
        Some(index + 1)
    }

    // The position of an id, from 1, if it is among them. It is out of line, so that a right guess costs less.
    #[cold]
    #[inline(never)]
    fn search(&self, id: &str) -> Option<usize>
        ensures value { result ≡ position_from (bytes_eq id.now) 1 self.now }
        ensures within { IfSome result (λ place. place ≤ length self.now) }
    {
        match &self.order {
            None => {
                let index = self.set.get_index_of(id)?;
                prove!(index < self.set.len());
                Some(index + 1)
            }
            Some(order) => order.position(id),
        }
    }
}
