//! The names that an actor keeps from turn to turn.
ghost use Rattle.std.specs.Prelude.{◌≡◌, ◌^◌, ◌<◌, ◌≤◌, ◌↔◌, [], length, IfOk, IfErr, OnOk, OnErr, Option, None, slice_get};
ghost use Rattle.std.specs.Option.{option_copied};
ghost use Rattle.std.specs.Slice.Iter.{iter_rest};
ghost use Rattle.std.specs.Iterator.Adapters.{IterYieldsInOrder, IterYieldsInReverse};
ghost use Rattle.behaviour_lang.specs.Bound.{bind, bound, local_names, without};
ghost use Rattle.crgc_ids.specs.Rising.{IsRising};
ghost use Rattle.behaviour_lang.specs.Rows.{IsGapFor, IsRowBelow, IsRowOf, row_cmp};
ghost use Rattle.behaviour_lang.specs.declared.instr.Name.TheVariants.{Local};

use crate::local_name::LocalName;
use crgc_ids::{ActorId, NoMemory};
use std::alloc::Global;
use std::cmp::Ordering;
use std::marker::Model;
use std::slice::Iter;

/// The local names of an actor, `self` among them, each with the actor to which it is bound. Each name stands there once,
/// and they rise as texts. It keeps its allocator. Contracts see the list of the pairs.
#[derive(Debug, Drop)]
pub struct Locals {
    rows: Vec<(LocalName, ActorId)>,
}

impl Model for Locals {
    ghost use Rattle.std.specs.Prelude.{ℕ, List};
    ghost use Rattle.crgc_ids.specs.Actor.{Actor};
    ghost use Rattle.crgc_ids.specs.Rising.{IsRising};
    ghost use Rattle.behaviour_lang.specs.Rows.{IsRowBelow};

    ghost Value = { List (List ℕ × Actor) };

    ghost view = { λ l. l.rows.items };

    ghost invariant = { λ l. IsRising IsRowBelow l.rows.items };
}

impl Locals {
    /// No name is bound.
    pub fn new(alloc: Global) -> Locals
        ensures { result ≡ [] }
    {
        Locals {
            rows: Vec::new(alloc),
        }
    }

    /// The name, which was not there, is bound to the actor; after `NoMemory` all is as before. Logarithmic time in the
    /// number of names, and each name above is moved by one place.
    pub fn bind(&mut self, name: LocalName, actor: ActorId) -> Result<(), NoMemory>
        requires { bound (Local name) (local_names self.old) ≡ None }
        ensures ok { OnOk result (local_names self.new ≡ bind name actor (local_names self.old)) }
        ensures err { OnErr result (self.new ≡ self.old) }
    {
        let at = self.gap(&name);
        match self.rows.insert(at, (name, actor)) {
            Ok(()) => Ok(()),
            Err(_) => Err(NoMemory),
        }
    }

    /// Equal names. Linear time.
    pub fn copy(&self) -> Result<Locals, NoMemory>
        ensures { IfOk result (λ l. l ≡ self.now) }
    {
        match Vec::from_slice(*self.rows.allocator(), self.rows.as_slice()) {
            Ok(rows) => Ok(Locals { rows }),
            Err(_) => Err(NoMemory),
        }
    }

    /// How many names there are.
    pub fn len(&self) -> usize
        ensures { result ≡ length self.now }
    {
        self.rows.len()
    }

    /// The name at `i`, from 0, and its actor; None exactly at the length and above.
    pub fn get(&self, i: usize) -> Option<&(LocalName, ActorId)>
        ensures { option_copied result ≡ slice_get self.now i }
    {
        self.rows.get(i)
    }

    /// The names in order, each with its actor.
    pub fn iter(&self) -> Iter<'_, (LocalName, ActorId)>
        ensures rest { iter_rest result ≡ self.now }
        ensures len { length (iter_rest result) ≡ length self.now }
        ensures bound { length (iter_rest result) < 2 ^ 64 }
    {
        self.rows.iter()
    }

    /// The actor to which the name is bound. Logarithmic time in the number of names.
    pub(crate) fn find(&self, name: &LocalName) -> Option<ActorId>
        ensures { result ≡ bound (Local name.now) (local_names self.now) }
    {
        match self.search(name) {
            Ok(at) => Some(self.rows[at].1),
            Err(_) => None,
        }
    }

    /// The name is not bound any more. Logarithmic time in the number of names, and each name above is moved by one place.
    pub(crate) fn unbind(&mut self, name: &LocalName)
        ensures { local_names self.new ≡ without (Local name.now) (local_names self.old) }
    {
        if let Ok(at) = self.search(name) {
            self.rows.remove(at);
        }
    }

    // Where the name, which is not there, would go.
    fn gap(&self, name: &LocalName) -> usize
        requires { bound (Local name.now) (local_names self.now) ≡ None }
        ensures { IsGapFor name.now self.now result }
    {
        match self.search(name) {
            Ok(at) => at,
            Err(at) => at,
        }
    }

    // Where the name is, or where it would go.
    fn search(&self, name: &LocalName) -> Result<usize, usize>
        ensures found { IfOk result (IsRowOf name.now self.now) }
        ensures absent { IfErr result (IsGapFor name.now self.now) }
        ensures rising { IsRising IsRowBelow self.now }
    {
        self.rows.binary_search_by(|row| row_cmp(row, name))
    }
}

/// How the name of a row stands to another.
fn row_cmp(row: &(LocalName, ActorId), name: &LocalName) -> Ordering
    ensures { result ≡ row_cmp row.now name.now }
{
    row.0.order(name)
}
