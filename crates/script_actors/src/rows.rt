//! The actors of one node.
ghost use Rattle.std.specs.Prelude.{◌≡◌, ◌-◌, ◌<◌, ◌++◌, ◌∷◌, [], length, slice_get, slice_set, take, OnErr, OnOk, Some};
ghost use Rattle.script_actors.specs.Table.{behaviour_in};

use behaviour_lang::Locals;
use crgc_ids::NoMemory;
use std::alloc::Global;
use std::marker::Model;

/// The number of an actor's behaviour, and its names; None while they are with its turn.
#[derive(Drop)]
pub struct Row {
    pub behaviour: u32,
    pub names: Option<Locals>,
}

/// The rows of the actors of one node, by their serials. It keeps its allocator. Contracts see the list of the rows.
#[derive(Drop)]
pub struct NodeRows {
    rows: Vec<Row>,
}

impl Model for NodeRows {
    ghost use Rattle.std.specs.Prelude.{List};
    ghost use Rattle.script_actors.specs.declared.rows.Row.{Row};

    ghost Value = { List Row };

    ghost view = { λ n. n.rows.items };
}

impl NodeRows {
    /// No actor.
    pub fn new(alloc: Global) -> NodeRows
        ensures { result ≡ [] }
    {
        NodeRows {
            rows: Vec::new(alloc),
        }
    }

    /// How many actors there are.
    pub fn len(&self) -> usize
        ensures { result ≡ length self.now }
    {
        self.rows.len()
    }

    /// The number of the actor's behaviour; 0 where there is no such actor.
    pub fn behaviour(&self, serial: usize) -> u32
        ensures { result ≡ behaviour_in (slice_get self.now serial) }
    {
        match self.rows.get(serial) {
            Some(row) => row.behaviour,
            None => 0,
        }
    }

    /// The row goes last; after `NoMemory` all is as before. Amortized constant time.
    pub fn push(&mut self, row: Row) -> Result<(), NoMemory>
        ensures ok { OnOk result (self.new ≡ self.old ++ row ∷ []) }
        ensures err { OnErr result (self.new ≡ self.old) }
    {
        match self.rows.push(row) {
            Ok(()) => Ok(()),
            Err(_) => Err(NoMemory),
        }
    }

    /// The row is put in the place of another one, which is the answer. Constant time.
    pub fn replace(&mut self, serial: usize, row: Row) -> Row
        requires { serial < length self.old }
        ensures value { slice_get self.old serial ≡ Some result }
        ensures after { self.new ≡ slice_set self.old serial row }
    {
        std::mem::replace(&mut self.rows[serial], row)
    }

    /// The last row is taken out, if there is one. Constant time.
    pub fn take_last(&mut self)
        ensures { self.new ≡ take (length self.old - 1) self.old }
    {
        self.rows.truncate(self.rows.len().saturating_sub(1));
    }
}
