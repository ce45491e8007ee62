//! To whom an actor sent messages, and which references it gave up.
ghost use Rattle.std.specs.Prelude.{◌≡◌, ◌-◌, ◌==◌, ◌&&◌, ◌++◌, [], ◌∷◌, IfOk, OnErr, OnOk, length, take};
ghost use Rattle.entry_records.specs.Ends.{no_ends};

use crgc_ids::{ActorCount, ActorId, NoMemory};
use std::alloc::Global;
use std::marker::Model;

/// The rows of messages, by recipient, and of references given up, by target.
#[derive(Drop)]
pub struct EndRows {
    pub sent: Vec<ActorCount>,
    pub released: Vec<ActorCount>,
}

/// The rows of messages and of references given up, in a block that is made for the first of them: most actors have none between two
/// flushes. It keeps its allocator. Contracts see the two lists of rows.
#[derive(Drop)]
pub struct Ends {
    kept: Option<Box<EndRows>>,
    alloc: Global,
}

impl Model for Ends {
    ghost use Rattle.entry_records.specs.Ends.{EndLists, lists_in};

    ghost Value = { EndLists };

    ghost view = { λ e. lists_in e.kept };
}

impl Ends {
    /// There is no row. It takes no memory.
    pub fn new(alloc: Global) -> Ends
        ensures { result ≡ no_ends }
    {
        Ends { kept: None, alloc }
    }

    /// A message was sent to the actor: a row that counts one comes last. After `NoMemory` all is as before. Amortized constant time.
    pub fn add_sent(&mut self, to: ActorId) -> Result<(), NoMemory>
        ensures ok { OnOk result (self.new ≡ record self.old { sent = self.old.sent ++ record { actor = to; count = 1 } ∷ [] }) }
        ensures err { OnErr result (self.new ≡ self.old) }
    {
        match &mut self.kept {
            Some(rows) => add(&mut rows.sent, to),
            None => {
                let mut rows = no_rows(self.alloc);
                add(&mut rows.sent, to)?;
                self.keep(rows)
            }
        }
    }

    /// A reference to the target was given up: a row that counts one comes last. After `NoMemory` all is as before. Amortized constant
    /// time.
    pub fn add_released(&mut self, target: ActorId) -> Result<(), NoMemory>
        ensures ok { OnOk result (self.new ≡ record self.old { released = self.old.released ++ record { actor = target; count = 1 } ∷ [] }) }
        ensures err { OnErr result (self.new ≡ self.old) }
    {
        match &mut self.kept {
            Some(rows) => add(&mut rows.released, target),
            None => {
                let mut rows = no_rows(self.alloc);
                add(&mut rows.released, target)?;
                self.keep(rows)
            }
        }
    }

    /// These rows stand in a block from now on. After `NoMemory` all is as before.
    fn keep(&mut self, rows: EndRows) -> Result<(), NoMemory>
        ensures ok { OnOk result (self.new ≡ record { sent = rows.sent.items; released = rows.released.items }) }
        ensures err { OnErr result (self.new ≡ self.old) }
    {
        match Box::new(self.alloc, rows) {
            Ok(rows) => {
                self.kept = Some(rows);
                Ok(())
            }
            Err(_) => Err(NoMemory),
        }
    }

    /// The last message that was sent is taken back, if there is one. Constant time.
    pub fn take_back_sent(&mut self)
        ensures { self.new ≡ record self.old { sent = take (length self.old.sent - 1) self.old.sent } }
    {
        if let Some(rows) = &mut self.kept {
            rows.sent.pop();
        }
    }

    /// Whether there is no row. Constant time.
    pub fn is_blank(&self) -> bool
        ensures { result ≡ ((length self.now.sent == 0) && (length self.now.released == 0)) }
    {
        match &self.kept {
            Some(rows) => rows.sent.as_slice().is_empty() && rows.released.as_slice().is_empty(),
            None => true,
        }
    }

    /// Equal rows. Linear time.
    pub fn copy(&self) -> Result<Ends, NoMemory>
        ensures { IfOk result (λ e. e ≡ self.now) }
    {
        let mut ends = Ends::new(self.alloc);
        if let Some(rows) = &self.kept {
            let sent = copy_rows(&rows.sent)?;
            let released = copy_rows(&rows.released)?;
            ends.keep(EndRows { sent, released })?;
        }
        Ok(ends)
    }

    /// The rows as two vectors, without memory. Constant time.
    pub fn into_rows(self) -> EndRows
        ensures sent { result.sent.items ≡ self.sent }
        ensures released { result.released.items ≡ self.released }
    {
        match self.kept {
            Some(rows) => Box::into_inner(rows),
            None => no_rows(self.alloc),
        }
    }
}

/// No row of either kind. It takes no memory.
fn no_rows(alloc: Global) -> EndRows
    ensures sent { result.sent.items ≡ [] }
    ensures released { result.released.items ≡ [] }
{
    EndRows {
        sent: Vec::new(alloc),
        released: Vec::new(alloc),
    }
}

/// A row that counts the actor once comes last. After `NoMemory` all is as before.
fn add(rows: &mut Vec<ActorCount>, actor: ActorId) -> Result<(), NoMemory>
    ensures ok { OnOk result (rows.new.items ≡ rows.old.items ++ record { actor = actor; count = 1 } ∷ []) }
    ensures err { OnErr result (rows.new.items ≡ rows.old.items) }
{
    match rows.push(ActorCount { actor, count: 1 }) {
        Ok(()) => Ok(()),
        Err(_) => Err(NoMemory),
    }
}

/// An equal vector. Linear time.
pub fn copy_rows<T: Copy>(rows: &Vec<T>) -> Result<Vec<T>, NoMemory>
    ensures { IfOk result (λ v. v.items ≡ rows.now.items) }
{
    match Vec::from_slice(*rows.allocator(), rows.as_slice()) {
        Ok(copied) => Ok(copied),
        Err(_) => Err(NoMemory),
    }
}
