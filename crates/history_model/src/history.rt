//! The history of a cluster as a value.
ghost use Rattle.std.specs.Prelude.{◌≡◌, ◌≤◌, [], ◌∷◌, drop, length, reverse, slice_get, IfOk, OnErr, OnOk};
ghost use Rattle.history_model.specs.Codes.{event_of, further_count};
ghost use Rattle.history_model.specs.declared.events.Event.TheVariants as events;

use crate::codes::{Code, event_of, further_count};
use crate::events::Event;
use crgc_ids::{ActorId, NoMemory, RefList};
use std::alloc::Global;
use std::marker::Model;

/// A history: a number of nodes, a version, and the events of the whole cluster in order, each in eight bytes and four for each
/// further actor that it names. It keeps its allocator. Contracts see its constants and the list of its events, the newest first.
#[derive(Debug, Drop)]
pub struct History {
    codes: Vec<Code>,
    further: Vec<ActorId>,
    nodes: u8,
    version: u8,
}

impl Model for History {
    ghost use Rattle.std.specs.Prelude.{◌≡◌, ◌≤◌, length, reverse, sum_by};
    ghost use Rattle.history_model.specs.Codes.{events_of, further_count};
    ghost use Rattle.history_model.specs.Story.{Story};

    ghost Value = { Story };

    ghost view = { λ h. record {
      cluster = record { nodes = h.nodes; version = h.version };
      past = reverse (events_of h.codes.items h.further.items);
    } };

    ghost invariant = { λ h. (1 ≤ h.nodes) × (h.nodes ≤ 16) × (1 ≤ h.version) × (h.version ≤ 2)
        × (sum_by further_count h.codes.items ≡ length h.further.items) };
}

impl History {
    /// The history without events of a cluster of `nodes` nodes, 1 to 16, in version 1 or 2.
    pub fn new(alloc: Global, nodes: u8, version: u8) -> History
        requires some_node { 1 ≤ nodes }
        requires nodes { nodes ≤ 16 }
        requires some_version { 1 ≤ version }
        requires version { version ≤ 2 }
        ensures nodes { result.cluster.nodes ≡ nodes }
        ensures version { result.cluster.version ≡ version }
        ensures past { result.past ≡ [] }
    {
        History {
            codes: Vec::new(alloc),
            further: Vec::new(alloc),
            nodes,
            version,
        }
    }

    /// Puts the event last; after `NoMemory`, which comes too where it carries more than 65,535 references, the history is as
    /// before. Amortized constant time, and linear in its references.
    #[inline(always)]
    pub fn push(&mut self, event: Event) -> Result<(), NoMemory>
        ensures cluster { self.new.cluster ≡ self.old.cluster }
        ensures ok { OnOk result (self.new.past ≡ event ∷ self.old.past) }
        ensures err { OnErr result (self.new.past ≡ self.old.past) }
    {
        match event {
            Event::Seed { node } => self.put(Code::Seed { node }),
            Event::Tie { owner, target } => self.put_with(Code::Tie { owner }, target, &[]),
            Event::Wake { actor } => self.put(Code::Wake { actor }),
            Event::Take { actor } => self.put(Code::Take { actor }),
            Event::Spawn { parent } => self.put(Code::Spawn { parent }),
            Event::Send { from, to, refs } => self.push_send(from, to, &refs),
            Event::Drop { actor, target } => self.put_with(Code::Drop { actor }, target, &[]),
            Event::Retire { actor } => self.put(Code::Retire { actor }),
            Event::Rest { actor } => self.put(Code::Rest { actor }),
            Event::Flush { actor } => self.put(Code::Flush { actor }),
            Event::Publish { node } => self.put(Code::Publish { node }),
            Event::Window { at, from } => self.put(Code::Window { at, from }),
            Event::Admit { from, at, number } => self.put(Code::Admit { from, at, number }),
            Event::Lose { from, at, number } => self.put(Code::Lose { from, at, number }),
            Event::Repeat { from, at, number } => self.put(Code::Repeat { from, at, number }),
            Event::Crash { node } => self.put(Code::Crash { node }),
            Event::Remove { at, gone } => self.put(Code::Remove { at, gone }),
            Event::Hand { to, origin, number } => self.put(Code::Hand { to, origin, number }),
            Event::Sweep { node } => self.put(Code::Sweep { node }),
        }
    }

    /// Puts a message with these references last, as `push` would.
    pub fn push_send(&mut self, from: ActorId, to: ActorId, refs: &RefList) -> Result<(), NoMemory>
        ensures cluster { self.new.cluster ≡ self.old.cluster }
        ensures ok { OnOk result (self.new.past ≡ events.Send from to refs.now ∷ self.old.past) }
        ensures err { OnErr result (self.new.past ≡ self.old.past) }
    {
        let Ok(count) = u16::try_from(refs.len()) else {
            return Err(NoMemory);
        };
        self.put_with(Code::Send { refs: count, from }, to, refs.as_slice())
    }

    /// Puts the event with this code and no further actors last.
    #[inline(always)]
    fn put(&mut self, code: Code) -> Result<(), NoMemory>
        requires { further_count code ≡ 0 }
        ensures cluster { self.new.cluster ≡ self.old.cluster }
        ensures ok { OnOk result (self.new.past ≡ event_of code [] ∷ self.old.past) }
        ensures err { OnErr result (self.new.past ≡ self.old.past) }
    {
        if self.codes.reserve(1).is_err() {
            return Err(NoMemory);
        }
        self.codes.push_reserved(code);
        Ok(())
    }

    /// Puts the event with this code and these further actors last.
    fn put_with(&mut self, code: Code, first: ActorId, more: &[ActorId]) -> Result<(), NoMemory>
        requires { further_count code ≡ length (first ∷ more.now) }
        ensures cluster { self.new.cluster ≡ self.old.cluster }
        ensures ok { OnOk result (self.new.past ≡ event_of code (first ∷ more.now) ∷ self.old.past) }
        ensures err { OnErr result (self.new.past ≡ self.old.past) }
    {
        if self.codes.reserve(1).is_err() {
            return Err(NoMemory);
        }
        if self.further.push(first).is_err() {
            return Err(NoMemory);
        }
        if self.further.extend_from_slice(more).is_err() {
            self.further.pop();
            return Err(NoMemory);
        }
        self.codes.push_reserved(code);
        Ok(())
    }

    /// Takes the last event back, if there is one. So who pushes an event first can undo it where a later step finds no memory.
    /// Constant time, and linear in its references.
    pub fn take_back(&mut self)
        ensures cluster { self.new.cluster ≡ self.old.cluster }
        ensures past { self.new.past ≡ drop 1 self.old.past }
    {
        if let Some(code) = self.codes.pop() {
            let kept = self.further.len() - further_count(code);
            self.further.truncate(kept);
        }
    }

    /// How many events it has.
    pub fn len(&self) -> usize
        ensures { result ≡ length self.now.past }
    {
        self.codes.len()
    }

    /// Its events, to be read one after the other, the oldest first.
    pub fn events(&self) -> Events<'_>
        ensures { result ≡ reverse self.now.past }
    {
        Events {
            codes: self.codes.as_slice(),
            further: self.further.as_slice(),
        }
    }

    /// All events in a list of their own, the oldest first. Linear time.
    pub fn to_vec(&self, alloc: Global) -> Result<Vec<Event>, NoMemory>
        ensures { IfOk result (λ events. events.items ≡ reverse self.now.past) }
    {
        let mut all = Vec::new(alloc);
        let mut events = self.events();
        for _ in 0..self.len() {
            let event = events.next(alloc)?.unwrap();
            if all.push(event).is_err() {
                return Err(NoMemory);
            }
        }
        Ok(all)
    }

    /// The number of nodes, 1 to 16.
    pub fn nodes(&self) -> u8
        ensures nodes { result ≡ self.now.cluster.nodes }
        ensures some { 1 ≤ result }
        ensures at_most { result ≤ 16 }
    {
        self.nodes
    }

    /// The version, 1 or 2.
    pub fn version(&self) -> u8
        ensures version { result ≡ self.now.cluster.version }
        ensures some { 1 ≤ result }
        ensures at_most { result ≤ 2 }
    {
        self.version
    }
}

/// The events of a history that are still to be read. Contracts see their list, the oldest first.
#[derive(Drop)]
pub struct Events<'a> {
    codes: &'a [Code],
    further: &'a [ActorId],
}

impl<'a> Model for Events<'a> {
    ghost use Rattle.std.specs.Prelude.{◌≡◌, List, length, sum_by};
    ghost use Rattle.history_model.specs.Codes.{events_of, further_count};
    ghost use Rattle.history_model.specs.declared.events.Event.{Event};

    ghost Value = { List Event };

    ghost view = { λ e. events_of e.codes.now e.further.now };

    ghost invariant = { λ e. sum_by further_count e.codes.now ≡ length e.further.now };
}

impl Events<'_> {
    /// Reads the first event; None where none is left. After `NoMemory` it is still to be read. Constant time, and linear in its
    /// references.
    #[inline(always)]
    pub fn next(&mut self, alloc: Global) -> Result<Option<Event>, NoMemory>
        ensures event { IfOk result (λ event. event ≡ slice_get self.old 0) }
        ensures rest { OnOk result (self.new ≡ drop 1 self.old) }
        ensures err { OnErr result (self.new ≡ self.old) }
    {
        let Some((code, codes)) = self.codes.split_first() else {
            return Ok(None);
        };
        let (own, further) = self.further.split_at(further_count(*code));
        let event = event_of(alloc, *code, own)?;
        self.codes = codes;
        self.further = further;
        Ok(Some(event))
    }
}
