//! The events of a world.
ghost use Rattle.std.specs.Prelude.{◌≡◌, ◌≢◌, ◌≤◌, [], ◌∷◌, List, drop, length, IfSome, OnErr, OnOk};
ghost use Rattle.crgc_ids.specs.Actor.{Actor};
ghost use Rattle.history_model.specs.declared.events.Event.TheVariants as events;

use crgc_ids::{ActorId, NoMemory, RefList};
use history_model::{Event, History};
use std::alloc::Global;
use std::marker::Model;
use std::snapshot::Snapshot;

/// An event, which has these references where it is a message. It has no room for them: contracts see them, and no code can.
#[derive(Drop)]
struct Noted {
    event: Snapshot<Event>,
    refs: Snapshot<RefList>,
}

/// The events of a world, with a record of them or without one. Contracts see its constants and the list of its events, the newest
/// first; code sees them in the record alone, and without it they take no room.
#[derive(Drop)]
pub(crate) struct Track {
    noted: Vec<Noted>,
    history: Option<History>,
    nodes: u8,
    version: u8,
    alloc: Global,
}

impl Model for Track {
    ghost use Rattle.std.specs.Prelude.{◌≡◌, ◌≤◌, IfSome, map, reverse};
    ghost use Rattle.history_model.specs.Story.{Story};
    ghost use Rattle.true_config.specs.Tracks.{carrying};

    ghost Value = { Story };

    ghost view = { λ t. record {
      cluster = record { nodes = t.nodes; version = t.version };
      past = reverse (map (λ n. carrying n.refs.value n.event.value) t.noted.items);
    } };

    ghost invariant = { λ t. (1 ≤ t.nodes) × (t.nodes ≤ 16) × (1 ≤ t.version) × (t.version ≤ 2)
        × IfSome t.history (λ h. (h.cluster ≡ record { nodes = t.nodes; version = t.version })
        × (h.past ≡ reverse (map (λ n. carrying n.refs.value n.event.value) t.noted.items))) };
}

impl Track {
    /// No events of a cluster of `nodes` nodes, 1 to 16, in version 1 or 2, and a record for those that come.
    pub(crate) fn recorded(alloc: Global, nodes: u8, version: u8) -> Track
        requires some_node { 1 ≤ nodes }
        requires nodes { nodes ≤ 16 }
        requires some_version { 1 ≤ version }
        requires version { version ≤ 2 }
        ensures nodes { result.cluster.nodes ≡ nodes }
        ensures version { result.cluster.version ≡ version }
        ensures past { result.past ≡ [] }
    {
        let history = Some(History::new(alloc, nodes, version));
        Track {
            noted: Vec::new(alloc),
            history,
            nodes,
            version,
            alloc,
        }
    }

    /// The same without a record.
    pub(crate) fn unrecorded(alloc: Global, nodes: u8, version: u8) -> Track
        requires some_node { 1 ≤ nodes }
        requires nodes { nodes ≤ 16 }
        requires some_version { 1 ≤ version }
        requires version { version ≤ 2 }
        ensures nodes { result.cluster.nodes ≡ nodes }
        ensures version { result.cluster.version ≡ version }
        ensures past { result.past ≡ [] }
    {
        Track {
            noted: Vec::new(alloc),
            history: None,
            nodes,
            version,
            alloc,
        }
    }

    /// The event comes last; after `NoMemory` all is as before. Amortized constant time, and linear in its references.
    #[inline(always)]
    pub(crate) fn push(&mut self, event: Event) -> Result<(), NoMemory>
        ensures cluster { self.new.cluster ≡ self.old.cluster }
        ensures ok { OnOk result (self.new.past ≡ event ∷ self.old.past) }
        ensures err { OnErr result (self.new.past ≡ self.old.past) }
    {
        match event {
            Event::Send { from, to, refs } => self.push_send(from, to, &refs),
            event => self.push_other(event),
        }
    }

    /// The message with these references comes last, as by `push`.
    #[inline(always)]
    pub(crate) fn push_send(
        &mut self,
        from: ActorId,
        to: ActorId,
        refs: &RefList,
    ) -> Result<(), NoMemory>
        ensures cluster { self.new.cluster ≡ self.old.cluster }
        ensures ok { OnOk result (self.new.past ≡ events.Send from to refs.now ∷ self.old.past) }
        ensures err { OnErr result (self.new.past ≡ self.old.past) }
    {
        if self.noted.reserve(1).is_err() {
            return Err(NoMemory);
        }
        let none = RefList::new(self.alloc);
        let event = Snapshot::of(&Event::Send {
            from,
            to,
            refs: none,
        });
        let refs_noted = Snapshot::of(refs);
        if let Some(history) = &mut self.history {
            history.push_send(from, to, refs)?;
        }
        self.noted.push_reserved(Noted {
            event,
            refs: refs_noted,
        });
        Ok(())
    }

    /// The event, which is no message, comes last.
    #[inline(always)]
    fn push_other(&mut self, event: Event) -> Result<(), NoMemory>
        requires { (from to : Actor) (refs : List Actor) → event ≢ events.Send from to refs }
        ensures cluster { self.new.cluster ≡ self.old.cluster }
        ensures ok { OnOk result (self.new.past ≡ event ∷ self.old.past) }
        ensures err { OnErr result (self.new.past ≡ self.old.past) }
    {
        if self.noted.reserve(1).is_err() {
            return Err(NoMemory);
        }
        let noted = Noted {
            event: Snapshot::of(&event),
            refs: Snapshot::of(&RefList::new(self.alloc)),
        };
        if let Some(history) = &mut self.history {
            history.push(event)?;
        }
        self.noted.push_reserved(noted);
        Ok(())
    }

    /// Takes the last event back, if there is one. Constant time, and linear in its references.
    pub(crate) fn take_back(&mut self)
        ensures cluster { self.new.cluster ≡ self.old.cluster }
        ensures past { self.new.past ≡ drop 1 self.old.past }
    {
        self.noted.pop();
        if let Some(history) = &mut self.history {
            history.take_back();
        }
    }

    /// How many events there are. Constant time.
    pub(crate) fn len(&self) -> usize
        ensures { result ≡ length self.now.past }
    {
        self.noted.len()
    }

    /// The number of nodes, 1 to 16. Constant time.
    pub(crate) fn nodes(&self) -> u8
        ensures nodes { result ≡ self.now.cluster.nodes }
        ensures some { 1 ≤ result }
        ensures at_most { result ≤ 16 }
    {
        self.nodes
    }

    /// The version, 1 or 2. Constant time.
    pub(crate) fn version(&self) -> u8
        ensures version { result ≡ self.now.cluster.version }
        ensures some { 1 ≤ result }
        ensures at_most { result ≤ 2 }
    {
        self.version
    }

    /// The record; None where there is none. Constant time.
    pub(crate) fn history(&self) -> Option<&History>
        ensures { IfSome result (λ h. h.now ≡ self.now) }
    {
        self.history.as_ref()
    }

    /// The record, without the rest; None where there is none. Constant time.
    pub(crate) fn into_history(self) -> Option<History>
        ensures { IfSome result (λ h. h ≡ self) }
    {
        self.history
    }
}
