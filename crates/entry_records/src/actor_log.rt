//! The log of one actor.
ghost use Rattle.std.specs.Prelude.{◌≡◌, ◌+◌, ◌<◌, ◌&&◌, ◌^◌, [], ◌∷◌, IfOk, IsTrue, OnErr, OnOk, count_by};
ghost use Rattle.std.specs.Bool.{beq};
ghost use Rattle.crgc_ids.specs.Actor.{Actor, same_actor};
ghost use Rattle.history_model.specs.Facts.{created, message_facts, received, released};
ghost use Rattle.history_model.specs.Streams.{are_flags};
ghost use Rattle.entry_records.specs.Log.{IsEntryOf, flushed_log, log_with, may_flush, newborn_log, without_last_message};
ghost use Rattle.entry_records.specs.Unflushed.{actor_count, pair_count};

use crate::notes::Notes;
use crgc_ids::{ActorId, NoMemory};
use history_model::Entry;
use std::alloc::Global;
use std::marker::Model;
use std::mem;

/// The flags of a flush.
#[derive(Drop)]
struct FlushFlags {
    busy: bool,
    root: bool,
}

impl Model for FlushFlags {
    ghost use Rattle.history_model.specs.Facts.{Flags};

    ghost Value = { Flags };

    ghost view = { λ f. record { busy = f.busy; root = f.root } };
}

impl FlushFlags {
    /// Whether they are these flags.
    fn are(&self, busy: bool, root: bool) -> bool
        ensures { result ≡ (beq self.now.busy busy && beq self.now.root root) }
    {
        self.busy == busy && self.root == root
    }
}

/// What an actor noted since its last flush, and the flags of that flush. It keeps its allocator. Contracts see the actor,
/// what it noted, and the flags, None where it was never flushed.
#[derive(Drop)]
pub struct ActorLog {
    alloc: Global,
    actor: ActorId,
    flushed: Option<FlushFlags>,
    notes: Notes,
}

impl Model for ActorLog {
    ghost use Rattle.entry_records.specs.Log.{Log};

    ghost Value = { Log };

    ghost view = { λ l. record { actor = l.actor; noted = l.notes; flushed = l.flushed } };
}

impl ActorLog {
    /// The log of a newborn: of a seed without a parent, or of a parent's child. It was never flushed.
    pub fn newborn(
        alloc: Global,
        actor: ActorId,
        parent: Option<ActorId>,
    ) -> Result<ActorLog, NoMemory>
        ensures { IfOk result (λ l. l ≡ newborn_log actor parent) }
    {
        let mut log = ActorLog {
            alloc,
            actor,
            flushed: None,
            notes: Notes::new(alloc),
        };
        log.notes.reserve_birth()?;
        log.note_created(actor, actor)?;
        if let Some(owner) = parent {
            log.note_created(owner, actor)?;
        }
        Ok(log)
    }

    /// The actor made a reference to the target for the owner; after `NoMemory` all is as before. Amortized constant time.
    pub fn note_created(&mut self, owner: ActorId, target: ActorId) -> Result<(), NoMemory>
        requires { pair_count owner target self.old.noted.created + 1 < 2 ^ 32 }
        ensures ok { OnOk result (self.new ≡ log_with (created owner target ∷ []) self.old) }
        ensures err { OnErr result (self.new ≡ self.old) }
    {
        self.notes.add_created(owner, target)
    }

    /// The actor sent a message to another with these references: that notes the send, and each reference as made for
    /// the recipient. After `NoMemory` all is as before. Amortized constant time for each reference.
    pub fn note_sent(&mut self, to: ActorId, refs: &[ActorId]) -> Result<(), NoMemory>
        requires sent { actor_count to self.old.noted.sent + 1 < 2 ^ 32 }
        requires created { (a : Actor) → pair_count to a self.old.noted.created + count_by (same_actor a) refs.now < 2 ^ 32 }
        ensures ok { OnOk result (self.new ≡ log_with (message_facts (record { from = self.old.actor; to = to; refs = refs.now })) self.old) }
        ensures err { OnErr result (self.new ≡ self.old) }
    {
        self.notes.add_sent(to, refs)
    }

    /// The last message that the actor noted as sent, with so many references, is taken back: where this undoes a `note_sent`,
    /// the log is as before it. Constant time.
    pub fn take_back_sent(&mut self, refs: usize)
        ensures { self.new ≡ without_last_message refs self.old }
    {
        self.notes.take_back_sent(refs);
    }

    /// The actor gave up a reference to the target; after `NoMemory` all is as before. Amortized constant time.
    pub fn note_released(&mut self, target: ActorId) -> Result<(), NoMemory>
        requires { actor_count target self.old.noted.released + 1 < 2 ^ 32 }
        ensures ok { OnOk result (self.new ≡ log_with (released self.old.actor target ∷ []) self.old) }
        ensures err { OnErr result (self.new ≡ self.old) }
    {
        self.notes.add_released(target)
    }

    /// The actor took a message.
    pub fn note_received(&mut self)
        requires { self.old.noted.received + 1 < 2 ^ 32 }
        ensures { self.new ≡ log_with (received self.old.actor ∷ []) self.old }
    {
        self.notes.add_received();
    }

    /// Whether the actor may be flushed with these flags: it noted something, or it was never flushed, or the flags differ
    /// from those of its last flush. Constant time.
    pub fn can_flush(&self, busy: bool, root: bool) -> bool
        ensures { result ≡ may_flush self.now (record { busy = busy; root = root }) }
    {
        let is_blank = self.notes.is_blank();
        let has_flags = self.has_flags(busy, root);
        !is_blank || !has_flags
    }

    /// Whether it was flushed, last with these flags.
    fn has_flags(&self, busy: bool, root: bool) -> bool
        ensures { result ≡ are_flags self.now.flushed (record { busy = busy; root = root }) }
    {
        match &self.flushed {
            None => false,
            Some(last) => last.are(busy, root),
        }
    }

    /// The entry of a flush with these flags. The log is then blank, and keeps the flags. Time in proportion to n log n for
    /// n facts, without memory.
    pub fn take_entry(&mut self, busy: bool, root: bool) -> Entry
        requires { IsTrue (may_flush self.old (record { busy = busy; root = root })) }
        ensures entry { IsEntryOf self.old (record { busy = busy; root = root }) result }
        ensures after { self.new ≡ flushed_log self.old (record { busy = busy; root = root }) }
    {
        let notes = mem::replace(&mut self.notes, Notes::new(self.alloc));
        self.flushed = Some(FlushFlags { busy, root });
        notes.into_entry(self.actor, busy, root)
    }

    /// The entry that `take_entry` would give. Time in proportion to n log n for n facts.
    pub fn copy_entry(&self, busy: bool, root: bool) -> Result<Entry, NoMemory>
        requires { IsTrue (may_flush self.now (record { busy = busy; root = root })) }
        ensures { IfOk result (λ e. IsEntryOf self.now (record { busy = busy; root = root }) e) }
    {
        let notes = self.notes.copy()?;
        Ok(notes.into_entry(self.actor, busy, root))
    }
}
