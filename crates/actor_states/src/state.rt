//! What is true of one actor now.
ghost use Rattle.std.specs.Prelude.{◌≡◌, ◌+◌, ◌<◌, ◌≤◌, ◌^◌, [], ◌∷◌, false, true, length, Some, None, Option, IfOk, IsTrue};
ghost use Rattle.std.specs.Prelude.{OnErr, OnOk, count_by};
ghost use Rattle.crgc_ids.specs.Actor.{Actor, same_actor};
ghost use Rattle.history_model.specs.Facts.{created};
ghost use Rattle.refob_counts.specs.Counts.{IsGain, count_of};
ghost use Rattle.entry_records.specs.Log.{IsEntryOf};
ghost use Rattle.entry_records.specs.Unflushed.{pair_count};
ghost use Rattle.actor_states.specs.State.{Begets, DifferInHeld, Drops, Flushes, Gains, HasRoom, IsAlike, IsChild, IsSeed, Sends};
ghost use Rattle.actor_states.specs.State.{Takes, child_refs, flags_of, has_news, is_this, noting, unsent};

use crgc_ids::{ActorId, NoMemory};
use entry_records::ActorLog;
use history_model::Entry;
use refob_counts::RefCounts;
use std::alloc::Global;
use std::marker::Model;

/// Whether an actor is busy, a root, or stopped; whose child it is; the references that it holds; and its log. It keeps its
/// allocator. Contracts see all of these.
#[derive(Drop)]
pub struct ActorState {
    busy: bool,
    root: bool,
    stopped: bool,
    parent: Option<ActorId>,
    held: RefCounts,
    log: ActorLog,
}

impl Model for ActorState {
    ghost use Rattle.actor_states.specs.State.{State};

    ghost Value = { State };

    ghost view = { λ s. record {
      busy = s.busy;
      root = s.root;
      parent = s.parent;
      held = s.held;
      log = s.log;
      stopped = s.stopped;
    } };
}

impl ActorState {
    /// A seed: an idle root that holds itself.
    pub fn seed(alloc: Global, actor: ActorId) -> Result<ActorState, NoMemory>
        ensures { IfOk result (λ s. IsSeed s actor) }
    {
        let held = holding(alloc, [actor].as_slice())?;
        let log = ActorLog::newborn(alloc, actor, None)?;
        Ok(ActorState {
            busy: false,
            root: true,
            parent: None,
            held,
            log,
            stopped: false,
        })
    }

    /// A child: idle, no root; it holds itself, and its parent where it is supervised.
    pub fn child(
        alloc: Global,
        actor: ActorId,
        parent: ActorId,
        supervised: bool,
    ) -> Result<ActorState, NoMemory>
        ensures { IfOk result (λ s. IsChild s actor parent supervised) }
    {
        let held = child_holding(alloc, actor, parent, supervised)?;
        let log = ActorLog::newborn(alloc, actor, Some(parent))?;
        Ok(ActorState {
            busy: false,
            root: false,
            parent: Some(parent),
            held,
            log,
            stopped: false,
        })
    }

    /// Whether it is busy.
    pub fn is_busy(&self) -> bool
        ensures { result ≡ self.now.busy }
    {
        self.busy
    }

    /// Whether it is a root.
    pub fn is_root(&self) -> bool
        ensures { result ≡ self.now.root }
    {
        self.root
    }

    /// Whether it was stopped.
    pub fn is_stopped(&self) -> bool
        ensures { result ≡ self.now.stopped }
    {
        self.stopped
    }

    /// Whether it is a child of the actor.
    pub fn is_child_of(&self, actor: ActorId) -> bool
        ensures { result ≡ is_this self.now.parent actor }
    {
        match &self.parent {
            Some(parent) => *parent == actor,
            None => false,
        }
    }

    /// How many references to the target it holds. Logarithmic time in the number of targets.
    pub fn held(&self, target: ActorId) -> u32
        ensures { result ≡ count_of self.now.held target }
    {
        self.held.held(target)
    }

    /// Whether its log or its flags have something to tell. Constant time.
    pub fn has_news(&self) -> bool
        ensures { result ≡ has_news self.now }
    {
        self.log.can_flush(self.busy, self.root)
    }

    /// It becomes busy of itself.
    pub fn wake(&mut self)
        ensures { self.new ≡ record self.old { busy = true } }
    {
        self.busy = true;
    }

    /// It becomes idle.
    pub fn rest(&mut self)
        ensures { self.new ≡ record self.old { busy = false } }
    {
        self.busy = false;
    }

    /// It is no root from now on.
    pub fn retire(&mut self)
        ensures { self.new ≡ record self.old { root = false } }
    {
        self.root = false;
    }

    /// It is stopped.
    pub fn stop(&mut self)
        ensures { self.new ≡ record self.old { stopped = true } }
    {
        self.stopped = true;
    }

    /// It becomes busy with a message, whose references it now holds. After `NoMemory` it is as before. Logarithmic time in
    /// the number of targets for each reference.
    pub fn take(&mut self, refs: &[ActorId]) -> Result<(), NoMemory>
        requires { HasRoom self.old (1 + length refs.now) }
        ensures ok { OnOk result (Takes refs.now self.old self.new) }
        ensures err { OnErr result (IsAlike self.old self.new) }
    {
        self.held.add_all(refs)?;
        self.log.note_received();
        self.busy = true;
        Ok(())
    }

    /// It gets one reference to the target. After `NoMemory` it is as before. Logarithmic time in the number of targets.
    pub fn gain(&mut self, target: ActorId) -> Result<(), NoMemory>
        requires { HasRoom self.old 1 }
        ensures ok { OnOk result (Gains self.old self.new (target ∷ [])) }
        ensures err { OnErr result (self.new ≡ self.old) }
    {
        self.held.add(target, 1)
    }

    /// It has one reference less to the target, of which it holds some; the log is as before. Logarithmic time in the number
    /// of targets.
    pub fn lose(&mut self, target: ActorId)
        requires { 0 < count_of self.old.held target }
        ensures { Gains self.new self.old (target ∷ []) }
    {
        // one is held, so this is no error
        let _ = self.held.release(target);
    }

    /// It notes that a reference to the target was made for the owner. After `NoMemory` it is as before. Amortized constant
    /// time.
    pub fn note_created(&mut self, owner: ActorId, target: ActorId) -> Result<(), NoMemory>
        requires { pair_count owner target self.old.log.noted.created + 1 < 2 ^ 32 }
        ensures ok { OnOk result (self.new ≡ noting (created owner target ∷ []) self.old) }
        ensures err { OnErr result (self.new ≡ self.old) }
    {
        self.log.note_created(owner, target)
    }

    /// It has a child, which it now holds; where the child is supervised, it notes that the child holds it. After `NoMemory`
    /// it is as before. Logarithmic time in the number of targets.
    pub fn beget(
        &mut self,
        child: ActorId,
        parent: ActorId,
        supervised: bool,
    ) -> Result<(), NoMemory>
        requires { HasRoom self.old 1 }
        ensures ok { OnOk result (Begets self.old self.new child parent supervised) }
        ensures err { OnErr result (IsAlike self.old self.new) }
    {
        self.gain(child)?;
        if !supervised {
            return Ok(());
        }
        if let Err(NoMemory) = self.note_created(child, parent) {
            self.lose(child);
            return Err(NoMemory);
        }
        Ok(())
    }

    /// It sends a message with these references, and keeps its own. After `NoMemory` it is as before. Amortized constant time
    /// for each reference.
    pub fn send(&mut self, to: ActorId, refs: &[ActorId]) -> Result<(), NoMemory>
        requires { HasRoom self.old (1 + length refs.now) }
        ensures ok { OnOk result (Sends to refs.now self.old self.new) }
        ensures err { OnErr result (self.new ≡ self.old) }
    {
        self.log.note_sent(to, refs)
    }

    /// The last message that it noted as sent, with so many references, is taken back: where this undoes a `send`, it is as
    /// before that. Constant time.
    pub fn take_back_send(&mut self, refs: usize)
        ensures { self.new ≡ unsent refs self.old }
    {
        self.log.take_back_sent(refs);
    }

    /// It gives up one reference to the target, of which it holds some. After `NoMemory` it is as before. Logarithmic time in
    /// the number of targets.
    pub fn drop_reference(&mut self, target: ActorId) -> Result<(), NoMemory>
        requires held { 0 < count_of self.old.held target }
        requires fits { HasRoom self.old 1 }
        ensures ok { OnOk result (Drops target self.old self.new) }
        ensures err { OnErr result (self.new ≡ self.old) }
    {
        self.log.note_released(target)?;
        self.lose(target);
        Ok(())
    }

    /// The entry that `flush` would give. Time in proportion to n log n for n facts.
    pub fn copy_entry(&self) -> Result<Entry, NoMemory>
        requires { IsTrue (has_news self.now) }
        ensures { IfOk result (λ e. IsEntryOf self.now.log (flags_of self.now) e) }
    {
        self.log.copy_entry(self.busy, self.root)
    }

    /// The entry of a flush: its log is then blank. Time in proportion to n log n for n facts, without memory.
    pub fn flush(&mut self) -> Entry
        requires { IsTrue (has_news self.old) }
        ensures entry { IsEntryOf self.old.log (flags_of self.old) result }
        ensures after { Flushes self.old self.new }
    {
        self.log.take_entry(self.busy, self.root)
    }
}

/// What a child holds when it is born.
fn child_holding(
    alloc: Global,
    child: ActorId,
    parent: ActorId,
    supervised: bool,
) -> Result<RefCounts, NoMemory>
    ensures { IfOk result (λ held. (t : Actor) → count_of held t ≡ count_by (same_actor t) (child_refs child parent supervised)) }
{
    if supervised {
        return holding(alloc, [child, parent].as_slice());
    }
    holding(alloc, [child].as_slice())
}

/// These references are held, of which there are two at most.
fn holding(alloc: Global, refs: &[ActorId]) -> Result<RefCounts, NoMemory>
    requires { length refs.now ≤ 2 }
    ensures { IfOk result (λ held. (t : Actor) → count_of held t ≡ count_by (same_actor t) refs.now) }
{
    let mut held = RefCounts::new(alloc);
    held.add_all(refs)?;
    Ok(held)
}
