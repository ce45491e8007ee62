//! The actors of one node.
ghost use Rattle.std.specs.Prelude.{ℕ, ◌≡◌, ◌≢◌, ◌+◌, ◌-◌, ◌<◌, ◌≤◌, ◌&&◌, ◌||◌, ◌∷◌, ◌==◌, not, if◌then◌else◌, [], false, true};
ghost use Rattle.std.specs.Prelude.{length, IfNone, IfOk, IfSome, IsTrue, OnErr, OnOk, count_by};
ghost use Rattle.history_model.specs.Facts.{created};
ghost use Rattle.crgc_ids.specs.Actor.{Actor, same_actor};
ghost use Rattle.refob_counts.specs.Counts.{count_of};
ghost use Rattle.entry_records.specs.Log.{IsEntryOf};
ghost use Rattle.entry_records.specs.Unflushed.{pair_count};
ghost use Rattle.ready_actors.specs.Ready.{IsAbove, has_actor};
ghost use Rattle.actor_states.specs.State.{Begets, Drops, Flushes, Gains, HasRoom, IsAlike, IsChild, IsSeed, Sends, Takes};
ghost use Rattle.actor_states.specs.State.{flags_of, has_news, is_this, noting, unsent};
ghost use Rattle.node_actors.specs.Keeping.{IsSettled};
ghost use Rattle.node_actors.specs.Node.{AreAlike, Bears, ChangesIn, IsNextDue, IsThere, KeepsNode, NobodyIsDue, Spawns};
ghost use Rattle.node_actors.specs.Node.{blank_node, busy_in, next_actor, state_in};
ghost use Rattle.crgc_ids.specs.declared.limits.TheConstants.{MOST_ACTORS};

use actor_states::ActorState;
use crgc_ids::{ActorId, NoMemory, NodeId};
use history_model::Entry;
use ready_actors::ReadyActors;
use std::alloc::Global;
use std::marker::Model;

/// The actors that were born on one node, by their serials; how many of them are busy while the node is up, how many were
/// stopped, and whose flush is due. It keeps its allocator. Contracts see the node's number, whether it is up, and the states
/// of its actors.
#[derive(Drop)]
pub struct NodeActors {
    alloc: Global,
    node: NodeId,
    up: bool,
    busy: u32,
    stopped: u32,
    actors: Vec<ActorState>,
    due: ReadyActors,
}

impl Model for NodeActors {
    ghost use Rattle.node_actors.specs.Keeping.{IsKept};
    ghost use Rattle.node_actors.specs.Node.{NodeState};

    ghost Value = { NodeState };

    ghost view = { λ n. record { number = n.node; up = n.up; actors = n.actors.items } };

    ghost invariant = { λ n. IsKept n.node n.up n.busy n.stopped n.actors.items n.due };
}

impl NodeActors {
    /// A node that is up, on which no actor was born.
    pub fn new(alloc: Global, node: NodeId) -> NodeActors
        ensures { result ≡ blank_node node }
    {
        NodeActors {
            alloc,
            node,
            up: true,
            busy: 0,
            stopped: 0,
            actors: Vec::new(alloc),
            due: ReadyActors::new(alloc),
        }
    }

    /// Whether it is up.
    pub fn is_up(&self) -> bool
        ensures { result ≡ self.now.up }
    {
        self.up
    }

    /// How many actors were born here.
    pub fn born(&self) -> u32
        ensures { result ≡ length self.now.actors }
    {
        self.actors.len() as u32
    }

    /// How many are busy, while the node is up.
    pub fn busy_count(&self) -> u32
        ensures number { result ≡ busy_in self.now }
        ensures in_range { result ≤ MOST_ACTORS }
    {
        self.busy
    }

    /// How many were stopped.
    pub fn stopped_count(&self) -> u32
        ensures { result ≡ count_by (λ s. s.stopped) self.now.actors }
    {
        self.stopped
    }

    /// Whether the actor is busy.
    pub fn is_busy(&self, actor: ActorId) -> bool
        ensures { result ≡ (state_in self.now actor.serial).busy }
    {
        match self.actors.get(actor.serial() as usize) {
            Some(state) => state.is_busy(),
            None => false,
        }
    }

    /// Whether it is a root.
    pub fn is_root(&self, actor: ActorId) -> bool
        ensures { result ≡ (state_in self.now actor.serial).root }
    {
        match self.actors.get(actor.serial() as usize) {
            Some(state) => state.is_root(),
            None => false,
        }
    }

    /// Whether it was stopped.
    pub fn is_stopped(&self, actor: ActorId) -> bool
        ensures { result ≡ (state_in self.now actor.serial).stopped }
    {
        match self.actors.get(actor.serial() as usize) {
            Some(state) => state.is_stopped(),
            None => false,
        }
    }

    /// Whether it is a child of the other.
    pub fn is_child_of(&self, actor: ActorId, parent: ActorId) -> bool
        ensures { result ≡ is_this (state_in self.now actor.serial).parent parent }
    {
        match self.actors.get(actor.serial() as usize) {
            Some(state) => state.is_child_of(parent),
            None => false,
        }
    }

    /// How many references to the target the actor holds. Logarithmic time in the number of its targets.
    pub fn held(&self, actor: ActorId, target: ActorId) -> u32
        ensures { result ≡ count_of (state_in self.now actor.serial).held target }
    {
        match self.actors.get(actor.serial() as usize) {
            Some(state) => state.held(target),
            None => 0,
        }
    }

    /// Whether something is to tell at a flush of the actor. It is so of an actor that was not born.
    pub fn has_news(&self, actor: ActorId) -> bool
        ensures { result ≡ has_news (state_in self.now actor.serial) }
    {
        match self.actors.get(actor.serial() as usize) {
            Some(state) => state.has_news(),
            None => true,
        }
    }

    /// The lowest actor above the one that is given whose flush is due; None exactly where there is none. Logarithmic time in
    /// the number of actors.
    pub fn next_due(&self, after: Option<ActorId>) -> Option<ActorId>
        ensures some { IfSome result (IsNextDue self.now after) }
        ensures none { IfNone result (NobodyIsDue self.now after) }
    {
        self.due.next(after)
    }

    /// The next actor is born, by seed. After `NoMemory` all is as before. Amortized logarithmic time in the number of actors.
    pub fn seed(&mut self) -> Result<ActorId, NoMemory>
        requires { length self.old.actors < MOST_ACTORS }
        ensures actor { IfOk result (λ a. a ≡ next_actor self.old) }
        ensures ok { OnOk result (Bears self.old self.new (λ s. IsSeed s (next_actor self.old))) }
        ensures err { OnErr result (self.new ≡ self.old) }
    {
        let actor = self.next_actor();
        let state = ActorState::seed(self.alloc, actor)?;
        self.enter(actor, state)?;
        Ok(actor)
    }

    /// The next actor is born, as a child of an actor, which then holds it; where it is supervised, it holds its parent. After
    /// `NoMemory` all is as before. Amortized logarithmic time in the number of actors and of the parent's targets.
    pub fn spawn(&mut self, parent: ActorId, supervised: bool) -> Result<ActorId, NoMemory>
        requires there { IsThere self.old parent }
        requires room { length self.old.actors < MOST_ACTORS }
        requires fits { HasRoom (state_in self.old parent.serial) 1 }
        ensures actor { IfOk result (λ a. a ≡ next_actor self.old) }
        ensures ok { OnOk result (Spawns self.old self.new parent supervised) }
        ensures err { OnErr result (AreAlike self.old self.new) }
    {
        let child = self.next_actor();
        let state = ActorState::child(self.alloc, child, parent, supervised)?;
        self.enter(child, state)?;
        if let Err(NoMemory) = self.beget(parent, child, supervised) {
            self.forget(child);
            return Err(NoMemory);
        }
        Ok(child)
    }

    /// The actor that the next birth gives.
    fn next_actor(&self) -> ActorId
        requires { length self.now.actors < MOST_ACTORS }
        ensures { result ≡ next_actor self.now }
    {
        ActorId::new(self.node, self.actors.len() as u32).unwrap()
    }

    /// The next actor has this state, which is that of an idle one that was not stopped. After `NoMemory` all is as before.
    fn enter(&mut self, actor: ActorId, state: ActorState) -> Result<(), NoMemory>
        requires next { actor ≡ next_actor self.old }
        requires room { length self.old.actors < MOST_ACTORS }
        requires idle { (state.busy ≡ false) × (state.stopped ≡ false) }
        requires news { has_news state ≡ true }
        ensures ok { OnOk result (Bears self.old self.new (λ s. s ≡ state)) }
        ensures err { OnErr result (self.new ≡ self.old) }
    {
        if self.actors.reserve(1).is_err() {
            return Err(NoMemory);
        }
        self.due.put(actor)?;
        self.actors.push_reserved(state);
        Ok(())
    }

    /// The last actor, which is idle and was not stopped, is taken back.
    fn forget(&mut self, actor: ActorId)
        requires last { (actor.node ≡ self.old.number) × (length self.old.actors ≡ actor.serial + 1) }
        requires idle { ((state_in self.old actor.serial).busy ≡ false) × ((state_in self.old actor.serial).stopped ≡ false) }
        ensures node { (self.new.number ≡ self.old.number) × (self.new.up ≡ self.old.up) }
        ensures count { length self.new.actors ≡ actor.serial }
        ensures others { (s : ℕ) → s ≢ actor.serial → state_in self.new s ≡ state_in self.old s }
    {
        self.due.take_out(actor);
        self.actors.pop();
    }

    /// An actor has a child, which it now holds; where the child is supervised, it notes that the child holds it. After
    /// `NoMemory` all is as before.
    fn beget(&mut self, parent: ActorId, child: ActorId, supervised: bool) -> Result<(), NoMemory>
        requires there { IsThere self.old parent }
        requires fits { HasRoom (state_in self.old parent.serial) 1 }
        ensures ok { OnOk result (ChangesIn self.old self.new parent.serial (λ s t. Begets s t child parent supervised)) }
        ensures err { OnErr result (AreAlike self.old self.new) }
    {
        let place = parent.serial() as usize;
        let was_due = self.actors[place].has_news();
        make_due(&mut self.due, parent, was_due)?;
        let begotten = self.actors[place].beget(child, parent, supervised);
        settle(&mut self.due, parent, self.actors[place].has_news());
        begotten
    }

    /// An idle actor becomes busy of itself. After `NoMemory` all is as before. Logarithmic time in the number of actors.
    pub fn wake(&mut self, actor: ActorId) -> Result<(), NoMemory>
        requires there { IsThere self.old actor }
        requires idle { (state_in self.old actor.serial).busy ≡ false }
        ensures ok { OnOk result (ChangesIn self.old self.new actor.serial (λ s t. t ≡ record s { busy = true })) }
        ensures err { OnErr result (self.new ≡ self.old) }
    {
        let place = actor.serial() as usize;
        let was_due = self.actors[place].has_news();
        make_due(&mut self.due, actor, was_due)?;
        self.actors[place].wake();
        settle(&mut self.due, actor, self.actors[place].has_news());
        self.busy += 1;
        Ok(())
    }

    /// An idle actor becomes busy with a message, whose references it now holds. After `NoMemory` all is as before.
    /// Logarithmic time in the number of actors, and in that of its targets for each reference.
    pub fn take(&mut self, actor: ActorId, refs: &[ActorId]) -> Result<(), NoMemory>
        requires there { IsThere self.old actor }
        requires idle { (state_in self.old actor.serial).busy ≡ false }
        requires fits { HasRoom (state_in self.old actor.serial) (1 + length refs.now) }
        ensures ok { OnOk result (ChangesIn self.old self.new actor.serial (Takes refs.now)) }
        ensures err { OnErr result (AreAlike self.old self.new) }
    {
        let place = actor.serial() as usize;
        let was_due = self.actors[place].has_news();
        make_due(&mut self.due, actor, was_due)?;
        let taken = self.actors[place].take(refs);
        settle(&mut self.due, actor, self.actors[place].has_news());
        taken?;
        self.busy += 1;
        Ok(())
    }

    /// A busy actor becomes idle. After `NoMemory` all is as before. Logarithmic time in the number of actors.
    pub fn rest(&mut self, actor: ActorId) -> Result<(), NoMemory>
        requires there { IsThere self.old actor }
        requires busy { (state_in self.old actor.serial).busy ≡ true }
        ensures ok { OnOk result (ChangesIn self.old self.new actor.serial (λ s t. t ≡ record s { busy = false })) }
        ensures err { OnErr result (self.new ≡ self.old) }
    {
        let place = actor.serial() as usize;
        let was_due = self.actors[place].has_news();
        make_due(&mut self.due, actor, was_due)?;
        self.actors[place].rest();
        settle(&mut self.due, actor, self.actors[place].has_news());
        self.busy -= 1;
        Ok(())
    }

    /// The actor is no root from now on. After `NoMemory` all is as before. Logarithmic time in the number of actors.
    pub fn retire(&mut self, actor: ActorId) -> Result<(), NoMemory>
        requires { IsThere self.old actor }
        ensures ok { OnOk result (ChangesIn self.old self.new actor.serial (λ s t. t ≡ record s { root = false })) }
        ensures err { OnErr result (self.new ≡ self.old) }
    {
        let place = actor.serial() as usize;
        let was_due = self.actors[place].has_news();
        make_due(&mut self.due, actor, was_due)?;
        self.actors[place].retire();
        settle(&mut self.due, actor, self.actors[place].has_news());
        Ok(())
    }

    /// The actor gets one reference to the target. After `NoMemory` all is as before. Logarithmic time in the number of its
    /// targets.
    pub fn gain(&mut self, actor: ActorId, target: ActorId) -> Result<(), NoMemory>
        requires there { IsThere self.old actor }
        requires fits { HasRoom (state_in self.old actor.serial) 1 }
        ensures ok { OnOk result (ChangesIn self.old self.new actor.serial (λ s t. Gains s t (target ∷ []))) }
        ensures err { OnErr result (self.new ≡ self.old) }
    {
        self.actors[actor.serial() as usize].gain(target)
    }

    /// The actor has one reference less to the target, of which it holds some; its log is as before. Logarithmic time in the
    /// number of its targets.
    pub fn lose(&mut self, actor: ActorId, target: ActorId)
        requires there { IsThere self.old actor }
        requires held { 0 < count_of (state_in self.old actor.serial).held target }
        ensures { ChangesIn self.old self.new actor.serial (λ s t. Gains t s (target ∷ [])) }
    {
        self.actors[actor.serial() as usize].lose(target);
    }

    /// The actor notes that a reference to it was made for the owner. After `NoMemory` all is as before. Logarithmic time in the
    /// number of actors.
    pub fn note_created(&mut self, owner: ActorId, actor: ActorId) -> Result<(), NoMemory>
        requires there { IsThere self.old actor }
        requires fits { HasRoom (state_in self.old actor.serial) 1 }
        ensures ok { OnOk result (ChangesIn self.old self.new actor.serial (λ s t. t ≡ noting (created owner actor ∷ []) s)) }
        ensures err { OnErr result (self.new ≡ self.old) }
    {
        let place = actor.serial() as usize;
        let was_due = self.actors[place].has_news();
        make_due(&mut self.due, actor, was_due)?;
        let noted = self.actors[place].note_created(owner, actor);
        settle(&mut self.due, actor, self.actors[place].has_news());
        noted
    }

    /// The actor sends a message with these references, and keeps its own. After `NoMemory` all is as before. Logarithmic time
    /// in the number of actors, and amortized constant time for each reference.
    pub fn send(&mut self, actor: ActorId, to: ActorId, refs: &[ActorId]) -> Result<(), NoMemory>
        requires there { IsThere self.old actor }
        requires fits { HasRoom (state_in self.old actor.serial) (1 + length refs.now) }
        ensures ok { OnOk result (ChangesIn self.old self.new actor.serial (Sends to refs.now)) }
        ensures err { OnErr result (self.new ≡ self.old) }
    {
        let place = actor.serial() as usize;
        let was_due = self.actors[place].has_news();
        make_due(&mut self.due, actor, was_due)?;
        let sent = self.actors[place].send(to, refs);
        settle(&mut self.due, actor, self.actors[place].has_news());
        sent
    }

    /// The last message that the actor noted as sent, with so many references, is taken back: where this undoes a `send`, all
    /// is as before that. Logarithmic time in the number of actors.
    pub fn take_back_send(&mut self, actor: ActorId, refs: usize)
        requires there { IsThere self.old actor }
        requires sent { 0 < length (state_in self.old actor.serial).log.noted.sent }
        ensures { ChangesIn self.old self.new actor.serial (λ s t. t ≡ unsent refs s) }
    {
        let place = actor.serial() as usize;
        self.actors[place].take_back_send(refs);
        let is_due = self.actors[place].has_news();
        settle(&mut self.due, actor, is_due);
    }

    /// The actor gives up one reference to the target, of which it holds some. After `NoMemory` all is as before. Logarithmic
    /// time in the number of actors and of its targets.
    pub fn drop_reference(&mut self, actor: ActorId, target: ActorId) -> Result<(), NoMemory>
        requires there { IsThere self.old actor }
        requires held { 0 < count_of (state_in self.old actor.serial).held target }
        requires fits { HasRoom (state_in self.old actor.serial) 1 }
        ensures ok { OnOk result (ChangesIn self.old self.new actor.serial (Drops target)) }
        ensures err { OnErr result (self.new ≡ self.old) }
    {
        let place = actor.serial() as usize;
        let was_due = self.actors[place].has_news();
        make_due(&mut self.due, actor, was_due)?;
        let dropped = self.actors[place].drop_reference(target);
        settle(&mut self.due, actor, self.actors[place].has_news());
        dropped
    }

    /// The entry that the actor's flush, which is due, would give. Time in proportion to n log n for n facts.
    pub fn copy_entry(&self, actor: ActorId) -> Result<Entry, NoMemory>
        requires there { IsThere self.now actor }
        requires due { IsTrue (has_news (state_in self.now actor.serial)) }
        ensures { IfOk result (λ e. IsEntryOf (state_in self.now actor.serial).log (flags_of (state_in self.now actor.serial)) e) }
    {
        self.actors[actor.serial() as usize].copy_entry()
    }

    /// The entry of an actor's flush, which is due: its log is then blank. Logarithmic time in the number of actors, and in
    /// proportion to n log n for n facts, without memory.
    pub fn flush(&mut self, actor: ActorId) -> Entry
        requires there { IsThere self.old actor }
        requires due { IsTrue (has_news (state_in self.old actor.serial)) }
        ensures entry { IsEntryOf (state_in self.old actor.serial).log (flags_of (state_in self.old actor.serial)) result }
        ensures after { ChangesIn self.old self.new actor.serial Flushes }
    {
        self.due.take_out(actor);
        self.actors[actor.serial() as usize].flush()
    }

    /// The actor is stopped.
    pub fn stop(&mut self, actor: ActorId)
        requires { IsThere self.old actor }
        ensures { ChangesIn self.old self.new actor.serial (λ s t. t ≡ record s { stopped = true }) }
    {
        let place = actor.serial() as usize;
        if self.actors[place].is_stopped() {
            return;
        }
        self.actors[place].stop();
        self.stopped += 1;
    }

    /// The node stops for good.
    pub fn crash(&mut self)
        ensures { self.new ≡ record self.old { up = false } }
    {
        self.up = false;
        self.busy = 0;
    }
}

/// The actor is one of the set from now on, as it is where its flush was due. After `NoMemory` all is as before.
fn make_due(due: &mut ReadyActors, actor: ActorId, was_due: bool) -> Result<(), NoMemory>
    requires { was_due ≡ true → has_actor due.old actor ≡ true }
    ensures ok { OnOk result ((a : Actor) → has_actor due.new a ≡ (same_actor actor a || has_actor due.old a)) }
    ensures err { OnErr result (due.new ≡ due.old) }
{
    if was_due {
        return Ok(());
    }
    due.put(actor)?;
    Ok(())
}

/// The actor, which is one of the set, stays so exactly where its flush is due.
fn settle(due: &mut ReadyActors, actor: ActorId, is_due: bool)
    requires { has_actor due.old actor ≡ true }
    ensures { IsSettled due.old due.new actor is_due }
{
    if !is_due {
        due.take_out(actor);
    }
}
