//! The table of actors.
ghost use Rattle.std.specs.Prelude.{ℕ, ◌≡◌, ◌≢◌, ◌+◌, ◌<◌, ◌≤◌, ◌&&◌, ◌==◌, ◌∷◌, nat_lt, [], false, true, length, IfNone, IfOk};
ghost use Rattle.std.specs.Prelude.{IfSome, IsTrue, OnErr, OnOk, count_by, sum_by};
ghost use Rattle.std.specs.List.{AllByRecursion};
ghost use Rattle.history_model.specs.Facts.{created};
ghost use Rattle.refob_counts.specs.Counts.{count_of};
ghost use Rattle.entry_records.specs.Log.{IsEntryOf};
ghost use Rattle.actor_states.specs.State.{Drops, Flushes, Gains, HasRoom, Sends, Takes, flags_of, has_news, is_this, noting, unsent};
ghost use Rattle.node_actors.specs.Node.{blank_node};
ghost use Rattle.roster.specs.Table.{Changes, Crashes, IsAsBefore, IsHere, IsNextFlush, NobodyIsFlushed, Seeds, SpawnsFrom};
ghost use Rattle.roster.specs.Table.{Stops, Ties, births_in, busy_total, next_on, node_in, state_at, stopped_in, up_in};
ghost use Rattle.crgc_ids.specs.declared.limits.TheConstants.{MOST_ACTORS};

use crgc_ids::{ActorId, NoMemory, NodeId};
use history_model::{Entry, Stop};
use node_actors::NodeActors;
use std::alloc::Global;
use std::marker::Model;

/// The actors of a cluster's nodes. It keeps its allocator. Contracts see the version of the rules, and for each node whether
/// it is up and the states of its actors.
#[derive(Drop)]
pub struct Roster {
    version: u8,
    nodes: Vec<NodeActors>,
}

impl Model for Roster {
    ghost use Rattle.roster.specs.Keeping.{AreNumbered};
    ghost use Rattle.roster.specs.Table.{Table};

    ghost Value = { Table };

    ghost view = { λ r. record { version = r.version; nodes = r.nodes.items } };

    ghost invariant = { λ r. AreNumbered r.nodes.items };
}

impl Roster {
    /// Nodes that are up, on which no actor was born: 16 of them at most.
    pub fn new(alloc: Global, nodes: u8, version: u8) -> Result<Roster, NoMemory>
        requires { nodes ≤ 16 }
        ensures { IfOk result (λ r. (r.version ≡ version) × (length r.nodes ≡ nodes) × ((n : ℕ) → node_in r n ≡ blank_node n)) }
    {
        let mut rows = Vec::new(alloc);
        for number in 0u8..nodes {
            if rows.push(new_node(alloc, number)).is_err() {
                return Err(NoMemory);
            }
        }
        Ok(Roster {
            version,
            nodes: rows,
        })
    }

    /// Whether the node is up; a node that is not of the cluster has never crashed.
    pub fn is_up(&self, node: NodeId) -> bool
        ensures { result ≡ up_in self.now node }
    {
        match self.nodes.get(node.get() as usize) {
            Some(row) => row.is_up(),
            None => true,
        }
    }

    /// How many actors were born on the node.
    pub fn born(&self, node: NodeId) -> u32
        ensures { result ≡ births_in self.now node }
    {
        match self.nodes.get(node.get() as usize) {
            Some(row) => row.born(),
            None => 0,
        }
    }

    /// How many actors of the node were stopped.
    pub fn stopped(&self, node: NodeId) -> u32
        ensures { result ≡ stopped_in self.now node }
    {
        match self.nodes.get(node.get() as usize) {
            Some(row) => row.stopped_count(),
            None => 0,
        }
    }

    /// Whether the actor was born.
    pub fn is_actor(&self, actor: ActorId) -> bool
        ensures { result ≡ nat_lt actor.serial (births_in self.now actor.node) }
    {
        actor.serial() < self.born(actor.node())
    }

    /// Whether it is busy; one that was not born is not.
    pub fn is_busy(&self, actor: ActorId) -> bool
        ensures { result ≡ (state_at self.now actor).busy }
    {
        match self.nodes.get(actor.node().get() as usize) {
            Some(row) => row.is_busy(actor),
            None => false,
        }
    }

    /// Whether it is a root; one that was not born is not.
    pub fn is_root(&self, actor: ActorId) -> bool
        ensures { result ≡ (state_at self.now actor).root }
    {
        match self.nodes.get(actor.node().get() as usize) {
            Some(row) => row.is_root(actor),
            None => false,
        }
    }

    /// Whether it was stopped; one that was not born was not.
    pub fn is_stopped(&self, actor: ActorId) -> bool
        ensures { result ≡ (state_at self.now actor).stopped }
    {
        match self.nodes.get(actor.node().get() as usize) {
            Some(row) => row.is_stopped(actor),
            None => false,
        }
    }

    /// Whether the first is the parent of the second.
    pub fn is_parent(&self, parent: ActorId, actor: ActorId) -> bool
        ensures { result ≡ is_this (state_at self.now actor).parent parent }
    {
        match self.nodes.get(actor.node().get() as usize) {
            Some(row) => row.is_child_of(actor, parent),
            None => false,
        }
    }

    /// How many references to the target the actor holds; one that was not born holds none. Logarithmic time in the number of
    /// its targets.
    pub fn held(&self, actor: ActorId, target: ActorId) -> u32
        ensures { result ≡ count_of (state_at self.now actor).held target }
    {
        match self.nodes.get(actor.node().get() as usize) {
            Some(row) => row.held(actor, target),
            None => 0,
        }
    }

    /// Whether the actor's log or its flags have something to tell. It is so of an actor that was not born.
    pub fn can_flush(&self, actor: ActorId) -> bool
        ensures { result ≡ has_news (state_at self.now actor) }
    {
        match self.nodes.get(actor.node().get() as usize) {
            Some(row) => row.has_news(actor),
            None => true,
        }
    }

    /// How many actors are busy on nodes that are up. Constant time: the nodes are 16 at most.
    pub fn busy_count(&self) -> u32
        ensures { result ≡ busy_total self.now }
    {
        let mut total = 0;
        for row in &self.nodes {
            total += row.busy_count();
        }
        total
    }

    /// The lowest actor of the node above the one that is given that may be flushed: the node is up, and the actor's log or its
    /// flags have something to tell. None exactly where there is none. Logarithmic time in the number of the node's actors.
    pub fn next_flush(&self, node: NodeId, after: Option<ActorId>) -> Option<ActorId>
        ensures some { IfSome result (IsNextFlush self.now node after) }
        ensures none { IfNone result (NobodyIsFlushed self.now node after) }
    {
        let row = self.nodes.get(node.get() as usize)?;
        if !row.is_up() {
            return None;
        }
        row.next_due(after)
    }

    /// The next actor of a node is born, by seed. After `NoMemory` all is as before. Amortized logarithmic time in the number of
    /// the node's actors.
    pub fn seed(&mut self, node: NodeId) -> Result<ActorId, NoMemory>
        requires node { node < length self.old.nodes }
        requires room { births_in self.old node < MOST_ACTORS }
        ensures actor { IfOk result (λ a. a ≡ next_on self.old node) }
        ensures ok { OnOk result (Seeds self.old self.new node) }
        ensures err { OnErr result (IsAsBefore self.old self.new) }
    {
        self.nodes[node.get() as usize].seed()
    }

    /// The next actor of a node is born, as a child of an actor there, which then holds it; in version 2 it holds its parent,
    /// and the parent notes that. After `NoMemory` all is as before. Amortized logarithmic time in the number of the node's
    /// actors and of the parent's targets.
    pub fn spawn(&mut self, parent: ActorId) -> Result<ActorId, NoMemory>
        requires here { IsHere self.old parent }
        requires room { births_in self.old parent.node < MOST_ACTORS }
        requires fits { HasRoom (state_at self.old parent) 1 }
        ensures actor { IfOk result (λ a. a ≡ next_on self.old parent.node) }
        ensures ok { OnOk result (SpawnsFrom self.old self.new parent) }
        ensures err { OnErr result (IsAsBefore self.old self.new) }
    {
        let supervised = self.version == 2;
        self.nodes[parent.node().get() as usize].spawn(parent, supervised)
    }

    /// The owner gets one more reference to the target, which notes that. After `NoMemory` all is as before. Logarithmic time in
    /// the number of the owner's targets and of the target's node's actors.
    pub fn tie(&mut self, owner: ActorId, target: ActorId) -> Result<(), NoMemory>
        requires apart { owner ≢ target }
        requires owner { IsHere self.old owner }
        requires target { IsHere self.old target }
        requires owner_fits { HasRoom (state_at self.old owner) 1 }
        requires target_fits { HasRoom (state_at self.old target) 1 }
        ensures ok { OnOk result (Ties self.old self.new owner target) }
        ensures err { OnErr result (IsAsBefore self.old self.new) }
    {
        self.gain(owner, target)?;
        if let Err(NoMemory) = self.note_created(owner, target) {
            self.lose(owner, target);
            return Err(NoMemory);
        }
        Ok(())
    }

    /// An idle actor becomes busy of itself. After `NoMemory` all is as before. Logarithmic time in the number of the node's
    /// actors.
    pub fn wake(&mut self, actor: ActorId) -> Result<(), NoMemory>
        requires here { IsHere self.old actor }
        requires idle { (state_at self.old actor).busy ≡ false }
        ensures ok { OnOk result (Changes self.old self.new actor (λ s t. t ≡ record s { busy = true })) }
        ensures err { OnErr result (IsAsBefore self.old self.new) }
    {
        self.nodes[actor.node().get() as usize].wake(actor)
    }

    /// An idle actor becomes busy with a message, whose references it now holds. After `NoMemory` all is as before. Logarithmic
    /// time in the number of the node's actors, and in that of its targets for each reference.
    pub fn take(&mut self, actor: ActorId, refs: &[ActorId]) -> Result<(), NoMemory>
        requires here { IsHere self.old actor }
        requires idle { (state_at self.old actor).busy ≡ false }
        requires fits { HasRoom (state_at self.old actor) (1 + length refs.now) }
        ensures ok { OnOk result (Changes self.old self.new actor (Takes refs.now)) }
        ensures err { OnErr result (IsAsBefore self.old self.new) }
    {
        self.nodes[actor.node().get() as usize].take(actor, refs)
    }

    /// A busy actor becomes idle. After `NoMemory` all is as before. Logarithmic time in the number of the node's actors.
    #[inline(always)]
    pub fn rest(&mut self, actor: ActorId) -> Result<(), NoMemory>
        requires here { IsHere self.old actor }
        requires busy { (state_at self.old actor).busy ≡ true }
        ensures ok { OnOk result (Changes self.old self.new actor (λ s t. t ≡ record s { busy = false })) }
        ensures err { OnErr result (IsAsBefore self.old self.new) }
    {
        self.nodes[actor.node().get() as usize].rest(actor)
    }

    /// The actor is no root from now on. After `NoMemory` all is as before. Logarithmic time in the number of the node's actors.
    pub fn retire(&mut self, actor: ActorId) -> Result<(), NoMemory>
        requires { IsHere self.old actor }
        ensures ok { OnOk result (Changes self.old self.new actor (λ s t. t ≡ record s { root = false })) }
        ensures err { OnErr result (IsAsBefore self.old self.new) }
    {
        self.nodes[actor.node().get() as usize].retire(actor)
    }

    /// The actor sends a message with these references, and keeps its own. After `NoMemory` all is as before. Logarithmic time
    /// in the number of the node's actors, and amortized constant time for each reference.
    pub fn send(&mut self, actor: ActorId, to: ActorId, refs: &[ActorId]) -> Result<(), NoMemory>
        requires here { IsHere self.old actor }
        requires fits { HasRoom (state_at self.old actor) (1 + length refs.now) }
        ensures ok { OnOk result (Changes self.old self.new actor (Sends to refs.now)) }
        ensures err { OnErr result (IsAsBefore self.old self.new) }
    {
        self.nodes[actor.node().get() as usize].send(actor, to, refs)
    }

    /// The last message that the actor noted as sent, with so many references, is taken back: where this undoes a `send`, all
    /// is as before that. Logarithmic time in the number of the node's actors.
    pub fn take_back_send(&mut self, actor: ActorId, refs: usize)
        requires here { IsHere self.old actor }
        requires sent { 0 < length (state_at self.old actor).log.noted.sent }
        ensures { Changes self.old self.new actor (λ s t. t ≡ unsent refs s) }
    {
        self.nodes[actor.node().get() as usize].take_back_send(actor, refs);
    }

    /// The actor gives up one reference to the target, of which it holds some. After `NoMemory` all is as before. Logarithmic
    /// time in the number of the node's actors and of its targets.
    pub fn drop_reference(&mut self, actor: ActorId, target: ActorId) -> Result<(), NoMemory>
        requires here { IsHere self.old actor }
        requires held { 0 < count_of (state_at self.old actor).held target }
        requires fits { HasRoom (state_at self.old actor) 1 }
        ensures ok { OnOk result (Changes self.old self.new actor (Drops target)) }
        ensures err { OnErr result (IsAsBefore self.old self.new) }
    {
        self.nodes[actor.node().get() as usize].drop_reference(actor, target)
    }

    /// The entry that the actor's flush, which is due, would give. Time in proportion to n log n for n facts.
    pub fn copy_entry(&self, actor: ActorId) -> Result<Entry, NoMemory>
        requires here { IsHere self.now actor }
        requires due { IsTrue (has_news (state_at self.now actor)) }
        ensures { IfOk result (λ e. IsEntryOf (state_at self.now actor).log (flags_of (state_at self.now actor)) e) }
    {
        self.nodes[actor.node().get() as usize].copy_entry(actor)
    }

    /// The entry of an actor's flush, which is due: its log is then blank. Logarithmic time in the number of the node's actors,
    /// and in proportion to n log n for n facts, without memory.
    pub fn flush(&mut self, actor: ActorId) -> Entry
        requires here { IsHere self.old actor }
        requires due { IsTrue (has_news (state_at self.old actor)) }
        ensures entry { IsEntryOf (state_at self.old actor).log (flags_of (state_at self.old actor)) result }
        ensures after { Changes self.old self.new actor Flushes }
    {
        self.nodes[actor.node().get() as usize].flush(actor)
    }

    /// The actors of these stops are stopped. Time in proportion to their number.
    pub fn stop(&mut self, stops: &[Stop])
        requires { AllByRecursion (λ s. IsHere self.old s.actor) stops.now }
        ensures { Stops self.old self.new stops.now }
    {
        for stop in stops {
            self.stop_one(stop.actor);
        }
    }

    /// One actor is stopped.
    fn stop_one(&mut self, actor: ActorId)
        requires { IsHere self.old actor }
        ensures { Changes self.old self.new actor (λ s t. t ≡ record s { stopped = true }) }
    {
        self.nodes[actor.node().get() as usize].stop(actor);
    }

    /// The node stops for good. Constant time.
    pub fn crash(&mut self, node: NodeId)
        requires { node < length self.old.nodes }
        ensures { Crashes self.old self.new node }
    {
        self.nodes[node.get() as usize].crash();
    }

    /// The owner gets one reference more.
    fn gain(&mut self, actor: ActorId, target: ActorId) -> Result<(), NoMemory>
        requires here { IsHere self.old actor }
        requires fits { HasRoom (state_at self.old actor) 1 }
        ensures ok { OnOk result (Changes self.old self.new actor (λ s t. Gains s t (target ∷ []))) }
        ensures err { OnErr result (IsAsBefore self.old self.new) }
    {
        self.nodes[actor.node().get() as usize].gain(actor, target)
    }

    /// The owner has one reference less, of which it holds some.
    fn lose(&mut self, actor: ActorId, target: ActorId)
        requires here { IsHere self.old actor }
        requires held { 0 < count_of (state_at self.old actor).held target }
        ensures { Changes self.old self.new actor (λ s t. Gains t s (target ∷ [])) }
    {
        self.nodes[actor.node().get() as usize].lose(actor, target);
    }

    /// The target notes that a reference to it was made for the owner.
    fn note_created(&mut self, owner: ActorId, target: ActorId) -> Result<(), NoMemory>
        requires here { IsHere self.old target }
        requires fits { HasRoom (state_at self.old target) 1 }
        ensures ok { OnOk result (Changes self.old self.new target (λ s t. t ≡ noting (created owner target ∷ []) s)) }
        ensures err { OnErr result (IsAsBefore self.old self.new) }
    {
        self.nodes[target.node().get() as usize].note_created(owner, target)
    }
}

/// The node with this number.
fn new_node(alloc: Global, number: u8) -> NodeActors
    requires { number < 16 }
    ensures { result ≡ blank_node number }
{
    NodeActors::new(alloc, NodeId::new(number).unwrap())
}
