//! A set of actors, in order.
ghost use Rattle.std.specs.Prelude.{◌≡◌, ◌+◌, ◌<◌, ◌≤◌, ◌||◌, ◌&&◌, ℕ, not, if◌then◌else◌, length, true, false, [], None, Some, IfNone, IfOk, IfSome, OnErr, OnOk};
ghost use Rattle.crgc_ids.specs.Actor.{Actor, same_actor};
ghost use Rattle.ready_actors.specs.Members.{actors_from};
ghost use Rattle.ready_actors.specs.Ready.{IsAbove, IsFirstOnFrom, IsLeft, IsLowestOf, IsNoneOnFrom, IsOfNone, has_actor};

use crate::serials::SerialSet;
use crgc_ids::{ActorId, NoMemory, NodeId};
use std::alloc::Global;
use std::marker::Model;

/// The actors that may take a message. It keeps its allocator. Contracts see the list of them, and read it by `has_actor`.
/// Its room for a node grows with the highest serial that was put: a bit for each, and a bit more for each 64.
#[derive(Drop)]
pub struct ReadyActors {
    alloc: Global,
    nodes: Vec<SerialSet>,
}

impl Model for ReadyActors {
    ghost use Rattle.std.specs.Prelude.{List, ◌≤◌, length};
    ghost use Rattle.crgc_ids.specs.Actor.{Actor};
    ghost use Rattle.ready_actors.specs.Members.{actors_from};

    ghost Value = { List Actor };

    ghost view = { λ r. actors_from 0 r.nodes.items };

    ghost invariant = { λ r. length r.nodes.items ≤ 16 };
}

impl ReadyActors {
    /// No actor.
    pub fn new(alloc: Global) -> ReadyActors
        ensures { result ≡ [] }
    {
        ReadyActors {
            alloc,
            nodes: Vec::new(alloc),
        }
    }

    /// The actor is one of them from now on; the answer is whether it was none before. After `NoMemory`, which comes only
    /// then, all is as before. Constant time; where room for its serial is missing, linear time in the serial, amortized.
    pub fn put(&mut self, actor: ActorId) -> Result<bool, NoMemory>
        ensures ok { OnOk result ((a : Actor) → has_actor self.new a ≡ (same_actor actor a || has_actor self.old a)) }
        ensures added { IfOk result (λ added. added ≡ not (has_actor self.old actor)) }
        ensures err { OnErr result (self.new ≡ self.old) }
    {
        let node = actor.node().get() as usize;
        reach(&mut self.nodes, self.alloc, node)?;
        self.nodes[node].put(actor.serial())
    }

    /// The actor is none of them from now on. Constant time.
    pub fn take_out(&mut self, actor: ActorId)
        ensures actors { (a : Actor) → has_actor self.new a ≡ (not (same_actor actor a) && has_actor self.old a) }
        ensures count { length self.new + (if has_actor self.old actor then 1 else 0) ≡ length self.old }
    {
        if let Some(set) = self.nodes.get_mut(actor.node().get() as usize) {
            set.take_out(actor.serial());
        }
    }

    /// Whether the actor is one of them. Constant time.
    pub fn contains(&self, actor: ActorId) -> bool
        ensures { result ≡ has_actor self.now actor }
    {
        match self.nodes.get(actor.node().get() as usize) {
            Some(set) => set.contains(actor.serial()),
            None => false,
        }
    }

    /// The lowest of them, of those above the one that is given; None exactly where there is none. Constant time for each node
    /// from that of the actor to that of the answer.
    pub fn next(&self, after: Option<ActorId>) -> Option<ActorId>
        ensures some { IfSome result (IsLowestOf self.now (IsAbove after)) }
        ensures none { IfNone result (IsOfNone self.now (IsAbove after)) }
    {
        match after {
            Some(after) => self.above(after),
            None => self.first_from(0),
        }
    }

    /// The lowest of those above the actor.
    fn above(&self, after: ActorId) -> Option<ActorId>
        ensures some { IfSome result (IsLowestOf self.now (IsAbove (Some after))) }
        ensures none { IfNone result (IsOfNone self.now (IsAbove (Some after))) }
    {
        match self.first_on(after.node(), after.serial() + 1) {
            Some(actor) => Some(actor),
            None => self.first_from(after.node().get() + 1),
        }
    }

    /// The lowest of those on the nodes from this number on.
    fn first_from(&self, node: u8) -> Option<ActorId>
        ensures some { IfSome result (IsLowestOf self.now (λ a. node ≤ a.node)) }
        ensures none { IfNone result (IsOfNone self.now (λ a. node ≤ a.node)) }
    {
        for number in node..self.nodes.len() as u8 {
            if let Some(actor) = self.first_on(NodeId::new(number)?, 0) {
                return Some(actor);
            }
        }
        None
    }

    /// The lowest of those on the node, from this serial on.
    fn first_on(&self, node: NodeId, serial: u32) -> Option<ActorId>
        ensures some { IfSome result (IsFirstOnFrom self.now node serial) }
        ensures none { IfNone result (IsNoneOnFrom self.now node serial) }
    {
        let serial = self.nodes.get(node.get() as usize)?.first_from(serial)?;
        ActorId::new(node, serial)
    }

    /// None of them is on the node from now on. At most linear time in the highest serial that was put.
    pub fn leave(&mut self, node: NodeId)
        ensures { IsLeft self.old self.new node }
    {
        if let Some(set) = self.nodes.get_mut(node.get() as usize) {
            set.clear();
        }
    }
}

/// There is a set for the node, without serials where there was none. After `NoMemory` there may be some more such sets.
fn reach(nodes: &mut Vec<SerialSet>, alloc: Global, node: usize) -> Result<(), NoMemory>
    requires { node < 16 }
    ensures ok { OnOk result (node < length nodes.new.items) }
    ensures actors { actors_from 0 nodes.new.items ≡ actors_from 0 nodes.old.items }
    ensures room { length nodes.old.items ≤ 16 → length nodes.new.items ≤ 16 }
{
    while nodes.len() <= node {
        if nodes.push(SerialSet::new(alloc)).is_err() {
            return Err(NoMemory);
        }
    }
    Ok(())
}
