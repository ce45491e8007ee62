//! The progress of a script.
ghost use Rattle.std.specs.Prelude.{ℕ, ◌≡◌, ◌+◌, ◌<◌, ◌≤◌, ◌^◌, ◌∷◌, if◌then◌else◌, false, true, not, nat_lt, length, IfNone, IfSome, List, Some, None};
ghost use Rattle.std.specs.List.{filter, list_any};
ghost use Rattle.crgc_ids.specs.Actor.{Actor};
ghost use Rattle.history_model.specs.declared.events.Event.{Event};
ghost use Rattle.history_model.specs.declared.events.Event.TheVariants.{Rest, Take, Wake};
ghost use Rattle.history_model.specs.declared.events.Event.TheVariants.{Lose as Loses, Repeat as Repeats};
ghost use Rattle.fault_plan.specs.Rows.{link_row, same_row};
ghost use Rattle.script_reader.specs.Valid.{Scripted};
ghost use Rattle.run_model.specs.Planned.{carry, crash_due, ended, has_row, is_within_budget, wakes_left};
ghost use Rattle.script_progress.specs.Used.{AreAllPassed, ArePassed, Ends, HasRoom, IsFrom, Wakes, carried, carry_in, IsFirstPlanned, IsNextPlanned, crashes_next, ended_in, is_crash_due, wakes_in, with_turn};
ghost use Rattle.script_progress.specs.Standing.{IsProgressAt, can_wake};
ghost use Rattle.crgc_ids.specs.declared.limits.TheConstants.{MOST_ACTORS};

use crate::carry::Carry;
use crate::node::NodeProgress;
use crgc_ids::{ActorId, NodeId};
use fault_plan::Plan;
use std::marker::Model;

/// How many turns began and ended, in all and on each node, how many wakes each seed has left, the first seed that may have
/// some, and the rows of the plan that are left.
#[derive(Drop)]
pub struct Progress {
    pub(crate) turns: u32,
    pub(crate) begun: u32,
    pub(crate) ended: u32,
    pub(crate) nodes: Vec<NodeProgress>,
    pub(crate) next_node: usize,
    pub(crate) next_serial: usize,
    pub(crate) plan: Plan,
}

impl Model for Progress {
    ghost use Rattle.std.specs.Prelude.{◌≤◌, length};
    ghost use Rattle.script_progress.specs.Used.{Used};

    ghost Value = { Used };

    ghost view = { λ p. record {
      turns = p.turns;
      begun = p.begun;
      ended = p.ended;
      nodes = p.nodes.items;
      next = record { node = p.next_node; serial = p.next_serial };
      plan = p.plan;
    } };

    ghost invariant = { λ p. length p.nodes.items ≤ 16 };
}

impl Progress {
    /// Whether a turn may still begin.
    pub fn is_within_budget(&self) -> bool
        ensures value { result ≡ nat_lt self.now.begun self.now.turns }
        ensures stands { (s : Scripted) (h : List Event) → IsProgressAt s h self.now → result ≡ is_within_budget s h }
    {
        self.begun < self.turns
    }

    /// How many turns ended.
    pub fn ended(&self) -> u32
        ensures value { result ≡ self.now.ended }
        ensures stands { (s : Scripted) (h : List Event) → IsProgressAt s h self.now → result ≡ ended h }
    {
        self.ended
    }

    /// How many wakes the actor has left. Constant time.
    pub fn wakes_left(&self, actor: ActorId) -> u32
        ensures value { result ≡ wakes_in self.now actor }
        ensures stands { (s : Scripted) (h : List Event) → IsProgressAt s h self.now → result ≡ wakes_left s actor h }
    {
        match self.nodes.get(actor.node().get() as usize) {
            Some(node) => node.wakes(actor.serial() as usize),
            None => 0,
        }
    }

    /// Whether the node crashes with the turn that has just ended there. Linear time in at most 16 rows.
    pub fn crash_due(&self, node: NodeId) -> bool
        ensures value { result ≡ is_crash_due self.now node }
        ensures stands { (s : Scripted) (p : List Event) (a : Actor) → a.node ≡ node → IsProgressAt s (Rest a ∷ p) self.now
            → crash_due s (Rest a ∷ p) ≡ (if result then Some a.node else None) }
    {
        match self.plan.crash_after(node) {
            Some(after) => after == self.ended_on(node),
            None => false,
        }
    }

    /// Whether the node crashes with the next turn that ends there. Linear time in at most 16 rows.
    pub fn crashes_next(&self, node: NodeId) -> bool
        ensures value { result ≡ crashes_next self.now node }
        ensures stands { (s : Scripted) (h : List Event) (a : Actor) → a.node ≡ node → IsProgressAt s h self.now
            → crash_due s (Rest a ∷ h) ≡ (if result then Some a.node else None) }
    {
        match self.plan.crash_after(node) {
            Some(after) => after as u64 == self.ended_on(node) as u64 + 1,
            None => false,
        }
    }

    /// What happens to the copy on the link. Logarithmic time.
    pub fn carry_of(&self, from: NodeId, at: NodeId, number: u32) -> Carry
        ensures value { result ≡ carry_in self.now.plan from at number }
        ensures stands { (s : Scripted) (h : List Event) → IsProgressAt s h self.now
            → carry s from at number h ≡ carried result from at number }
    {
        if self.plan.repeats(from, at, number) {
            Carry::Repeat
        } else if self.plan.loses(from, at, number) {
            Carry::Lose
        } else {
            Carry::Admit
        }
    }

    /// An actor is woken, which has a wake left; a turn may still begin. Constant time.
    pub fn wakes(&mut self, actor: ActorId)
        requires budget { self.old.begun < self.old.turns }
        requires left { 0 < wakes_in self.old actor }
        ensures after { Wakes self.old self.new actor }
        ensures stands { (s : Scripted) (h : List Event) → IsProgressAt s h self.old → IsProgressAt s (Wake actor ∷ h) self.new }
    {
        self.use_wake(actor);
    }

    /// An actor takes a message; a turn may still begin.
    pub fn takes(&mut self)
        requires { self.old.begun < self.old.turns }
        ensures after { self.new ≡ with_turn self.old }
        ensures stands { (s : Scripted) (h : List Event) (a : Actor) → IsProgressAt s h self.old → IsProgressAt s (Take a ∷ h) self.new }
    {
        let _turns = self.turns;
        self.begun += 1;
    }

    /// A turn ends on the node. Constant time.
    pub fn ends(&mut self, node: NodeId)
        requires node { node < length self.old.nodes }
        requires room { HasRoom self.old node }
        ensures after { Ends self.old self.new node }
        ensures stands { (s : Scripted) (h : List Event) (a : Actor) → a.node ≡ node → IsProgressAt s h self.old
            → IsProgressAt s (Rest a ∷ h) self.new }
    {
        self.ended += 1;
        self.nodes[node.get() as usize].end();
    }

    /// The copy is lost, of which a loss is left. Logarithmic time.
    pub fn loses(&mut self, from: NodeId, at: NodeId, number: u32)
        requires { has_row from at number self.old.plan.losses ≡ true }
        ensures after { self.new ≡ record self.old {
          plan = record self.old.plan { losses = filter (λ r. not (same_row (link_row from at number) r)) self.old.plan.losses };
        } }
        ensures stands { (s : Scripted) (h : List Event) → IsProgressAt s h self.old → IsProgressAt s (Loses from at number ∷ h) self.new }
    {
        self.plan.use_loss(from, at, number);
    }

    /// The copy is doubled, of which a repeat is left. Logarithmic time.
    pub fn repeats(&mut self, from: NodeId, at: NodeId, number: u32)
        requires { has_row from at number self.old.plan.repeats ≡ true }
        ensures after { self.new ≡ record self.old {
          plan = record self.old.plan { repeats = filter (λ r. not (same_row (link_row from at number) r)) self.old.plan.repeats };
        } }
        ensures stands { (s : Scripted) (h : List Event) → IsProgressAt s h self.old → IsProgressAt s (Repeats from at number ∷ h) self.new }
    {
        self.plan.use_repeat(from, at, number);
    }

    /// The first seed that was not passed and has a wake left; those before it that have none are passed. None where no seed
    /// is left. Constant time, amortized over all calls.
    pub fn candidate(&mut self) -> Option<ActorId>
        ensures first { IfSome result (λ c. c ≡ self.new.next) }
        ensures left { IfSome result (λ c. 0 < wakes_in self.new c) }
        ensures none { IfNone result (length self.new.nodes ≤ self.new.next.node) }
        ensures others { self.new ≡ record self.old { next = self.new.next } }
        ensures forward { IfSome result (IsFrom self.old.next) }
        ensures passed { ArePassed self.old self.new.next }
        ensures stands { (s : Scripted) (h : List Event) → IsProgressAt s h self.old → IsProgressAt s h self.new }
    {
        match self.next_with_wakes() {
            Some(actor) => {
                self.next_node = actor.node().get() as usize;
                self.next_serial = actor.serial() as usize;
                Some(actor)
            }
            None => {
                self.next_node = self.nodes.len();
                self.next_serial = 0;
                None
            }
        }
    }

    // The first seed that was not passed and has a wake left.
    fn next_with_wakes(&self) -> Option<ActorId>
        ensures left { IfSome result (λ c. 0 < wakes_in self.now c) }
        ensures forward { IfSome result (IsFrom self.now.next) }
        ensures passed { IfSome result (ArePassed self.now) }
        ensures none { IfNone result (AreAllPassed self.now) }
    {
        for n in self.next_node..self.nodes.len() {
            let from = if n == self.next_node {
                self.next_serial
            } else {
                0
            };
            if let Some(serial) = self.nodes[n].next_with_wakes(from) {
                return Some(seed_at(n, serial));
            }
        }
        None
    }

    /// The lowest actor, of those above the one that is given, that has a wake left; None exactly where there is none. Linear time
    /// in the seeds that it passes.
    pub fn next_planned(&self, after: Option<ActorId>) -> Option<ActorId>
        ensures { IsNextPlanned self.now after result }
    {
        let (node, serial) = match after {
            Some(actor) => (actor.node().get() as usize, actor.serial() as usize + 1),
            None => (0, 0),
        };
        self.first_planned(node, serial)
    }

    // The lowest actor that has a wake left, from this one on.
    fn first_planned(&self, node: usize, serial: usize) -> Option<ActorId>
        ensures { IsFirstPlanned self.now (record { node = node; serial = serial }) result }
    {
        for n in node..self.nodes.len() {
            let from = if n == node { serial } else { 0 };
            if let Some(serial) = self.nodes[n].next_with_wakes(from) {
                return Some(seed_at(n, serial));
            }
        }
        None
    }

    /// The candidate is passed for good. It keeps the progress where the candidate is no root any more, or its node is down.
    pub fn pass(&mut self, candidate: ActorId)
        requires { candidate ≡ self.old.next }
        ensures after { self.new ≡ record self.old { next = record { node = candidate.node; serial = candidate.serial + 1 } } }
        ensures stands { (s : Scripted) (h : List Event) → IsProgressAt s h self.old → can_wake s candidate h ≡ false
            → IsProgressAt s h self.new }
    {
        self.next_serial = candidate.serial() as usize + 1;
    }

    // A turn begins with one of the actor's wakes.
    fn use_wake(&mut self, actor: ActorId)
        requires budget { self.old.begun < self.old.turns }
        requires left { 0 < wakes_in self.old actor }
        ensures { Wakes self.old self.new actor }
    {
        let _turns = self.turns;
        self.begun += 1;
        self.nodes[actor.node().get() as usize].wake(actor.serial() as usize);
    }

    // How many turns ended on the node.
    fn ended_on(&self, node: NodeId) -> u32
        ensures { result ≡ ended_in self.now node }
    {
        match self.nodes.get(node.get() as usize) {
            Some(node) => node.ended(),
            None => 0,
        }
    }
}

/// The actor with this serial on the node.
fn seed_at(node: usize, serial: usize) -> ActorId
    requires node { node < 16 }
    requires serial { serial < MOST_ACTORS }
    ensures { result ≡ record { node = node; serial = serial } }
{
    ActorId::new(NodeId::new(node as u8).unwrap(), serial as u32).unwrap()
}
