//! The bulletins that wait for those before them.
ghost use Rattle.std.specs.Prelude.{◌≡◌, ◌+◌, ◌<◌, ◌≤◌, ℕ, [], None, IfNone, IfOk, IfSome, IsSome, OnErr, OnOk, length, replicate, slice_set};
ghost use Rattle.gossip_core.specs.Gossip.{IsAnswer, IsFirstReady, IsFirstMissing, KeepsFirst, Passes, TakesOut, count_at, kept_at, was_offered};
ghost use Rattle.crgc_ids.specs.declared.limits.TheConstants.{MOST_EVENTS};

use crgc_ids::{Cut, MOST_EVENTS, NoMemory, NodeId};
use history_model::Bulletin;
use std::alloc::Global;
use std::collections::BTreeMap;
use std::marker::Model;

/// Where a bulletin's number stands: below the cut of its origin; at it; above it.
#[derive(Clone, Copy, PartialEq, Eq, Debug)]
pub enum Offer {
    Old,
    Ready,
    Waiting,
}

/// The order of the bulletins of a cluster of 1 to 16 nodes: for each origin how many are given up, its cut, and those that
/// are kept from there on. It keeps its allocator. Contracts see the number of nodes, the cut and the list of what is kept,
/// and read it by `count_at` and `kept_at`.
#[derive(Drop)]
pub struct GossipCore {
    nodes: u8,
    cut: Cut,
    kept: BTreeMap<(NodeId, u32), Bulletin>,
}

impl Model for GossipCore {
    ghost use Rattle.gossip_core.specs.Gossip.{Gossip, IsInOrder};

    ghost Value = { Gossip };

    ghost view = { λ g. record { nodes = g.nodes; cut = g.cut; kept = g.kept.entries } };

    ghost invariant = { λ g. IsInOrder (record { nodes = g.nodes; cut = g.cut; kept = g.kept.entries }) };
}

impl GossipCore {
    /// Nothing is kept, and every cut is 0.
    pub fn new(alloc: Global, nodes: u8) -> Result<GossipCore, NoMemory>
        requires some { 1 ≤ nodes }
        requires in_range { nodes ≤ 16 }
        ensures nodes { IfOk result (λ g. g.nodes ≡ nodes) }
        ensures cut { IfOk result (λ g. g.cut ≡ replicate 16 0) }
        ensures kept { IfOk result (λ g. g.kept ≡ []) }
    {
        Ok(GossipCore {
            nodes,
            cut: Cut::zero(),
            kept: BTreeMap::new(alloc),
        })
    }

    /// The bulletin that the origin published under this number is kept, unless one was kept or given up under it before.
    /// `NoMemory` comes only where none was, and all is then as before. Logarithmic time in the number of kept bulletins.
    pub fn offer(&mut self, origin: NodeId, number: u32, b: Bulletin) -> Result<Offer, NoMemory>
        requires origin { origin < self.old.nodes }
        requires number { number < MOST_EVENTS }
        ensures answer { IfOk result (λ answer. IsAnswer number (count_at self.old origin) answer) }
        ensures kept { OnOk result (KeepsFirst self.old self.new origin number b) }
        ensures err { OnErr result (self.new ≡ self.old) }
        ensures fresh { OnErr result ((count_at self.old origin ≤ number) × (kept_at self.old origin number ≡ None)) }
    {
        let folded = self.cut.at(origin);
        if number < folded {
            return Ok(Offer::Old);
        }
        if self.keep_first(origin, number, b).is_err() {
            return Err(NoMemory);
        }
        if number == folded {
            Ok(Offer::Ready)
        } else {
            Ok(Offer::Waiting)
        }
    }

    /// The bulletin is kept, unless one is kept under its number.
    fn keep_first(&mut self, origin: NodeId, number: u32, b: Bulletin) -> Result<(), NoMemory>
        requires origin { origin < self.old.nodes }
        requires number { number < MOST_EVENTS }
        requires later { count_at self.old origin ≤ number }
        ensures kept { OnOk result (KeepsFirst self.old self.new origin number b) }
        ensures err { OnErr result (self.new ≡ self.old) }
        ensures fresh { OnErr result (kept_at self.old origin number ≡ None) }
    {
        if self.kept.contains_key(&(origin, number)) {
            return Ok(());
        }
        if self.kept.insert((origin, number), b).is_err() {
            return Err(NoMemory);
        }
        Ok(())
    }

    /// The kept bulletin at the cut of its origin, with that origin, which is the lowest that has one; None exactly where none
    /// has. Logarithmic time in the number of kept bulletins, for each node; constant time where nothing is kept.
    pub fn first_ready(&self) -> Option<(NodeId, &Bulletin)>
        ensures some { IfSome result (λ r. IsFirstReady self.now r.0 r.1.now) }
        ensures none { IfNone result ((origin : ℕ) → kept_at self.now origin (count_at self.now origin) ≡ None) }
    {
        if self.kept.is_empty() {
            return None;
        }
        for number in 0..self.nodes {
            let origin = node(number);
            if let Some(b) = self.kept.get(&(origin, self.cut.at(origin))) {
                return Some((origin, b));
            }
        }
        None
    }

    /// The bulletin at the cut of the origin, which is kept, is given up, and that cut rises by one. Logarithmic time in the
    /// number of kept bulletins, without memory.
    pub fn advance(&mut self, origin: NodeId)
        requires { IsSome (kept_at self.old origin (count_at self.old origin)) }
        ensures { TakesOut self.old self.new origin }
    {
        self.kept.remove(&(origin, self.cut.at(origin)));
        self.pass(origin);
    }

    /// The bulletin at the cut of the origin, under which nothing is kept, is given up without being kept: that cut rises by one,
    /// and all else stays. Constant time, without memory.
    pub fn pass(&mut self, origin: NodeId)
        requires origin { origin < self.old.nodes }
        requires fewer { count_at self.old origin < MOST_EVENTS }
        requires missing { kept_at self.old origin (count_at self.old origin) ≡ None }
        ensures { Passes self.old self.new origin }
    {
        self.cut.raise(origin);
    }

    /// How many bulletins of each origin are given up.
    pub fn cut(&self) -> Cut
        ensures { result ≡ self.now.cut }
    {
        self.cut
    }

    /// Whether a bulletin of the origin was offered under this number: it is kept, or was given up. Logarithmic time in the
    /// number of kept bulletins.
    pub fn was_offered(&self, origin: NodeId, number: u32) -> bool
        ensures { result ≡ was_offered self.now origin number }
    {
        number < self.cut.at(origin) || self.kept.contains_key(&(origin, number))
    }

    /// The first number of the origin from its cut on under which nothing is kept. Logarithmic time in the number of kept
    /// bulletins, for each number between the two.
    pub fn wants(&self, origin: NodeId) -> u32
        ensures { IsFirstMissing self.now origin result }
    {
        for number in self.cut.at(origin)..MOST_EVENTS {
            if !self.kept.contains_key(&(origin, number)) {
                return number;
            }
        }
        MOST_EVENTS
    }
}

/// The node with this number.
fn node(number: u8) -> NodeId
    requires { number < 16 }
    ensures { result ≡ number }
{
    NodeId::new(number).unwrap()
}
