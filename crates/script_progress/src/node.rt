//! The turns and wakes of one node.
ghost use Rattle.std.specs.Prelude.{ℕ, ◌≡◌, ◌+◌, ◌-◌, ◌<◌, ◌≤◌, ◌^◌, ◌++◌, ◌∷◌, [], get_or, length, slice_set, IfNone, IfSome, OnErr, OnOk};
ghost use Rattle.script_progress.specs.Used.{unused};
ghost use Rattle.crgc_ids.specs.declared.limits.TheConstants.{MOST_ACTORS};

use crgc_ids::NoMemory;
use std::alloc::Global;
use std::marker::Model;

/// How many turns ended on a node, and how many wakes each of its seeds has left, by their serials. It keeps its allocator.
/// Contracts see both.
#[derive(Drop)]
pub struct NodeProgress {
    ended: u32,
    wakes: Vec<u32>,
}

impl Model for NodeProgress {
    ghost use Rattle.std.specs.Prelude.{◌≤◌, length};
    ghost use Rattle.crgc_ids.specs.declared.limits.TheConstants.{MOST_ACTORS};
    ghost use Rattle.script_progress.specs.Used.{NodeUsed};

    ghost Value = { NodeUsed };

    ghost view = { λ n. record { ended = n.ended; wakes = n.wakes.items } };

    ghost invariant = { λ n. length n.wakes.items ≤ MOST_ACTORS };
}

impl NodeProgress {
    /// No turn ended, and there is no seed.
    pub fn new(alloc: Global) -> NodeProgress
        ensures { result ≡ unused }
    {
        NodeProgress {
            ended: 0,
            wakes: Vec::new(alloc),
        }
    }

    /// The next seed has so many wakes. After `NoMemory` all is as before.
    pub fn push(&mut self, wakes: u32) -> Result<(), NoMemory>
        requires { length self.old.wakes < MOST_ACTORS }
        ensures ok { OnOk result (self.new ≡ record self.old { wakes = self.old.wakes ++ wakes ∷ [] }) }
        ensures err { OnErr result (self.new ≡ self.old) }
    {
        match self.wakes.push(wakes) {
            Ok(()) => Ok(()),
            Err(_) => Err(NoMemory),
        }
    }

    /// How many turns ended.
    pub fn ended(&self) -> u32
        ensures { result ≡ self.now.ended }
    {
        self.ended
    }

    /// How many wakes are left; none where there is no such seed.
    pub fn wakes(&self, serial: usize) -> u32
        ensures { result ≡ get_or self.now.wakes serial 0 }
    {
        match self.wakes.get(serial) {
            Some(left) => *left,
            None => 0,
        }
    }

    /// The first seed from this one on that has a wake left; None where there is none. Linear time in those that have none.
    pub fn next_with_wakes(&self, from: usize) -> Option<usize>
        ensures from { IfSome result (λ i. from ≤ i) }
        ensures left { IfSome result (λ i. 0 < get_or self.now.wakes i 0) }
        ensures passed { IfSome result (λ i. (k : ℕ) → from ≤ k → k < i → get_or self.now.wakes k 0 ≡ 0) }
        ensures in_range { IfSome result (λ i. i < MOST_ACTORS) }
        ensures none { IfNone result ((k : ℕ) → from ≤ k → get_or self.now.wakes k 0 ≡ 0) }
    {
        for i in from..self.wakes.len() {
            if 0 < self.wakes[i] {
                return Some(i);
            }
        }
        None
    }

    /// One turn more ended.
    pub fn end(&mut self)
        requires { self.old.ended + 1 < 2 ^ 32 }
        ensures { self.new ≡ record self.old { ended = self.old.ended + 1 } }
    {
        self.ended += 1;
    }

    /// One wake less is left.
    pub fn wake(&mut self, serial: usize)
        requires { 0 < get_or self.old.wakes serial 0 }
        ensures { self.new ≡ record self.old { wakes = slice_set self.old.wakes serial (get_or self.old.wakes serial 0 - 1) } }
    {
        self.wakes[serial] -= 1;
    }
}
