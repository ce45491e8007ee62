//! The nodes: which are up, and how many live messages go to each.
ghost use Rattle.std.specs.Prelude.{◌≡◌, ◌+◌, ◌-◌, ◌<◌, ◌≤◌, ◌^◌, ℕ, true, if◌then◌else◌, sum_by};
ghost use Rattle.crgc_ids.specs.Nodes.{nodes_below};
ghost use Rattle.traffic.specs.Loads.{ChangesLive, GoesDown, live_in, up_in};

use crgc_ids::NodeId;
use std::marker::Model;

/// For each of the 16 nodes whether it is up, and how many live messages go to its actors. Contracts see the two lists, and
/// read them by `up_in` and `live_in`.
#[derive(Drop)]
pub struct NodeLoads {
    live: [u32; 16],
    up: [bool; 16],
}

impl Model for NodeLoads {
    ghost use Rattle.std.specs.Prelude.{◌≡◌, length};
    ghost use Rattle.traffic.specs.Loads.{Loads};

    ghost Value = { Loads };

    ghost view = { λ l. record { up = l.up; live = l.live } };

    ghost invariant = { λ l. (length l.up ≡ 16) × (length l.live ≡ 16) };
}

impl NodeLoads {
    /// All are up, and nothing goes to any.
    pub fn new() -> NodeLoads
        ensures up { (n : ℕ) → up_in result n ≡ true }
        ensures live { (n : ℕ) → live_in result n ≡ 0 }
    {
        NodeLoads {
            live: [0; 16],
            up: [true; 16],
        }
    }

    /// One message more goes to the node, if so.
    pub fn add_if(&mut self, node: NodeId, more: bool)
        requires { live_in self.old node + 1 < 2 ^ 32 }
        ensures { ChangesLive self.old self.new node (live_in self.old node + (if more then 1 else 0)) }
    {
        self.live[node.get() as usize] += u32::from(more);
    }

    /// So many messages less go to the node, and 0 where there were fewer.
    pub fn take_off(&mut self, node: NodeId, count: u32)
        ensures { ChangesLive self.old self.new node (live_in self.old node - count) }
    {
        let place = node.get() as usize;
        self.live[place] = self.live[place].saturating_sub(count);
    }

    /// The node is down from now on, and nothing goes there.
    pub fn crash(&mut self, node: NodeId)
        ensures { GoesDown self.old self.new node }
    {
        let place = node.get() as usize;
        self.live[place] = 0;
        self.up[place] = false;
    }

    /// Whether the node is up.
    pub fn is_up(&self, node: NodeId) -> bool
        ensures { result ≡ up_in self.now node }
    {
        self.up[node.get() as usize]
    }

    /// How many messages go to the nodes below this number.
    pub fn total(&self, nodes: u8) -> u64
        requires { nodes ≤ 16 }
        ensures { result ≡ sum_by (λ n. live_in self.now n) (nodes_below nodes) }
    {
        let mut total = 0;
        for node in 0..nodes {
            total += u64::from(self.live(node));
        }
        total
    }

    /// How many messages go to the node with this number.
    fn live(&self, number: u8) -> u32
        requires { number < 16 }
        ensures { result ≡ live_in self.now number }
    {
        self.live[number as usize]
    }
}
