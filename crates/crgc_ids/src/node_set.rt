//! Sets of nodes.
ghost use Rattle.std.specs.Prelude.{◌≡◌, ◌<◌, ◌↔◌, [], IsTrue};
ghost use Rattle.std.specs.List.{AllByRecursion};
ghost use Rattle.crgc_ids.specs.Members.{IsAmong};
ghost use Rattle.crgc_ids.specs.Nodes.{with_node};
ghost use Rattle.crgc_ids.specs.Rising.{IsRising};

use crate::ids::NodeId;
use std::marker::Model;

/// A set of nodes. Contracts see the rising list of its members' numbers.
#[derive(Clone, Copy, Debug)]
pub struct NodeSet {
    flags: [bool; 16],
}

impl Model for NodeSet {
    ghost use Rattle.std.specs.Prelude.{◌≡◌, ℕ, List, length};
    ghost use Rattle.crgc_ids.specs.NodeFlags.{flagged_from, flags-flagged, flags_below};

    ghost Value = { List ℕ };

    ghost view = { λ s. flagged_from 0 s.flags };

    ghost invariant = { λ s. length s.flags ≡ 16 };

    ghost inverse = { λ xs. record { flags = flags_below 16 xs } };

    ghost inverse_ok = { λ s h. Prim.rw (flags-flagged 16 s.flags h) };
}

impl NodeSet {
    /// The set without members.
    pub fn empty() -> NodeSet
        ensures { result ≡ [] }
    {
        NodeSet { flags: [false; 16] }
    }

    /// The set with this node added.
    pub fn with(self, n: NodeId) -> NodeSet
        ensures { result ≡ with_node n self }
    {
        let mut flags = self.flags;
        flags[n.get() as usize] = true;
        NodeSet { flags }
    }

    /// Whether the node is a member. The members rise and are below 16.
    pub fn contains(self, n: NodeId) -> bool
        ensures member { IsTrue result ↔ IsAmong n self }
        ensures rising { IsRising ◌<◌ self }
        ensures in_range { AllByRecursion (λ k. k < 16) self }
    {
        self.flags[n.get() as usize]
    }
}

impl PartialEq for NodeSet {
    ghost use Rattle.std.specs.Prelude.{nat_eq};
    ghost use Rattle.std.specs.Cmp.{partial_equiv_from_equiv};
    ghost use Rattle.std.specs.Cmp.Lexicographic.{nat_list_eq_equiv, pointwise};

    ghost eq = { pointwise nat_eq };

    ghost laws = { partial_equiv_from_equiv nat_list_eq_equiv };

    fn eq(&self, other: &NodeSet) -> bool {
        self.flags == other.flags
    }
}

impl Eq for NodeSet {
    ghost use Rattle.std.specs.Cmp.Lexicographic.{nat_list_eq_equiv};

    ghost laws = { nat_list_eq_equiv };
}
