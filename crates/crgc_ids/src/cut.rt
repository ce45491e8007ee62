//! How far a node has folded what each node published.
ghost use Rattle.std.specs.Prelude.{◌≡◌, ◌+◌, ◌<◌, length, replicate, slice_index, slice_set};
ghost use Rattle.crgc_ids.specs.declared.limits.TheConstants.{MOST_EVENTS};

use crate::ids::NodeId;
use std::marker::Model;

/// For each of the 16 nodes, how many of its bulletins are counted. Contracts see the list of the 16 counts.
#[derive(Clone, Copy, PartialEq, Eq, Debug)]
pub struct Cut {
    counts: [u32; 16],
}

impl Model for Cut {
    ghost use Rattle.std.specs.Prelude.{◌≡◌, ℕ, List, length};

    ghost Value = { List ℕ };

    ghost view = { λ c. c.counts };

    ghost invariant = { λ c. length c.counts ≡ 16 };

    ghost inverse = { λ counts. record { counts = counts } };
}

impl Cut {
    /// The cut that counts nothing.
    pub fn zero() -> Cut
        ensures { result ≡ replicate 16 0 }
    {
        Cut { counts: [0; 16] }
    }

    /// The count of the node.
    pub fn at(&self, n: NodeId) -> u32
        ensures value { result ≡ slice_index self.now n }
        ensures len { length self.now ≡ 16 }
    {
        self.counts[n.get() as usize]
    }

    /// Adds one to the count of the node, and to no other.
    pub fn raise(&mut self, n: NodeId)
        requires { slice_index self.old n < MOST_EVENTS }
        ensures { self.new ≡ slice_set self.old n (slice_index self.old n + 1) }
    {
        self.counts[n.get() as usize] += 1;
    }
}
