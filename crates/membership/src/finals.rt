//! The Finals that are noted.
ghost use Rattle.std.specs.Prelude.{◌≡◌, ◌≢◌, ◌<◌, ◌≤◌, ◌↔◌, ◌⊎◌, ◌&&◌, ◌||◌, ℕ, [], IsTrue};
ghost use Rattle.std.specs.List.{filter};
ghost use Rattle.crgc_ids.specs.LostNodes.{has_link, is_cut_off, lost_nodes, removed_nodes};
ghost use Rattle.crgc_ids.specs.Members.{IsAmong, IsPart};
ghost use Rattle.crgc_ids.specs.Nodes.{has_node, nodes_below};
ghost use Rattle.membership.specs.Noted.{links_of};

use crgc_ids::{NodeId, NodeSet};
use std::marker::Model;

/// For each link of a cluster of 1 to 16 nodes, whether its Final is noted: the notice of the link's destination that
/// it removed the source. Contracts see how many nodes the cluster has and, by `links_of`, the links.
#[derive(Clone, Copy, Debug)]
pub struct Finals {
    nodes: u8,
    told: [NodeSet; 16],
}

impl Model for Finals {
    ghost use Rattle.std.specs.Prelude.{◌≡◌, ◌≤◌, length};
    ghost use Rattle.membership.specs.Noted.{Noted};

    ghost Value = { Noted };

    ghost view = { λ f. record { nodes = f.nodes; told = f.told } };

    ghost invariant = { λ f. (f.nodes ≤ 16) × (length f.told ≡ 16) };

    ghost inverse = { λ f. record { nodes = f.nodes; told = f.told } };
}

impl Finals {
    /// No Final is noted.
    pub fn new(nodes: u8) -> Finals
        requires some { 1 ≤ nodes }
        requires in_range { nodes ≤ 16 }
        ensures nodes { result.nodes ≡ nodes }
        ensures links { links_of result ≡ [] }
    {
        Finals {
            nodes,
            told: [NodeSet::empty(); 16],
        }
    }

    /// How many nodes the cluster has.
    pub fn nodes(&self) -> u8
        ensures { result ≡ self.now.nodes }
    {
        self.nodes
    }

    /// The Final of the link between the two nodes is noted, once or again. No removed and no lost node is given up.
    /// Constant time.
    pub fn note_final(&mut self, from: NodeId, at: NodeId)
        requires source { from < self.old.nodes }
        requires destination { at < self.old.nodes }
        requires differ { from ≢ at }
        ensures nodes { self.new.nodes ≡ self.old.nodes }
        ensures links { (l : ℕ × ℕ) → IsAmong l (links_of self.new) ↔ ((l ≡ (from, at)) ⊎ IsAmong l (links_of self.old)) }
        ensures removed_grow { IsPart (removed_nodes self.old.nodes (links_of self.old)) (removed_nodes self.new.nodes (links_of self.new)) }
        ensures lost_grow { IsPart (lost_nodes self.old.nodes (links_of self.old)) (lost_nodes self.new.nodes (links_of self.new)) }
    {
        let source = from.get() as usize;
        self.told[source] = self.told[source].with(at);
    }

    /// The nodes that some Final names as removed. Linear time in the number of nodes.
    pub fn removed(&self) -> NodeSet
        ensures { result ≡ removed_nodes self.now.nodes (links_of self.now) }
    {
        let mut removed = NodeSet::empty();
        for number in 0..self.nodes {
            if self.told[number as usize] != NodeSet::empty() {
                removed = removed.with(node(number));
            }
        }
        removed
    }

    /// The greatest set of removed nodes such that the Final of the link from each member to each node outside is
    /// noted. Members that offend are taken away until none does. Cubic time in the number of nodes, at most 16.
    pub fn lost(&self) -> NodeSet
        ensures { result ≡ lost_nodes self.now.nodes (links_of self.now) }
    {
        let mut lost = self.removed();
        loop {
            let kept = self.cut_off_within(lost);
            if kept == lost {
                return lost;
            }
            lost = kept;
        }
    }

    /// The members of the set from which the Final to each node outside it is noted.
    fn cut_off_within(&self, set: NodeSet) -> NodeSet
        ensures { result ≡ filter (λ s. has_node set s && is_cut_off self.now.nodes (links_of self.now) set s) (nodes_below self.now.nodes) }
    {
        let mut kept = NodeSet::empty();
        for number in 0..self.nodes {
            let member = node(number);
            if set.contains(member) && self.is_cut_off(set, member) {
                kept = kept.with(member);
            }
        }
        kept
    }

    /// Whether the Final of the link from the node to each node outside the set is noted.
    fn is_cut_off(&self, set: NodeSet, from: NodeId) -> bool
        ensures { result ≡ is_cut_off self.now.nodes (links_of self.now) set from }
    {
        for number in 0..self.nodes {
            if !self.is_within_or_told(set, from, node(number)) {
                return false;
            }
        }
        true
    }

    /// Whether the second node is a member of the set, or the Final of the link to it is noted.
    fn is_within_or_told(&self, set: NodeSet, from: NodeId, at: NodeId) -> bool
        ensures { result ≡ (has_node set at || has_link (links_of self.now) from at) }
    {
        set.contains(at) || self.told[from.get() as usize].contains(at)
    }
}

/// The node with this number.
fn node(number: u8) -> NodeId
    requires { number < 16 }
    ensures { result ≡ number }
{
    NodeId::new(number).unwrap()
}
