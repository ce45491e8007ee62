//! A shadow graph as a graph of places.
ghost use Rattle.std.specs.Prelude.{◌≡◌, ◌+◌, ◌<◌, ◌≤◌, ◌==◌, ◌&&◌, ◌||◌, int_lt, length, not, pos};
ghost use Rattle.crgc_ids.specs.Nodes.{has_node};
ghost use Rattle.shadow_graph.specs.Graph.{lost_in};
ghost use Rattle.shadow_graph.specs.Places.{actor_of};
ghost use Rattle.pseudoroot_trace.specs.Trace.{AreLost, may_act, place_graph};

use crgc_ids::{ActorId, NodeSet};
use place_marks::PlaceGraph;
use shadow_graph::ShadowGraph;
use shadow_table::Shadow;
use std::marker::Model;

/// A shadow graph over which marks go: starts are pseudoroots, and marks go along positive edges. Actors that were dropped, and
/// those of lost nodes, are no starts, and no mark goes to them. Contracts see the shadow graph.
#[derive(Drop)]
pub struct Trace<'a> {
    graph: &'a ShadowGraph,
    lost: Option<NodeSet>,
}

impl<'a> Model for Trace<'a> {
    ghost use Rattle.shadow_graph.specs.Graph.{Graph};

    ghost Value = { Graph };

    ghost use Rattle.pseudoroot_trace.specs.Trace.{AreLost};

    ghost view = { λ t. t.graph.now };

    ghost invariant = { λ t. AreLost t.graph.now t.lost };
}

impl<'a> Trace<'a> {
    /// Over this graph.
    pub fn new(graph: &'a ShadowGraph) -> Trace<'a>
        ensures { result ≡ graph.now }
    {
        Trace {
            graph,
            lost: lost_nodes(graph),
        }
    }

    /// Whether marks go along an edge of this value to the target's place: it is positive, and the target's node is not lost.
    fn leads(&self, target: u32, value: i64) -> bool
        requires { target < length self.now.shadows.names }
        ensures { result ≡ (int_lt (pos 0) value && not (has_node (lost_in self.now) (actor_of self.now target).node)) }
    {
        value > 0 && !self.is_lost(target)
    }

    /// Whether the node of the actor at the place is lost.
    fn is_lost(&self, place: u32) -> bool
        requires { place < length self.now.shadows.names }
        ensures { result ≡ has_node (lost_in self.now) (actor_of self.now place).node }
    {
        match self.lost {
            Some(lost) => lost.contains(actor_at(self.graph, place).node()),
            None => false,
        }
    }
}

impl<'a> PlaceGraph for Trace<'a> {
    ghost graph = { place_graph };

    fn place_count(&self) -> u32 {
        self.graph.place_count()
    }

    fn is_start(&self, place: u32) -> bool {
        let shadow = self.graph.shadow(place);
        let is_out = shadow.dropped || self.is_lost(place);
        !is_out && is_pseudoroot(shadow)
    }

    fn step(&self, number: u32) -> Option<(u32, u32)> {
        let (owner, target, value) = self.graph.edge_numbered(number)?;
        if self.leads(target, value) {
            Some((owner, target))
        } else {
            None
        }
    }

    fn edges_from(&self, place: u32) -> &[(u32, u32)] {
        let _places = self.graph.place_count();
        self.graph.positive_from(place)
    }

    fn edges_to(&self, place: u32) -> &[(u32, u32)] {
        let _places = self.graph.place_count();
        self.graph.positive_to(place)
    }
}

/// Whether the actor with this shadow, which was not dropped, is a pseudoroot: it has no own entry, or that says busy or root, or
/// its balance is not 0.
fn is_pseudoroot(shadow: Shadow) -> bool
    requires told { shadow.told ≤ 4611686018427387904 }
    requires admitted { shadow.admitted ≤ 4611686018427387904 }
    ensures { result ≡ (may_act shadow.flags || not (shadow.received == shadow.told + shadow.admitted)) }
{
    let may_act = match shadow.flags {
        Some((busy, root)) => busy || root,
        None => true,
    };
    may_act || shadow.received != shadow.told + shadow.admitted
}

/// The lost nodes; None where none is lost.
fn lost_nodes(graph: &ShadowGraph) -> Option<NodeSet>
    ensures { AreLost graph.now result }
{
    let lost = graph.lost();
    if lost == NodeSet::empty() {
        None
    } else {
        Some(lost)
    }
}

/// The actor at the place.
pub fn actor_at(graph: &ShadowGraph, place: u32) -> ActorId
    requires { place < length graph.now.shadows.names }
    ensures { result ≡ actor_of graph.now place }
{
    graph.actor_at(place).unwrap()
}
