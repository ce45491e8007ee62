//! Graphs in which readers see the same.
ghost use Rattle.std.specs.Prelude.{◌≡◌, ◌<◌, ℕ, length};
ghost use Rattle.std.specs.Bool.{Decides};
ghost use Rattle.shadow_graph.specs.Places.{ArePlaced, actor_of};
ghost use Rattle.shadow_graph.specs.Same.{AgreeOn, AgreeAlong, AreSame, IsReadIn};
ghost use Rattle.shadow_rows.specs.Tabled.{pair_at};

use super::ShadowGraph;
use crgc_ids::{ActorId, NodeSet};
use shadow_table::Shadow;

impl ShadowGraph {
    /// Whether readers see the same in both graphs: true exactly where `is_known`, `flags`, `received`, `told`, `admitted` and
    /// `balance` agree for every actor, `edge` for every two, and `lost`; then `known_count` and `owners` agree too. Places are
    /// not compared, since they depend on the order of folding, nor are the logs and the cuts. Linear time in what was named in
    /// both, on average.
    pub fn same_as(&self, other: &ShadowGraph) -> bool
        ensures { Decides result (AreSame self.now other.now) }
    {
        same_nodes(self.lost(), other.lost()) && self.is_read_in(other) && other.is_read_in(self)
    }

    /// Whether what was named in this graph is seen alike in the other.
    fn is_read_in(&self, other: &ShadowGraph) -> bool
        ensures read { Decides result (IsReadIn self.now other.now) }
        ensures placed { ArePlaced self.now }
    {
        let _places = self.place_count();
        let _pairs = self.edges.edge_count();
        self.actors_agree(other) && self.edges_agree(other)
    }

    /// Whether readers see the same of each actor that was named in this graph.
    fn actors_agree(&self, other: &ShadowGraph) -> bool
        ensures { Decides result ((p : ℕ) → p < length self.now.shadows.names → AgreeOn self.now other.now (actor_of self.now p)) }
    {
        for place in 0..self.place_count() {
            if !self.agrees_on(other, self.actor(place)) {
                return false;
            }
        }
        true
    }

    /// Whether readers see the same of the actor.
    fn agrees_on(&self, other: &ShadowGraph, actor: ActorId) -> bool
        ensures { Decides result (AgreeOn self.now other.now actor) }
    {
        self.is_known(actor) == other.is_known(actor)
            && same_shadow(self.seen_shadow(actor), other.seen_shadow(actor))
    }

    /// Whether readers see the same along each edge of this graph.
    fn edges_agree(&self, other: &ShadowGraph) -> bool
        ensures { Decides result ((n : ℕ) → n < length self.now.edges.edges
            → AgreeAlong self.now other.now (pair_at self.now.edges.pairs n).0 (pair_at self.now.edges.pairs n).1) }
    {
        for number in 0..self.edges.edge_count() {
            if !self.agrees_along(other, number) {
                return false;
            }
        }
        true
    }

    /// Whether readers see the same along the edge with this number.
    fn agrees_along(&self, other: &ShadowGraph, number: u32) -> bool
        requires { number < length self.now.edges.edges }
        ensures { let pair = pair_at self.now.edges.pairs number in Decides result (AgreeAlong self.now other.now pair.0 pair.1) }
    {
        let (owner, target) = self.pair(number);
        self.edge(owner, target) == other.edge(owner, target)
    }

    /// The owner and the target of the edge with this number.
    fn pair(&self, number: u32) -> (ActorId, ActorId)
        requires { number < length self.now.edges.edges }
        ensures { result ≡ pair_at self.now.edges.pairs number }
    {
        let edge = self.numbered(number);
        (self.actor(edge.owner), self.actor(edge.target))
    }
}

/// Whether both shadows are the same.
fn same_shadow(one: Shadow, other: Shadow) -> bool
    ensures { Decides result (one ≡ other) }
{
    one == other
}

/// Whether both sets have the same nodes.
fn same_nodes(one: NodeSet, other: NodeSet) -> bool
    ensures { Decides result (one ≡ other) }
{
    one == other
}
