//! A shadow graph whose marks are kept from sweep to sweep.
ghost use Rattle.std.specs.Prelude.{◌≡◌, ◌<◌, ◌≤◌, ℕ, true, false, [], IfNone, IfSome, OnErr, OnOk, length, replicate, slice_index};
ghost use Rattle.history_model.specs.Cluster.{Cluster};
ghost use Rattle.history_model.specs.Folds.{Fold};
ghost use Rattle.history_model.specs.Tells.{origin_of};
ghost use Rattle.kept_marks.specs.Kept.{IsKept, IsWatched};
ghost use Rattle.kept_marks.specs.PlaceSet.{has_place};
ghost use Rattle.shadow_table.specs.Shadows.{is_named, no_shadows};
ghost use Rattle.shadow_graph.specs.Seen.{Drops};
ghost use Rattle.shadow_graph.specs.Stands.{IsGraphOf};
ghost use Rattle.shadow_graph.specs.Taken.{FoldsIn, IsLinked};
ghost use Rattle.pseudoroot_trace.specs.Trace.{place_graph};
ghost use Rattle.pseudoroot_trace.specs.Traced.{AreSeen, AreStanding, IsSweptAlong, IsSweptGraph, IsUnmarked, KeepsMarks, MayFall, TakesFallen, is_marked_in};
ghost use Rattle.crgc_ids.specs.declared.limits.TheConstants.{MOST_EVENTS};

use crate::touch::{touch_actor, touch_from, touch_rows};
use crate::trace::Trace;
use crgc_ids::{ActorId, NoMemory, NodeId};
use history_model::Bulletin;
use kept_marks::KeptMarks;
use place_marks::PlaceGraph;
use shadow_graph::ShadowGraph;
use std::alloc::Global;
use std::marker::Model;

/// A shadow graph with the marks of its last sweep. A fold touches the places whose mark it may change, so that the next sweep
/// looks at these, at new places, and at what hung on their marks, and at no other. Contracts see the graph, the marks and the
/// touched places, how many places the last sweep saw, and whether the next one marks anew.
#[derive(Drop)]
pub struct TracedGraph {
    graph: ShadowGraph,
    kept: KeptMarks,
    places: u32,
    is_stale: bool,
}

impl Model for TracedGraph {
    ghost use Rattle.pseudoroot_trace.specs.Traced.{IsTraced, Traced};

    ghost Value = { Traced };

    ghost view = { λ t. record { graph = t.graph; kept = t.kept; places = t.places; is_stale = t.is_stale } };

    ghost invariant = { λ t. IsTraced (record { graph = t.graph; kept = t.kept; places = t.places; is_stale = t.is_stale }) };
}

impl TracedGraph {
    /// The graph of a cluster of so many nodes, with nothing folded and no mark.
    pub fn new(alloc: Global, nodes: u8) -> TracedGraph
        requires some { 1 ≤ nodes }
        requires in_range { nodes ≤ 16 }
        ensures stands { (cl : Cluster) → cl.nodes ≡ nodes → IsGraphOf cl (λ o. []) result.graph }
        ensures nodes { result.graph.finals.nodes ≡ nodes }
        ensures cut { result.graph.cut ≡ replicate 16 0 }
        ensures shadows { result.graph.shadows ≡ no_shadows }
        ensures unmarked { IsUnmarked result }
        ensures fresh { result.is_stale ≡ false }
    {
        TracedGraph {
            graph: ShadowGraph::new(alloc, nodes),
            kept: KeptMarks::new(alloc),
            places: 0,
            is_stale: false,
        }
    }

    /// What is folded.
    pub fn graph(&self) -> &ShadowGraph
        ensures { result.now ≡ self.now.graph }
    {
        &self.graph
    }

    /// The bulletin of the node, the next one of its stream, is folded, as `ShadowGraph::fold` says. The places that it touches
    /// are touched; where a node is newly lost, the next sweep marks anew. After `NoMemory` all is as before. Beside the fold it
    /// takes linear time in the number of rows.
    pub fn fold(&mut self, origin: NodeId, b: &Bulletin) -> Result<(), NoMemory>
        requires of_origin { origin_of b.now ≡ origin }
        requires in_range { origin < self.old.graph.finals.nodes }
        requires linked { IsLinked self.old.graph.finals.nodes b.now }
        requires fewer { slice_index self.old.graph.cut origin < MOST_EVENTS }
        ensures ok { OnOk result (FoldsIn origin b.now self.old.graph self.new.graph) }
        ensures marks { OnOk result (KeepsMarks self.old self.new) }
        ensures err { OnErr result (self.new ≡ self.old) }
    {
        let _before = self.graph.place_count();
        let lost = self.graph.lost();
        if self.graph.fold(origin, b).is_err() {
            return Err(NoMemory);
        }
        let _after = self.graph.place_count();
        if self.graph.lost() != lost {
            self.is_stale = true;
            return Ok(());
        }
        touch_rows(&mut self.kept, &self.graph, self.places, b);
        Ok(())
    }

    /// The actor, which was named, is dropped, as `ShadowGraph::drop_actor` says, and its place touched. Constant time.
    pub fn drop_actor(&mut self, actor: ActorId)
        requires { is_named self.old.graph.shadows.names actor ≡ true }
        ensures drops { Drops actor self.old.graph self.new.graph }
        ensures stands { (cl : Cluster) (f : Fold) → IsGraphOf cl f self.old.graph → IsGraphOf cl f self.new.graph }
        ensures marks { KeepsMarks self.old self.new }
    {
        let _before = self.graph.place_count();
        touch_actor(&mut self.kept, &self.graph, self.places, actor);
        self.graph.drop_actor(actor);
        let _after = self.graph.place_count();
    }

    /// Exactly the actors are marked that a sweep of the graph marks, and whichever places lost their marks, or found none, have
    /// fallen. The next sweep marks anew, unless `keep_marks` is called before. After `NoMemory`, which comes only where places
    /// are new, all marks are as before. Where nothing was folded or dropped since the last sweep it takes constant time; else
    /// time in proportion to the touched and the new places, to the places whose marks hung on theirs, and to the edges of all
    /// these. Where it marks anew, linear time in the graph.
    pub fn sweep(&mut self) -> Result<(), NoMemory>
        ensures ok { OnOk result (IsSweptGraph self.old self.new) }
        ensures stale { OnOk result (self.new.is_stale ≡ true) }
        ensures marks { OnErr result (KeepsMarks self.old self.new) }
        ensures graph { self.new.graph ≡ self.old.graph }
    {
        let places = self.graph.place_count();
        if self.kept.reserve(places).is_err() {
            return Err(NoMemory);
        }
        sweep_marks(&mut self.kept, &self.graph, self.places, self.is_stale);
        self.places = places;
        self.is_stale = true;
        Ok(())
    }

    /// The marks of the last sweep are kept for the next one.
    pub fn keep_marks(&mut self)
        requires { AreStanding self.old.graph self.old.places self.old.kept }
        ensures { self.new ≡ record self.old { is_stale = false } }
    {
        self.is_stale = false;
    }

    /// A fallen place, which is taken out; None exactly where there is none. Constant time.
    pub fn pop_fallen(&mut self) -> Option<u32>
        ensures some { IfSome result (λ place. has_place self.old.kept.fallen place ≡ true) }
        ensures rest { IfSome result (TakesFallen self.old self.new) }
        ensures none { IfNone result ((a : ℕ) → has_place self.old.kept.fallen a ≡ false) }
        ensures same { IfNone result (self.new ≡ self.old) }
    {
        self.kept.pop_fallen()
    }

    /// Whether the last sweep left the actor marked. Constant time.
    pub fn is_marked(&self, actor: ActorId) -> bool
        ensures { result ≡ is_marked_in self.now actor }
    {
        match self.graph.place_of(actor) {
            Some(place) => self.kept.is_marked(place),
            None => false,
        }
    }
}

/// Exactly the places are marked that marks reach in the graph, of which the last sweep saw the first so many.
fn sweep_marks(kept: &mut KeptMarks, graph: &ShadowGraph, places: u32, is_stale: bool)
    requires room { length graph.now.shadows.names ≤ length kept.old.supports }
    requires seen { AreSeen (length graph.now.shadows.names) places kept.old }
    requires standing { is_stale ≡ false → AreStanding graph.now places kept.old }
    ensures swept { IsSweptAlong graph.now places is_stale kept.old kept.new }
    ensures room { length kept.new.supports ≡ length kept.old.supports }
{
    let trace = Trace::new(graph);
    touch_unseen(kept, &trace, places, is_stale);
    kept.sweep(&trace);
}

/// The places are touched that the last sweep did not see or, where it is to mark anew, all, without any mark.
fn touch_unseen(kept: &mut KeptMarks, trace: &Trace, places: u32, is_stale: bool)
    requires room { length trace.now.shadows.names ≤ length kept.old.supports }
    requires seen { AreSeen (length trace.now.shadows.names) places kept.old }
    requires standing { is_stale ≡ false → AreStanding trace.now places kept.old }
    ensures kept { IsKept (place_graph trace.now) kept.new }
    ensures watched { (p : ℕ) → p < length trace.now.shadows.names → MayFall places is_stale kept.old p → IsWatched kept.new p }
    ensures room { length kept.new.supports ≡ length kept.old.supports }
{
    if is_stale {
        kept.restart(trace);
        return;
    }
    touch_from(kept, places, trace.place_count());
}
