//! Whom a sweep stops that marks in rounds.
ghost use Rattle.std.specs.Prelude.{◌≡◌, ◌≤◌, IfOk};
ghost use Rattle.std.specs.List.{filter};
ghost use Rattle.history_model.specs.Graph.{rising_actors};
ghost use Rattle.pseudoroot_trace.specs.Marked.{is_marked};
ghost use Rattle.collector.specs.Sweeping.{Finds, falls};

use crate::stops::{actor_at, falls, sorted, stops_of};
use crgc_ids::{ActorId, NoMemory, NodeId};
use history_model::StopList;
use pseudoroot_trace::{Marks, mark_rounds};
use shadow_graph::ShadowGraph;
use std::alloc::Global;
use std::thread::Threads;

/// The actors that a sweep by the node stops now, rising, and their stops, where these were stopped before. It marks the graph in
/// rounds over so many parts. Linear time in the graph for each round, and for n actors that it stops in n log n, on average.
pub fn find_stops_in_rounds<R: Threads + Sync>(
    rt: &R,
    alloc: Global,
    graph: &ShadowGraph,
    marks: &mut Marks,
    node: NodeId,
    stopped: &[bool],
    parts: u32,
) -> Result<(Vec<ActorId>, StopList), NoMemory>
    requires some { 1 ≤ parts }
    requires in_range { parts ≤ 32 }
    ensures { IfOk result (λ r. Finds graph.now (is_marked marks.new) node stopped.now r.0.items r.1) }
{
    marks.reserve(graph)?;
    mark_rounds(rt, graph, marks, parts);
    let found = find_unmarked(alloc, graph, marks, node, stopped)?;
    let stops = stops_of(alloc, graph, found.as_slice())?;
    Ok((found, stops))
}

/// The actors that a sweep by the node stops that leaves these marks, rising.
fn find_unmarked(
    alloc: Global,
    graph: &ShadowGraph,
    marks: &Marks,
    node: NodeId,
    stopped: &[bool],
) -> Result<Vec<ActorId>, NoMemory>
    ensures { IfOk result (λ v. v.items ≡ rising_actors
        (filter (falls graph.now (is_marked marks.now) node stopped.now) graph.now.shadows.names)) }
{
    let mut found = Vec::new(alloc);
    for place in 0..graph.place_count() {
        let actor = actor_at(graph, place);
        if falls(graph, marks.is_marked(actor), node, stopped, actor) {
            match found.push(actor) {
                Ok(()) => (),
                Err(_) => return Err(NoMemory),
            }
        }
    }
    Ok(sorted(found))
}
