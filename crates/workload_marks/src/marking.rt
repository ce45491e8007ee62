//! Marks in rounds beside plain marks.
ghost use Rattle.std.specs.Prelude.{◌≡◌, ◌<◌, ◌≤◌, count_by, length, IfOk, MatchOption};
ghost use Rattle.pseudoroot_trace.specs.Marked.{IsSweepOf, is_marked};
ghost use Rattle.shadow_graph.specs.Places.{actor_of};
ghost use Rattle.workload_marks.specs.Differing.{AgreeBelow, IsFirstDifference};

use crate::memory::made;
use crgc_ids::ActorId;
use pseudoroot_trace::{Marks, mark, mark_rounds};
use shadow_graph::ShadowGraph;
use std::alloc::Global;
use std::io;
use std::thread::Threads;

/// How many actors the graph knows and plain marks mark, and for 1, 2 and 7 parts whether marks in rounds are the same.
pub fn tell_marks<R: Print + Threads + Sync>(
    rt: &R,
    alloc: Global,
    graph: &ShadowGraph,
) -> io::Result<()> {
    let plain = plain_marks(alloc, graph)?;
    let known = graph.known_count();
    let marked = marked_count(graph, &plain);
    print!(rt; "known {known} marked {marked}, parts")?;
    tell_rounds(rt, alloc, graph, &plain, 1)?;
    tell_rounds(rt, alloc, graph, &plain, 2)?;
    tell_rounds(rt, alloc, graph, &plain, 7)?;
    rt.println("")
}

/// Whether marks in rounds over so many parts are the plain ones, or else the first actor on which they differ.
fn tell_rounds<R: Print + Threads + Sync>(
    rt: &R,
    alloc: Global,
    graph: &ShadowGraph,
    plain: &Marks,
    parts: u32,
) -> io::Result<()>
    requires some { 1 ≤ parts }
    requires in_range { parts ≤ 32 }
{
    let rounds = marks_in_rounds(rt, alloc, graph, parts)?;
    let Some(actor) = first_difference(graph, plain, &rounds) else {
        return print!(rt; " {parts} equal");
    };
    let node = actor.node().get();
    let serial = actor.serial();
    print!(rt; " {parts} other at {node}.{serial}")
}

/// Plain marks. Linear time in the graph, on average.
pub fn plain_marks(alloc: Global, graph: &ShadowGraph) -> io::Result<Marks>
    ensures { IfOk result (IsSweepOf graph.now) }
{
    let mut marks = Marks::new(alloc);
    made(marks.reserve(graph))?;
    mark(graph, &mut marks);
    Ok(marks)
}

/// Marks in rounds over so many parts. Linear time in the graph for each round, on average.
pub fn marks_in_rounds<R: Threads + Sync>(
    rt: &R,
    alloc: Global,
    graph: &ShadowGraph,
    parts: u32,
) -> io::Result<Marks>
    requires some { 1 ≤ parts }
    requires in_range { parts ≤ 32 }
    ensures { IfOk result (IsSweepOf graph.now) }
{
    let mut marks = Marks::new(alloc);
    made(marks.reserve(graph))?;
    mark_rounds(rt, graph, &mut marks, parts);
    Ok(marks)
}

/// How many of the actors that the graph names are marked. Linear time in their number, on average.
pub fn marked_count(graph: &ShadowGraph, marks: &Marks) -> u32
    ensures { result ≡ count_by (is_marked marks.now) graph.now.shadows.names }
{
    let mut count = 0;
    for place in 0..graph.place_count() {
        if marks.is_marked(actor_at(graph, place)) {
            count += 1;
        }
    }
    count
}

/// The first actor, in the order of naming, that one of the marks has and the other has not; None where they agree on all. Linear
/// time in the number of actors, on average.
pub fn first_difference(graph: &ShadowGraph, one: &Marks, other: &Marks) -> Option<ActorId>
    ensures { MatchOption result (AgreeBelow graph.now one.now other.now (length graph.now.shadows.names))
        (IsFirstDifference graph.now one.now other.now) }
{
    for place in 0..graph.place_count() {
        let actor = actor_at(graph, place);
        if one.is_marked(actor) != other.is_marked(actor) {
            return Some(actor);
        }
    }
    None
}

/// The actor at the place.
fn actor_at(graph: &ShadowGraph, place: u32) -> ActorId
    requires { place < length graph.now.shadows.names }
    ensures { result ≡ actor_of graph.now place }
{
    graph.actor_at(place).unwrap()
}
