//! Marking in rounds, where each part of the places is decided from the marks of the round before.
ghost use Rattle.std.specs.Prelude.{◌≡◌, ◌+◌, ◌<◌, ◌≤◌, ℕ, true, false, [], length, slice_index_or, vec_capacity};
ghost use Rattle.std.specs.Bool.{Decides};
ghost use Rattle.place_marks.specs.Graph.{IsGraph};
ghost use Rattle.place_marks.specs.Marks.{IsOrdered};
ghost use Rattle.place_marks.specs.Rounds.{AddsMarks, AreReached, HasMarkedOwner, IsMarkedNext, IsRound};

use crate::graph::PlaceGraph;
use std::thread;
use std::thread::Threads;

/// Exactly the places that are reached are marked, where none was. The row of the round before is room alone.
pub fn reach_in_rounds<R: Threads + Sync, G: PlaceGraph + Sync>(
    rt: &R,
    graph: &G,
    before: &mut [bool],
    marks: &mut [bool],
    parts: u32,
)
    requires parts { 1 ≤ parts }
    requires places { (G.graph graph.now).places ≤ length marks.old }
    requires before { (G.graph graph.now).places ≤ length before.old }
    requires none { (p : ℕ) → slice_index_or marks.old p false ≡ false }
    ensures marked { AreReached (G.graph graph.now) marks.new }
    ensures room { length marks.new ≡ length marks.old }
    ensures before { length before.new ≡ length before.old }
{
    let places = graph.place_count() as usize;
    let size = places.div_ceil(parts as usize).max(1);
    let (before, _) = before.split_at_mut(places);
    let (marks, _) = marks.split_at_mut(places);
    while mark_round(rt, graph, before, marks, size) {}
}

/// Each place is marked that is a start, or to which a positive edge leads from a marked place. Whether this added a mark.
fn mark_round<R: Threads + Sync, G: PlaceGraph + Sync>(
    rt: &R,
    graph: &G,
    before: &mut [bool],
    marks: &mut [bool],
    size: usize,
) -> bool
    requires size { 0 < size }
    requires places { length marks.old ≡ (G.graph graph.now).places }
    requires before { length before.old ≡ (G.graph graph.now).places }
    ensures round { IsRound (G.graph graph.now) marks.old marks.new }
    ensures before { length before.new ≡ length before.old }
    ensures more { result ≡ true → AddsMarks marks.old marks.new }
    ensures none { result ≡ false → marks.new ≡ marks.old }
{
    before.copy_from_slice(marks);
    decide_chunks(rt, graph, before, marks, size);
    *before != *marks
}

/// The marks are those of one round after the row of before, each chunk of so many places decided in a thread of its own, where
/// one can be made.
fn decide_chunks<R: Threads + Sync, G: PlaceGraph + Sync>(
    rt: &R,
    graph: &G,
    before: &[bool],
    marks: &mut [bool],
    size: usize,
)
    requires size { 0 < size }
    requires places { length marks.old ≡ (G.graph graph.now).places }
    requires before { length before.now ≡ (G.graph graph.now).places }
    ensures { IsRound (G.graph graph.now) before.now marks.new }
{
    let part = |start: usize, chunk: &mut [bool]|
        requires { (start + length chunk.now ≤ (G.graph graph.now).places) × (length before.now ≡ (G.graph graph.now).places) }
        ensures { (k : ℕ) → k < length chunk.entry.now
            → Decides (slice_index_or chunk.exit.now k false) (IsMarkedNext (G.graph graph.entry.now) before.entry.now (start + k)) }
    { decide_chunk(graph, before, start, chunk) };
    thread::for_each_chunk_mut(rt, marks, size, &part);
}

/// The marks of the chunk, which begins at this place, are those of one round after the row of before.
fn decide_chunk<G: PlaceGraph>(graph: &G, before: &[bool], start: usize, chunk: &mut [bool])
    requires places { start + length chunk.old ≤ (G.graph graph.now).places }
    requires before { length before.now ≡ (G.graph graph.now).places }
    ensures marks { (k : ℕ) → k < length chunk.old
        → Decides (slice_index_or chunk.new k false) (IsMarkedNext (G.graph graph.now) before.now (start + k)) }
{
    let _places = graph.place_count();
    for k in 0..chunk.len() {
        chunk[k] = is_marked_next(graph, before, (start + k) as u32);
    }
}

/// Whether the place is marked one round after the row of before.
fn is_marked_next<G: PlaceGraph>(graph: &G, before: &[bool], place: u32) -> bool
    requires place { place < (G.graph graph.now).places }
    requires before { length before.now ≡ (G.graph graph.now).places }
    ensures { Decides result (IsMarkedNext (G.graph graph.now) before.now place) }
{
    before[place as usize] || graph.is_start(place) || has_marked_owner(graph, before, place)
}

/// Whether a positive edge leads to the place from a marked one. It looks at those edges alone whose owners are marked.
fn has_marked_owner<G: PlaceGraph>(graph: &G, marks: &[bool], place: u32) -> bool
    requires place { place < (G.graph graph.now).places }
    requires marks { length marks.now ≡ (G.graph graph.now).places }
    ensures { Decides result (HasMarkedOwner (G.graph graph.now) marks.now place) }
{
    let ends = graph.edges_to(place);
    for &(owner, number) in ends {
        if is_marked(marks, owner) && graph.step(number).is_some() {
            return true;
        }
    }
    false
}

/// Whether the place is marked.
fn is_marked(marks: &[bool], place: u32) -> bool
    ensures { result ≡ slice_index_or marks.now place false }
{
    match marks.get(place as usize) {
        Some(mark) => *mark,
        None => false,
    }
}

/// The marked places are put in the order of marking, rising. It takes no memory.
pub fn list_marked(marks: &[bool], places: u32, order: &mut Vec<u32>)
    requires empty { order.old.items ≡ [] }
    requires room { length marks.now ≤ vec_capacity order.old }
    requires long { places ≤ length marks.now }
    requires within { (p : ℕ) → slice_index_or marks.now p false ≡ true → p < places }
    ensures ordered { IsOrdered marks.now order.new.items }
    ensures room { vec_capacity order.new ≡ vec_capacity order.old }
{
    for place in 0..places {
        if is_marked(marks, place) {
            order.push_reserved(place);
        }
    }
}
