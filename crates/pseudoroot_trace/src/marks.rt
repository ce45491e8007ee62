//! Marks by actor.
ghost use Rattle.std.specs.Prelude.{◌≡◌, ◌+◌, ◌<◌, ◌≤◌, ◌++◌, [], ◌∷◌, false, OnErr, OnOk, length};
ghost use Rattle.indexmap.specs.IndexSet.{index_set_len, spare};
ghost use Rattle.shadow_table.specs.Shadows.{is_named};
ghost use Rattle.shadow_graph.specs.Places.{ArePlaced, actor_of};
ghost use Rattle.pseudoroot_trace.specs.Marked.{AreNamedBelow, IsSweepOf, is_marked};

use crate::trace::{Trace, actor_at};
use crgc_ids::{ActorId, NoMemory};
use indexmap::IndexSet;
use place_marks::PlaceGraph;
use shadow_graph::ShadowGraph;
use std::alloc::Global;
use std::marker::Model;
use std::thread::Threads;

/// Which actors are marked, and room for the marks of so many. Contracts see the actors and the room.
#[derive(Drop)]
pub struct Marks {
    places: place_marks::Marks,
    actors: IndexSet<ActorId>,
}

impl Model for Marks {
    ghost use Rattle.std.specs.Prelude.{◌+◌, ◌≤◌, length};
    ghost use Rattle.indexmap.specs.IndexSet.{index_set_len, spare};
    ghost use Rattle.pseudoroot_trace.specs.Marked.{MarkedActors};

    ghost Value = { MarkedActors };

    ghost view = { λ m. record { room = length m.places.marks; actors = m.actors.keys } };

    ghost invariant = { λ m. length m.places.marks ≤ index_set_len m.actors + spare m.actors };
}

impl Marks {
    /// No mark, and no room.
    pub fn new(alloc: Global) -> Marks
        ensures { result ≡ record { room = 0; actors = [] } }
    {
        Marks {
            places: place_marks::Marks::new(alloc),
            actors: IndexSet::new(alloc),
        }
    }

    /// There is room for the marks of all actors that the graph names, in two rounds; the marks stay. After `NoMemory` all is as
    /// before. Linear time in the number of actors.
    pub fn reserve(&mut self, graph: &ShadowGraph) -> Result<(), NoMemory>
        ensures room { OnOk result (length graph.now.shadows.names ≤ self.new.room) }
        ensures grown { self.old.room ≤ self.new.room }
        ensures marks { self.new.actors ≡ self.old.actors }
        ensures err { OnErr result (self.new ≡ self.old) }
    {
        let places = graph.place_count() as usize;
        let more = places.saturating_sub(self.actors.len());
        if self.actors.reserve(more).is_err() {
            return Err(NoMemory);
        }
        self.places.reserve(&Trace::new(graph))
    }

    /// Whether the actor is marked. Constant time on average.
    pub fn is_marked(&self, actor: ActorId) -> bool
        ensures { result ≡ is_marked self.now actor }
    {
        self.actors.contains(&actor)
    }
}

/// The actors are marked that a sweep of the graph reaches, and no other: those that some chain of positive edges leads to from
/// a pseudoroot, over actors that are neither dropped nor on a lost node. It takes no memory. Linear time in the room, the
/// actors and their edges, on average.
pub fn mark(graph: &ShadowGraph, room: &mut Marks)
    requires { length graph.now.shadows.names ≤ room.old.room }
    ensures sweep { IsSweepOf graph.now room.new }
    ensures room { room.new.room ≡ room.old.room }
{
    place_marks::mark(&Trace::new(graph), &mut room.places);
    name_marked(graph, &room.places, &mut room.actors);
}

/// The actors are marked that `mark` marks, in rounds over so many parts of the places: in each round a thread for each part, where
/// one can be made, decides the marks of its places from those of the round before, by their owners. The first round that adds no
/// mark is the last. It takes no memory. Each round takes linear time in the actors and their edges, shared by the threads, on
/// average; there are at most as many rounds as actors, and one.
pub fn mark_rounds<R: Threads + Sync>(rt: &R, graph: &ShadowGraph, room: &mut Marks, parts: u32)
    requires room { length graph.now.shadows.names ≤ room.old.room }
    requires some { 1 ≤ parts }
    requires in_range { parts ≤ 32 }
    ensures sweep { IsSweepOf graph.now room.new }
    ensures room { room.new.room ≡ room.old.room }
{
    place_marks::mark_rounds(rt, &Trace::new(graph), &mut room.places, parts);
    name_marked(graph, &room.places, &mut room.actors);
}

/// The actors at the marked places are in the set, and no other. It takes no memory. Linear time in their number and that of the
/// places, on average.
fn name_marked(graph: &ShadowGraph, marks: &place_marks::Marks, actors: &mut IndexSet<ActorId>)
    requires { length graph.now.shadows.names ≤ index_set_len actors.old + spare actors.old }
    ensures named { AreNamedBelow graph.now marks.now (length graph.now.shadows.names) actors.new.keys }
    ensures room { index_set_len actors.old + spare actors.old ≤ index_set_len actors.new + spare actors.new }
    ensures placed { ArePlaced graph.now }
{
    actors.clear();
    for place in 0..graph.place_count() {
        if marks.is_marked(place) {
            name_at(graph, place, actors);
        }
    }
}

/// The actor at the place, which is not in the set, is put into it.
fn name_at(graph: &ShadowGraph, place: u32, actors: &mut IndexSet<ActorId>)
    requires place { place < length graph.now.shadows.names }
    requires new { is_named actors.old.keys (actor_of graph.now place) ≡ false }
    requires room { 0 < spare actors.old }
    ensures keys { actors.new.keys ≡ actors.old.keys ++ actor_of graph.now place ∷ [] }
    ensures len { index_set_len actors.new ≡ index_set_len actors.old + 1 }
    ensures spare { spare actors.old ≤ spare actors.new + 1 }
{
    actors.insert(actor_at(graph, place)).unwrap();
}
