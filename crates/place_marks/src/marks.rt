//! Marks by place.
ghost use Rattle.std.specs.Prelude.{◌≡◌, ℕ, ◌<◌, ◌≤◌, true, false, [], OnOk, OnErr, length, max, slice_index_or};
ghost use Rattle.place_marks.specs.Graph.{IsGraph};
ghost use Rattle.place_marks.specs.Marks.{AreMarksReached, AreStartsMarked, IsMarking, IsOrdered, MarksTargets, Puts, is_marked};

use crate::graph::PlaceGraph;
use crate::rounds::{list_marked, reach_in_rounds};
use crgc_ids::NoMemory;
use std::alloc::Global;
use std::marker::Model;
use std::thread::Threads;

/// Room for a mark at each of so many places, in two rounds of marking; which of them are marked, and these in the order of
/// marking. Contracts see the marks and their order.
#[derive(Drop)]
pub struct Marks {
    marks: Vec<bool>,
    before: Vec<bool>,
    order: Vec<u32>,
}

impl Model for Marks {
    ghost use Rattle.std.specs.Prelude.{◌≤◌, length, vec_capacity};
    ghost use Rattle.place_marks.specs.Marks.{IsOrdered, Marking};

    ghost Value = { Marking };

    ghost view = { λ m. record { marks = m.marks.items; order = m.order.items } };

    ghost invariant = { λ m. IsOrdered m.marks.items m.order.items × (length m.marks.items ≤ vec_capacity m.order)
        × (length m.marks.items ≤ length m.before.items) };
}

impl Marks {
    /// No room.
    pub fn new(alloc: Global) -> Marks
        ensures { result ≡ record { marks = []; order = [] } }
    {
        Marks {
            marks: Vec::new(alloc),
            before: Vec::new(alloc),
            order: Vec::new(alloc),
        }
    }

    /// Whether the place is marked.
    pub fn is_marked(&self, place: u32) -> bool
        ensures { result ≡ is_marked self.now place }
    {
        match self.marks.get(place as usize) {
            Some(mark) => *mark,
            None => false,
        }
    }

    /// For how many places there is room.
    pub fn room(&self) -> usize
        ensures { result ≡ length self.now.marks }
    {
        self.marks.len()
    }

    /// How many places are marked.
    fn count(&self) -> usize
        ensures count { result ≡ length self.now.order }
        ensures few { result ≤ length self.now.marks }
        ensures ordered { IsOrdered self.now.marks self.now.order }
    {
        self.order.len()
    }

    /// The place that was marked after so many others.
    fn place(&self, index: usize) -> u32
        requires { index < length self.now.order }
        ensures place { result ≡ slice_index_or self.now.order index 0 }
        ensures marked { is_marked self.now result ≡ true }
    {
        self.order[index]
    }

    /// The place is marked.
    fn put(&mut self, place: u32)
        requires { place < length self.old.marks }
        ensures { Puts self.old self.new place }
    {
        let index = place as usize;
        if !self.marks[index] {
            self.marks[index] = true;
            self.order.push_reserved(place);
        }
    }

    /// No place is marked, and there is room for so many at least. Linear time in the room.
    fn clear(&mut self)
        ensures room { length self.new.marks ≡ length self.old.marks }
        ensures none { (p : ℕ) → is_marked self.new p ≡ false }
    {
        self.marks.fill(false);
        self.order.clear();
    }

    /// There is room for a mark at each place of the graph, in two rounds; the marks stay. After `NoMemory` all is as before. Linear
    /// time in the number of places.
    pub fn reserve<G: PlaceGraph>(&mut self, graph: &G) -> Result<(), NoMemory>
        ensures room { OnOk result (length self.new.marks ≡ max (length self.old.marks) (G.graph graph.now).places) }
        ensures marks { (p : ℕ) → is_marked self.new p ≡ is_marked self.old p }
        ensures err { OnErr result (self.new ≡ self.old) }
    {
        let places = graph.place_count() as usize;
        if places <= self.marks.len() {
            return Ok(());
        }
        if self.order.reserve(places).is_err() {
            return Err(NoMemory);
        }
        if self.before.resize(places, false).is_err() {
            return Err(NoMemory);
        }
        match self.marks.resize(places, false) {
            Ok(()) => Ok(()),
            Err(_) => Err(NoMemory),
        }
    }
}

/// Exactly the places that some chain of positive edges leads to from a start are marked. It takes no memory. Linear time in
/// the room, the places and their edges.
pub fn mark<G: PlaceGraph>(graph: &G, marks: &mut Marks)
    requires { (G.graph graph.now).places ≤ length marks.old.marks }
    ensures marked { IsMarking (G.graph graph.now) marks.new }
    ensures room { length marks.new.marks ≡ length marks.old.marks }
{
    marks.clear();
    mark_starts(graph, marks);
    spread(graph, marks);
}

/// What `mark` marks is marked, in rounds: in each, so many threads decide the marks of a chunk of places each, from the marks of
/// the round before. The first round that adds no mark is the last. It takes no memory. A round takes linear time in the places
/// and their edges, shared by the threads; the rounds are at most one more than the places, and as many as the longest of the
/// shortest chains has places, and one.
pub fn mark_rounds<R: Threads + Sync, G: PlaceGraph + Sync>(
    rt: &R,
    graph: &G,
    marks: &mut Marks,
    parts: u32,
)
    requires room { (G.graph graph.now).places ≤ length marks.old.marks }
    requires parts { 1 ≤ parts }
    ensures marked { IsMarking (G.graph graph.now) marks.new }
    ensures room { length marks.new.marks ≡ length marks.old.marks }
{
    let places = graph.place_count();
    marks.marks.fill(false);
    reach_in_rounds(rt, graph, &mut marks.before, &mut marks.marks, parts);
    marks.order.clear();
    list_marked(&marks.marks, places, &mut marks.order);
}

/// The starts are marked, where no place was.
fn mark_starts<G: PlaceGraph>(graph: &G, marks: &mut Marks)
    requires room { (G.graph graph.now).places ≤ length marks.old.marks }
    requires none { (p : ℕ) → is_marked marks.old p ≡ false }
    ensures room { length marks.new.marks ≡ length marks.old.marks }
    ensures starts { AreStartsMarked (G.graph graph.now) marks.new }
    ensures reached { AreMarksReached (G.graph graph.now) marks.new }
    ensures whole { IsGraph (G.graph graph.now) }
{
    for place in 0..graph.place_count() {
        if graph.is_start(place) {
            marks.put(place);
        }
    }
}

/// Where the starts are marked, so is what is reached from them. The order of marking is the worklist.
fn spread<G: PlaceGraph>(graph: &G, marks: &mut Marks)
    requires room { (G.graph graph.now).places ≤ length marks.old.marks }
    requires whole { IsGraph (G.graph graph.now) }
    requires starts { AreStartsMarked (G.graph graph.now) marks.old }
    requires reached { AreMarksReached (G.graph graph.now) marks.old }
    ensures marked { IsMarking (G.graph graph.now) marks.new }
    ensures room { length marks.new.marks ≡ length marks.old.marks }
{
    let mut done = 0;
    while done < marks.count() {
        let place = marks.place(done);
        mark_targets(graph, marks, place);
        done += 1;
    }
}

/// The places to which positive edges lead from this one are marked too. It looks at those edges alone whose targets are not
/// marked yet.
fn mark_targets<G: PlaceGraph>(graph: &G, marks: &mut Marks, place: u32)
    requires room { (G.graph graph.now).places ≤ length marks.old.marks }
    requires whole { IsGraph (G.graph graph.now) }
    requires place { place < (G.graph graph.now).places }
    ensures { MarksTargets (G.graph graph.now) marks.old marks.new place }
{
    let ends = graph.edges_from(place);
    for &(target, number) in ends {
        if !marks.is_marked(target) && graph.step(number).is_some() {
            marks.put(target);
        }
    }
}
