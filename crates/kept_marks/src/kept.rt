//! Marks that are kept from sweep to sweep.
ghost use Rattle.std.specs.Prelude.{◌≡◌, ◌<◌, ◌≤◌, ℕ, true, false, [], Some, IfNone, IfSome, OnOk, length, slice_set};
ghost use Rattle.place_marks.specs.Graph.{Graph};
ghost use Rattle.kept_marks.specs.PlaceSet.{has_place};
ghost use Rattle.kept_marks.specs.Kept.{IsEmpty, IsKept, IsSame, IsSwept, KeepsWatch, check_work, is_supported, settle_work, support_of};

use crate::place_set::PlaceSet;
use crate::steps::{find_support, put_all, put_targets, stands};
use crgc_ids::NoMemory;
use place_marks::PlaceGraph;
use std::alloc::Global;
use std::marker::Model;

/// What the mark of each place stands on, and the places that are to be looked at. Whoever changes the graph touches each place
/// whose mark may no longer be right: one that became a start or is none any more, and one to which an edge leads whose sign
/// changed. Beside each support stands the number of the edge by which it leads to the place, so that one look tells whether it
/// still does. Contracts see the supports and the sets of places that are touched, queued and fallen.
#[derive(Drop)]
pub struct KeptMarks {
    supports: Vec<Option<u32>>,
    edges: Vec<u32>,
    touched: PlaceSet,
    queued: PlaceSet,
    fallen: PlaceSet,
}

impl Model for KeptMarks {
    ghost use Rattle.kept_marks.specs.Kept.{HasRooms, Kept};

    ghost Value = { Kept };

    ghost view = { λ k. record { supports = k.supports.items; touched = k.touched; queued = k.queued; fallen = k.fallen } };

    ghost invariant = { λ k. HasRooms (record {
      supports = k.supports.items;
      touched = k.touched;
      queued = k.queued;
      fallen = k.fallen;
    }) };
}

impl KeptMarks {
    /// No mark, and no room.
    pub fn new(alloc: Global) -> KeptMarks
        ensures { result ≡ record { supports = []; touched = []; queued = []; fallen = [] } }
    {
        KeptMarks {
            supports: Vec::new(alloc),
            edges: Vec::new(alloc),
            touched: PlaceSet::new(alloc),
            queued: PlaceSet::new(alloc),
            fallen: PlaceSet::new(alloc),
        }
    }

    /// There is room for so many places at least. All else is as before, also after `NoMemory`. Amortized constant time for each
    /// place more than before.
    pub fn reserve(&mut self, places: u32) -> Result<(), NoMemory>
        ensures room { OnOk result (places ≤ length self.new.supports) }
        ensures grown { length self.old.supports ≤ length self.new.supports }
        ensures same { IsSame self.old self.new }
        ensures kept { (g : Graph) → IsKept g self.old → IsKept g self.new }
    {
        if self.touched.reserve(places).is_err() {
            return Err(NoMemory);
        }
        if self.queued.reserve(places).is_err() {
            return Err(NoMemory);
        }
        if self.fallen.reserve(places).is_err() {
            return Err(NoMemory);
        }
        let places = places as usize;
        if places <= self.supports.len() {
            return Ok(());
        }
        if self.edges.resize(places, 0).is_err() {
            return Err(NoMemory);
        }
        match self.supports.resize(places, None) {
            Ok(()) => Ok(()),
            Err(_) => Err(NoMemory),
        }
    }

    /// For how many places there is room.
    pub fn room(&self) -> usize
        ensures { result ≡ length self.now.supports }
    {
        self.supports.len()
    }

    /// Whether the place is marked.
    pub fn is_marked(&self, place: u32) -> bool
        ensures { result ≡ is_supported self.now.supports place }
    {
        match self.supports.get(place as usize) {
            Some(support) => support.is_some(),
            None => false,
        }
    }

    /// What the mark of the place stands on: the place itself where it is marked as a start, else an owner; None where it is not
    /// marked. Where a change may take that away, the place has to be touched.
    pub fn support(&self, place: u32) -> Option<u32>
        ensures { result ≡ support_of self.now.supports place }
    {
        match self.supports.get(place as usize) {
            Some(support) => *support,
            None => None,
        }
    }

    /// The next sweep looks at the place. It takes no memory. Constant time.
    pub fn touch(&mut self, place: u32)
        requires { place < length self.old.supports }
        ensures value { self.new ≡ record self.old { touched = slice_set self.old.touched place true } }
        ensures there { has_place self.new.touched place ≡ true }
        ensures kept { (g : Graph) → place < g.places → IsKept g self.old → IsKept g self.new }
    {
        self.touched.put(place);
    }

    /// A fallen place, which is taken out; None exactly where there is none. Constant time.
    pub fn pop_fallen(&mut self) -> Option<u32>
        ensures some { IfSome result (λ place. has_place self.old.fallen place ≡ true) }
        ensures rest { IfSome result (λ place. self.new ≡ record self.old { fallen = slice_set self.old.fallen place false }) }
        ensures none { IfNone result ((a : ℕ) → has_place self.old.fallen a ≡ false) }
        ensures same { IfNone result (self.new ≡ self.old) }
        ensures kept { (g : Graph) → IsKept g self.old → IsKept g self.new }
    {
        self.fallen.pop()
    }

    /// All marks are taken away and each place of the graph is touched, as over a new graph. It takes no memory. Linear time in
    /// the room.
    pub fn restart<G: PlaceGraph>(&mut self, graph: &G)
        requires room { (G.graph graph.now).places ≤ length self.old.supports }
        requires marked { (a b : ℕ) → support_of self.old.supports a ≡ Some b → a < (G.graph graph.now).places }
        requires touched { (a : ℕ) → has_place self.old.touched a ≡ true → a < (G.graph graph.now).places }
        requires settled { IsEmpty self.old.queued }
        ensures kept { IsKept (G.graph graph.now) self.new }
        ensures watched { KeepsWatch self.old self.new }
        ensures all { (a : ℕ) → a < (G.graph graph.now).places → has_place self.new.touched a ≡ true }
        ensures room { length self.new.supports ≡ length self.old.supports }
    {
        let places = graph.place_count();
        self.supports.fill(None);
        put_all(&mut self.touched, places);
    }

    /// Exactly what is reached is marked, and each place that lost its mark, or was touched and found none, is fallen. It takes
    /// no memory. Where nothing is touched it takes constant time; else time in proportion to the touched places, to the places
    /// whose marks hung on theirs, and to the edges of all these.
    pub fn sweep<G: PlaceGraph>(&mut self, graph: &G)
        requires { IsKept (G.graph graph.now) self.old }
        ensures kept { IsKept (G.graph graph.now) self.new }
        ensures swept { IsSwept (G.graph graph.now) self.old self.new }
        ensures room { length self.new.supports ≡ length self.old.supports }
    {
        self.check(graph);
        self.settle(graph);
    }

    /// The marks that no longer stand are taken away, and their places are queued.
    fn check<G: PlaceGraph>(&mut self, graph: &G)
        requires { IsKept (G.graph graph.now) self.old }
        ensures kept { IsKept (G.graph graph.now) self.new }
        ensures watched { KeepsWatch self.old self.new }
        ensures room { length self.new.supports ≡ length self.old.supports }
        ensures clean { IsEmpty self.new.touched }
    {
        while self.check_next(graph) {}
    }

    /// A touched place is looked at: where its mark does not stand, it is queued, and what hung on it is touched. False where
    /// there is none.
    fn check_next<G: PlaceGraph>(&mut self, graph: &G) -> bool
        requires { IsKept (G.graph graph.now) self.old }
        ensures kept { IsKept (G.graph graph.now) self.new }
        ensures watched { KeepsWatch self.old self.new }
        ensures room { length self.new.supports ≡ length self.old.supports }
        ensures done { result ≡ false → IsEmpty self.new.touched }
        ensures less { result ≡ true → check_work self.new < check_work self.old }
    {
        let Some(place) = self.touched.pop() else {
            return false;
        };
        let index = place as usize;
        if self.supports[index].is_none() {
            self.queued.put(place);
            return true;
        }
        let edge = edge_at(self.edges.as_slice(), place);
        if stands(graph, self.supports.as_slice(), place, edge) {
            return true;
        }
        self.supports[index] = None;
        self.queued.put(place);
        put_targets(
            graph,
            self.supports.as_slice(),
            &mut self.touched,
            place,
            Some(place),
        );
        true
    }

    /// The queued places find new supports or fall, and marks spread from them.
    fn settle<G: PlaceGraph>(&mut self, graph: &G)
        requires kept { IsKept (G.graph graph.now) self.old }
        requires clean { IsEmpty self.old.touched }
        ensures kept { IsKept (G.graph graph.now) self.new }
        ensures watched { KeepsWatch self.old self.new }
        ensures room { length self.new.supports ≡ length self.old.supports }
        ensures clean { IsEmpty self.new.touched }
        ensures settled { IsEmpty self.new.queued }
    {
        while self.settle_next(graph) {}
    }

    /// A queued place is looked at: it is marked where something can support it, and then the places that are not marked and
    /// can stand on it are queued; else it has fallen. False where there is none.
    fn settle_next<G: PlaceGraph>(&mut self, graph: &G) -> bool
        requires kept { IsKept (G.graph graph.now) self.old }
        requires clean { IsEmpty self.old.touched }
        ensures kept { IsKept (G.graph graph.now) self.new }
        ensures watched { KeepsWatch self.old self.new }
        ensures room { length self.new.supports ≡ length self.old.supports }
        ensures clean { IsEmpty self.new.touched }
        ensures done { result ≡ false → IsEmpty self.new.queued }
        ensures less { result ≡ true → settle_work self.new < settle_work self.old }
    {
        let Some(place) = self.queued.pop() else {
            return false;
        };
        let Some((support, edge)) = find_support(graph, self.supports.as_slice(), place) else {
            self.fallen.put(place);
            return true;
        };
        self.supports[place as usize] = Some(support);
        note_edge(self.edges.as_mut_slice(), place, edge);
        put_targets(
            graph,
            self.supports.as_slice(),
            &mut self.queued,
            place,
            None,
        );
        true
    }
}

/// The number of the edge by which the place's support leads to it, or any number: a mark of which it does not tell the edge is
/// supported anew.
fn edge_at(edges: &[u32], place: u32) -> u32 {
    match edges.get(place as usize) {
        Some(edge) => *edge,
        None => 0,
    }
}

/// The place's support leads to it by the edge with this number.
fn note_edge(edges: &mut [u32], place: u32, edge: u32) {
    if let Some(noted) = edges.get_mut(place as usize) {
        *noted = edge;
    }
}
