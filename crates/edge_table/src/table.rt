//! Edges by number and by place.
ghost use Rattle.std.specs.Prelude.{◌≡◌, ◌+◌, ◌-◌, ◌<◌, ◌≤◌, ◌^◌, ◌+ℤ◌, ◌-ℤ◌, ◌<ℤ◌, neg_ℤ, pos, ◌++◌, [], ◌∷◌, None, IfOk, IfSome, OnErr, OnOk, length, take};
ghost use Rattle.std.specs.Bool.{Decides};
ghost use Rattle.std.specs.List.{IsDistinct};
ghost use Rattle.edge_table.specs.Ends.{HasRoom, HaveSameLists};
ghost use Rattle.edge_table.specs.declared.near.TheConstants.{NEAR};
ghost use Rattle.edge_table.specs.Table.{ArePositive, HasEnds, edge_at, edges_from, edges_to, ends_from, ends_to, number_at, same_pair, with_edge, with_given, with_released};

use crate::edge_list::EdgeList;
use crate::ends::Ends;
use crate::far_edges::FarEdges;
use crate::near::{NEAR, number_near};
use crate::positive::{MANY, PositiveEdges, is_positive};
use crgc_ids::{ActorId, NoMemory};
use std::alloc::Global;
use std::marker::Model;

/// An edge: the places of its owner and its target, and how many more references the owner was given than it released, which is
/// below 0 where a release is known before its gift.
#[derive(Clone, Copy, PartialEq, Eq, Debug)]
pub struct Edge {
    pub owner: u32,
    pub target: u32,
    pub count: i64,
}

/// The edges between actors, numbered from 0 in the order in which they were added, and for each place those that lead from it and
/// to it, each by the place of its other end and its number, the positive ones once more where there are many. It keeps its
/// allocator. Contracts see the pairs, the edges and how many places there are.
#[derive(Drop)]
pub struct EdgeTable {
    alloc: Global,
    edges: EdgeList,
    far: FarEdges,
    places: Vec<Ends>,
    by_owner: PositiveEdges,
    by_target: PositiveEdges,
}

impl Model for EdgeTable {
    ghost use Rattle.std.specs.Prelude.{length};
    ghost use Rattle.edge_table.specs.Far.{AreFound};
    ghost use Rattle.edge_table.specs.Table.{ArePositiveKept, Edges, IsTable};

    ghost Value = { Edges };

    ghost view = { λ t. record { pairs = t.edges.pairs; edges = t.edges.edges; places = length t.places.items } };

    ghost invariant = { λ t. IsTable t.edges.pairs t.edges.edges t.places.items × (AreFound t.far t.edges.edges
        × ArePositiveKept t.edges.edges t.by_owner t.by_target) };
}

impl EdgeTable {
    /// No place and no edge.
    pub fn new(alloc: Global) -> EdgeTable
        ensures { result ≡ record { pairs = []; edges = []; places = 0 } }
    {
        EdgeTable {
            alloc,
            edges: EdgeList::new(alloc),
            far: FarEdges::new(alloc),
            places: Vec::new(alloc),
            by_owner: PositiveEdges::new(alloc),
            by_target: PositiveEdges::new(alloc),
        }
    }

    /// How many places there are.
    pub fn place_count(&self) -> u32
        ensures { result ≡ self.now.places }
    {
        self.places.len() as u32
    }

    /// How many edges there are.
    pub fn edge_count(&self) -> u32
        ensures value { result ≡ length self.now.edges }
        ensures long { length self.now.edges ≡ length self.now.pairs }
        ensures distinct { IsDistinct same_pair self.now.pairs }
    {
        self.edges.len() as u32
    }

    /// There is one place more, the last, without edges. After `NoMemory`, which comes too where there are 2^32 - 1 places, all
    /// is as before. Amortized constant time.
    pub fn add_place(&mut self) -> Result<(), NoMemory>
        ensures ok { OnOk result (self.new ≡ record self.old { places = self.old.places + 1 }) }
        ensures err { OnErr result (self.new ≡ self.old) }
    {
        if self.places.len() >= 4_294_967_295 {
            return Err(NoMemory);
        }
        match self.places.push(Ends::new(self.alloc)) {
            Ok(()) => Ok(()),
            Err(_) => Err(NoMemory),
        }
    }

    /// The last place, which has no edges, is taken away. Constant time.
    pub fn remove_last_place(&mut self)
        requires some { 0 < self.old.places }
        requires from { edges_from self.old.edges (self.old.places - 1) ≡ [] }
        requires to { edges_to self.old.edges (self.old.places - 1) ≡ [] }
        ensures { self.new ≡ record self.old { places = self.old.places - 1 } }
    {
        self.places.pop();
    }

    /// The number of the edge from the owner to the target, which have these places; None exactly where there is none. At most
    /// 2 * 8 looks at the lists of both places, and where that does not tell, logarithmic time.
    #[inline(always)]
    pub fn number_of(
        &self,
        owner: ActorId,
        target: ActorId,
        owner_place: u32,
        target_place: u32,
    ) -> Option<u32>
        requires owner { owner_place < self.now.places }
        requires target { target_place < self.now.places }
        requires ends { HasEnds self.now owner target owner_place target_place }
        ensures number { result ≡ number_at self.now owner target }
        ensures within { IfSome result (λ number. number < length self.now.edges) }
        ensures distinct { IsDistinct same_pair self.now.pairs }
        ensures long { length self.now.edges ≡ length self.now.pairs }
    {
        let from = self.places[owner_place as usize].from();
        let to = self.places[target_place as usize].to();
        if to.len() < from.len() && to.len() <= NEAR {
            return number_near(to, owner_place);
        }
        if let Some(number) = number_near(from, target_place) {
            return Some(number);
        }
        if from.len() <= NEAR {
            return None;
        }
        if let Some(number) = number_near(to, owner_place) {
            return Some(number);
        }
        self.far.number(owner_place, target_place)
    }

    /// There is one edge more, the last, with count 0; its number is the answer. After `NoMemory`, which
    /// comes too where there are 2^32 - 1 edges, all is as before. Amortized constant time, or logarithmic time where the edge is among
    /// the first 8 in neither list; but linear time in the edges from its owner or to its target where these are more than 128 and the
    /// positive ones not kept apart, as after one of them was taken away.
    pub fn add(
        &mut self,
        owner: ActorId,
        target: ActorId,
        owner_place: u32,
        target_place: u32,
    ) -> Result<u32, NoMemory>
        requires new { number_at self.old owner target ≡ None }
        requires owner { owner_place < self.old.places }
        requires target { target_place < self.old.places }
        ensures number { IfOk result (λ number. number ≡ length self.old.edges) }
        ensures ok { OnOk result (self.new ≡ record self.old {
          pairs = self.old.pairs ++ (owner, target) ∷ [];
          edges = self.old.edges ++ record { owner = owner_place; target = target_place; count = pos 0 } ∷ [];
        }) }
        ensures err { OnErr result (self.new ≡ self.old) }
    {
        let number = self.edges.len();
        if number >= 4_294_967_295 {
            return Err(NoMemory);
        }
        let (from, to) = (owner_place as usize, target_place as usize);
        if reserve(&mut self.edges, &mut self.places, from, to).is_err() {
            return Err(NoMemory);
        }
        let number = number as u32;
        let is_far = are_full(&self.places[from], &self.places[to]);
        let put = self.far.push(owner_place, target_place, number, is_far);
        if put.is_err() {
            return Err(NoMemory);
        }
        let edge = Edge {
            owner: owner_place,
            target: target_place,
            count: 0,
        };
        self.edges.push(owner, target, edge);
        let (leaves, comes) = ((target_place, number), (owner_place, number));
        self.places[from].push_from(leaves);
        self.places[to].push_to(comes);
        self.by_owner
            .grow(owner_place, self.places[from].from(), leaves, &self.edges);
        self.by_target
            .grow(target_place, self.places[to].to(), comes, &self.edges);
        Ok(number)
    }

    /// The last edge is taken away. Logarithmic time.
    pub fn remove_last_edge(&mut self)
        requires { 0 < length self.old.edges }
        ensures { let kept = length self.old.edges - 1 in self.new ≡ record self.old {
          pairs = take kept self.old.pairs;
          edges = take kept self.old.edges;
        } }
    {
        if let Some(edge) = self.edges.pop() {
            let number = self.edges.len() as u32;
            self.far.remove(edge.owner, edge.target, number);
            self.places[edge.owner as usize].pop_from();
            self.places[edge.target as usize].pop_to();
            self.by_owner.forget(edge.owner);
            self.by_target.forget(edge.target);
        }
    }

    /// What is kept of the edge with this number.
    pub fn edge(&self, number: u32) -> Edge
        requires { number < length self.now.edges }
        ensures edge { result ≡ edge_at self.now number }
        ensures owner { result.owner < self.now.places }
        ensures target { result.target < self.now.places }
    {
        self.edges.get(number as usize)
    }

    /// So many more references are given along the edge. Constant time, or logarithmic time where it becomes positive.
    pub fn give(&mut self, number: u32, count: u32)
        requires some { number < length self.old.edges }
        requires fits { ((edge_at self.old number).count +ℤ pos count) <ℤ pos (2 ^ 63) }
        ensures { self.new ≡ with_edge self.old number (with_given count (edge_at self.old number)) }
    {
        let mut edge = self.edges.get(number as usize);
        edge.count += i64::from(count);
        self.write(number, edge);
    }

    /// So many more references are released along the edge, or as many of those that were given are taken back. Constant time, or
    /// logarithmic time where it is positive no longer.
    pub fn release(&mut self, number: u32, count: u32)
        requires some { number < length self.old.edges }
        requires fits { neg_ℤ (pos (2 ^ 63)) <ℤ ((edge_at self.old number).count -ℤ pos count) }
        ensures { self.new ≡ with_edge self.old number (with_released count (edge_at self.old number)) }
    {
        let mut edge = self.edges.get(number as usize);
        edge.count -= i64::from(count);
        self.write(number, edge);
    }

    /// This is kept of the edge from now on, which keeps its ends. Logarithmic time where it became positive or is it no longer,
    /// else constant time.
    #[inline(always)]
    fn write(&mut self, number: u32, edge: Edge)
        requires some { number < length self.old.edges }
        requires owner { edge.owner ≡ (edge_at self.old number).owner }
        requires target { edge.target ≡ (edge_at self.old number).target }
        ensures { self.new ≡ with_edge self.old number edge }
    {
        let old = self.edges.get(number as usize);
        self.edges.set(number as usize, edge);
        let counts = is_positive(edge);
        if is_positive(old) == counts {
            return;
        }
        let from = self.places[edge.owner as usize].from();
        self.by_owner.set(edge.owner, from, number, counts);
        let to = self.places[edge.target as usize].to();
        self.by_target.set(edge.target, to, number, counts);
    }

    /// The edges from the place, of each the place of its target and its number. The numbers rise.
    pub fn edges_from(&self, place: u32) -> &[(u32, u32)]
        requires { place < self.now.places }
        ensures ends { result.now ≡ ends_from self.now.edges place }
        ensures few { length result.now < 2 ^ 32 }
    {
        self.places[place as usize].from()
    }

    /// The edges to the place, of each the place of its owner and its number. The numbers rise.
    pub fn edges_to(&self, place: u32) -> &[(u32, u32)]
        requires { place < self.now.places }
        ensures ends { result.now ≡ ends_to self.now.edges place }
        ensures few { length result.now < 2 ^ 32 }
    {
        self.places[place as usize].to()
    }

    /// The positive edges from the place, whose count is above 0, of each the place of its target and its number. If the place has
    /// more than 128 edges there is no other, as long as there was memory to keep them apart; else there may be others of its edges.
    /// Constant time.
    pub fn positive_from(&self, place: u32) -> &[(u32, u32)]
        requires { place < self.now.places }
        ensures { ArePositive (λ e. e.owner) (λ e. e.target) self.now.edges place result.now }
    {
        let ends = self.edges_from(place);
        if ends.len() <= MANY {
            return ends;
        }
        match self.by_owner.positive(place) {
            Some(positive) => positive,
            None => ends,
        }
    }

    /// The positive edges to the place, of each the place of its owner and its number, as `positive_from` says it of those from it.
    pub fn positive_to(&self, place: u32) -> &[(u32, u32)]
        requires { place < self.now.places }
        ensures { ArePositive (λ e. e.target) (λ e. e.owner) self.now.edges place result.now }
    {
        let ends = self.edges_to(place);
        if ends.len() <= MANY {
            return ends;
        }
        match self.by_target.positive(place) {
            Some(positive) => positive,
            None => ends,
        }
    }
}

/// Whether an edge from the one place to the other, if it comes last, is one of the first in neither list.
fn are_full(from: &Ends, to: &Ends) -> bool
    ensures { Decides result ((NEAR ≤ length from.now.from) × (NEAR ≤ length to.now.to)) }
{
    from.from().len() >= NEAR && to.to().len() >= NEAR
}

/// Room for one more edge, also from the one place and to the other.
fn reserve(
    edges: &mut EdgeList,
    places: &mut Vec<Ends>,
    from: usize,
    to: usize,
) -> Result<(), NoMemory>
    requires from { from < length places.old.items }
    requires to { to < length places.old.items }
    ensures pairs { edges.new.pairs ≡ edges.old.pairs }
    ensures edges { edges.new.edges ≡ edges.old.edges }
    ensures places { HaveSameLists places.old.items places.new.items }
    ensures ok { OnOk result (HasRoom edges.new.room places.new.items from to) }
{
    edges.reserve()?;
    places[from].reserve_from()?;
    places[to].reserve_to()
}
