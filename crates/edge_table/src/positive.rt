//! The positive edges of places that have many edges.
ghost use Rattle.std.specs.Prelude.{◌≡◌, ◌≢◌, ◌<◌, ◌^◌, ◌++◌, ℕ, Bool, List, true, false, None, Some, [], ◌∷◌, IfOk, IfSome, length, take};
ghost use Rattle.crgc_ids.specs.Members.{IsAmong};
ghost use Rattle.edge_table.specs.Partition.{AreRising, CountsAt, IsKeptOf, IsParted, Parted, kept_of, numbers_in};
ghost use Rattle.edge_table.specs.Table.{is_positive, is_positive_at};

use crate::edge_list::EdgeList;
use crate::pages::Pages;
use crate::partition::Partition;
use crate::table::Edge;
use crgc_ids::NoMemory;
use std::alloc::Global;
use std::marker::Model;

/// How many edges a place may have at an end before its positive ones are kept apart.
pub const MANY: usize = 128;

/// For places that have more than 128 edges at one end, these edges, the positive first, each by the place of its other end and its
/// number. Nothing is kept of a place that has fewer edges or for which there was no memory. Contracts see what is kept of each place.
#[derive(Drop)]
pub struct PositiveEdges {
    alloc: Global,
    places: Pages,
}

impl Model for PositiveEdges {
    ghost use Rattle.edge_table.specs.Partition.{Kept};

    ghost Value = { Kept };

    ghost view = { λ p. p.places };
}

impl PositiveEdges {
    /// No place.
    pub fn new(alloc: Global) -> PositiveEdges
        ensures { result ≡ [] }
    {
        PositiveEdges {
            alloc,
            places: Pages::new(alloc),
        }
    }

    /// The place has these edges, the last of which is new and not positive. Where there is no memory for it, nothing is kept of the
    /// place. Amortized constant time, or linear time in these edges where they are more than 128 and nothing was kept of the place;
    /// and linear time in the place where it is the first so high.
    #[inline(always)]
    pub fn grow(&mut self, place: u32, ends: &[(u32, u32)], end: (u32, u32), edges: &EdgeList)
        requires rising { AreRising (numbers_in ends.now) }
        requires few { length ends.now < 2 ^ 32 }
        requires within { (n : ℕ) → IsAmong n (numbers_in ends.now) → n < length edges.now.edges }
        requires free { is_positive_at edges.now.edges end.1 ≡ false }
        requires kept { (before : List (ℕ × ℕ)) × (ends.now ≡ before ++ end ∷ [])
            × IsKeptOf before (is_positive_at edges.now.edges) (kept_of self.old place) }
        ensures kept { IsKeptOf ends.now (is_positive_at edges.now.edges) (kept_of self.new place) }
        ensures others { (p : ℕ) → p ≢ place → kept_of self.new p ≡ kept_of self.old p }
    {
        if ends.len() <= MANY {
            return;
        }
        if self.push(place, end) {
            return;
        }
        if let Ok(partition) = partition_of(self.alloc, ends, edges) {
            self.places.put(place, partition);
        }
    }

    /// The edge, which does not count, comes last in what is kept of the place. False where nothing is kept of it, or no longer,
    /// for want of memory.
    #[inline(always)]
    fn push(&mut self, place: u32, end: (u32, u32)) -> bool
        requires { (before : List (ℕ × ℕ)) × (counts : ℕ → Bool) × (length before < 2 ^ 32) × IsKeptOf before counts (kept_of self.old place) }
        ensures pushed { result ≡ true → (before : List (ℕ × ℕ)) (counts : ℕ → Bool) → counts end.1 ≡ false
            → IsKeptOf before counts (kept_of self.old place) → IsKeptOf (before ++ end ∷ []) counts (kept_of self.new place) }
        ensures none { result ≡ false → kept_of self.new place ≡ None }
        ensures others { (p : ℕ) → p ≢ place → kept_of self.new p ≡ kept_of self.old p }
    {
        let Some(partition) = self.places.get_mut(place) else {
            return false;
        };
        if partition.push(end).is_ok() {
            return true;
        }
        self.forget(place);
        false
    }

    /// Nothing is kept of the place from now on. Constant time.
    pub fn forget(&mut self, place: u32)
        ensures none { kept_of self.new place ≡ None }
        ensures others { (p : ℕ) → p ≢ place → kept_of self.new p ≡ kept_of self.old p }
    {
        self.places.clear(place);
    }

    /// The edge with this number, which is one of these of the place, is positive from now on, or is not. Constant time where these
    /// are few or it is the last of them, else logarithmic time.
    #[inline(always)]
    pub fn set(&mut self, place: u32, ends: &[(u32, u32)], number: u32, counts: bool)
        requires rising { AreRising (numbers_in ends.now) }
        requires among { IsAmong number (numbers_in ends.now) }
        requires few { length ends.now < 2 ^ 32 }
        requires kept { (old : ℕ → Bool) × IsKeptOf ends.now old (kept_of self.old place) }
        ensures kept { (old new : ℕ → Bool) → CountsAt old new number counts → IsKeptOf ends.now old (kept_of self.old place)
            → IsKeptOf ends.now new (kept_of self.new place) }
        ensures others { (p : ℕ) → p ≢ place → kept_of self.new p ≡ kept_of self.old p }
    {
        if ends.len() <= MANY {
            return;
        }
        let Some(partition) = self.places.get_mut(place) else {
            return;
        };
        partition.set(ends, number, counts);
    }

    /// The positive edges of the place; None where nothing is kept of it. Constant time.
    pub fn positive(&self, place: u32) -> Option<&[(u32, u32)]>
        requires { (ends : List (ℕ × ℕ)) × (counts : ℕ → Bool) × IsKeptOf ends counts (kept_of self.now place) }
        ensures { IfSome result (λ ends. (s : Parted) × (kept_of self.now place ≡ Some s) × (ends.now ≡ take s.front s.order)) }
    {
        match self.places.get(place) {
            Some(partition) => Some(partition.front()),
            None => None,
        }
    }
}

/// Whether the edge has a count above 0.
pub fn is_positive(edge: Edge) -> bool
    ensures { result ≡ is_positive edge }
{
    edge.count > 0
}

/// The edges of the list, of which the positive count. Linear time.
fn partition_of(alloc: Global, ends: &[(u32, u32)], edges: &EdgeList) -> Result<Partition, NoMemory>
    requires rising { AreRising (numbers_in ends.now) }
    requires few { length ends.now < 2 ^ 32 }
    requires within { (n : ℕ) → IsAmong n (numbers_in ends.now) → n < length edges.now.edges }
    ensures { IfOk result (λ s. IsParted ends.now (is_positive_at edges.now.edges) s) }
{
    let mut partition = partition_of_none(alloc, ends)?;
    for i in 0..ends.len() {
        let counts = is_positive(edges.get(ends[i].1 as usize));
        partition.set_at(i, counts);
    }
    Ok(partition)
}

/// The edges of the list, of which none counts. Linear time.
fn partition_of_none(alloc: Global, ends: &[(u32, u32)]) -> Result<Partition, NoMemory>
    requires { length ends.now < 2 ^ 32 }
    ensures { IfOk result (λ s. IsParted ends.now (λ n. false) s) }
{
    let mut partition = Partition::new(alloc);
    for i in 0..ends.len() {
        partition.push(ends[i])?;
    }
    Ok(partition)
}
