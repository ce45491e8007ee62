//! What one place stands on, and what hangs on it.
ghost use Rattle.std.specs.Prelude.{◌≡◌, ◌⊎◌, ◌<◌, ◌≤◌, ◌↔◌, ℕ, true, None, Some, IfNone, IfSome, IsTrue, length};
ghost use Rattle.place_marks.specs.Graph.{IsGraph, IsStep};
ghost use Rattle.kept_marks.specs.PlaceSet.{has_place};
ghost use Rattle.kept_marks.specs.Kept.{AddsTargets, IsSupport, IsUnsupported, support_of};

use crate::place_set::PlaceSet;
use place_marks::PlaceGraph;

/// Whether the mark of the place stands: it has a support, which can support it. The edge from an owner is looked for only under
/// this number, so where it has another one the answer is no. Constant time.
pub fn stands<G: PlaceGraph>(graph: &G, supports: &[Option<u32>], place: u32, edge: u32) -> bool
    requires room { (G.graph graph.now).places ≤ length supports.now }
    requires place { place < (G.graph graph.now).places }
    requires within { (b : ℕ) → support_of supports.now place ≡ Some b → b < (G.graph graph.now).places }
    ensures { IsTrue result → (b : ℕ) → support_of supports.now place ≡ Some b → IsSupport (G.graph graph.now) supports.now place b }
{
    let Some(support) = supports[place as usize] else {
        return false;
    };
    if support == place {
        return graph.is_start(place);
    }
    if supports[support as usize].is_none() {
        return false;
    }
    leads(graph, edge, support, place)
}

/// Whether the edge with this number is positive and leads from the owner to the place.
fn leads<G: PlaceGraph>(graph: &G, edge: u32, owner: u32, place: u32) -> bool
    ensures { IsTrue result → IsStep (G.graph graph.now) owner place }
{
    match graph.step(edge) {
        Some((from, to)) => from == owner && to == place,
        None => false,
    }
}

/// What can support the place, which is not marked: the place itself, if it is a start, or else the first owner that is marked
/// and has a positive edge to it, beside the number of that edge; None exactly where nothing can. It looks at those edges alone
/// whose owners are marked. Linear time in the number of edges to the place.
pub fn find_support<G: PlaceGraph>(
    graph: &G,
    supports: &[Option<u32>],
    place: u32,
) -> Option<(u32, u32)>
    requires whole { IsGraph (G.graph graph.now) }
    requires room { (G.graph graph.now).places ≤ length supports.now }
    requires place { place < (G.graph graph.now).places }
    requires free { support_of supports.now place ≡ None }
    ensures some { IfSome result (λ s. IsSupport (G.graph graph.now) supports.now place s.0) }
    ensures within { IfSome result (λ s. s.0 < (G.graph graph.now).places) }
    ensures none { IfNone result (IsUnsupported (G.graph graph.now) supports.now place) }
{
    if graph.is_start(place) {
        return Some((place, 0));
    }
    let ends = graph.edges_to(place);
    for &(owner, number) in ends {
        if supports[owner as usize].is_some() && graph.step(number).is_some() {
            return Some((owner, number));
        }
    }
    None
}

/// The places to which positive edges lead from the place, and of which this is the support, are in the set too. It looks at
/// those edges alone whose targets have this support and are not in the set yet. Linear time in the number of edges from the
/// place.
pub fn put_targets<G: PlaceGraph>(
    graph: &G,
    supports: &[Option<u32>],
    set: &mut PlaceSet,
    place: u32,
    on: Option<u32>,
)
    requires whole { IsGraph (G.graph graph.now) }
    requires room { (G.graph graph.now).places ≤ length supports.now }
    requires set { length supports.now ≤ length set.old }
    requires place { place < (G.graph graph.now).places }
    ensures { AddsTargets (G.graph graph.now) supports.now set.old set.new place on }
{
    let ends = graph.edges_from(place);
    for &(target, number) in ends {
        let hangs = is_same(supports[target as usize], on);
        if hangs && !set.has(target) && graph.step(number).is_some() {
            set.put(target);
        }
    }
}

/// The places below the count are in the set too.
pub fn put_all(set: &mut PlaceSet, count: u32)
    requires { count ≤ length set.old }
    ensures room { length set.new ≡ length set.old }
    ensures kept { (a : ℕ) → has_place set.old a ≡ true → has_place set.new a ≡ true }
    ensures added { (a : ℕ) → a < count → has_place set.new a ≡ true }
    ensures others { (a : ℕ) → has_place set.new a ≡ true → (has_place set.old a ≡ true) ⊎ (a < count) }
{
    for place in 0..count {
        set.put(place);
    }
}

/// Whether the two supports are the same.
fn is_same(first: Option<u32>, second: Option<u32>) -> bool
    ensures { IsTrue result ↔ (first ≡ second) }
{
    first == second
}
