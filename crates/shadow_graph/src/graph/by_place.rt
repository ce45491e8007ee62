//! The edges of a shadow graph by the places of its actors.
ghost use Rattle.std.specs.Prelude.{◌≡◌, ◌<◌, ◌≤◌, if◌then◌else◌, IfNone, IfSome, length, slice_index};
ghost use Rattle.edge_table.specs.Table.{ArePositive, edge_at, no_edge};
ghost use Rattle.shadow_table.specs.Shadows.{shadow_at};
ghost use Rattle.shadow_rows.specs.Pairs.{edge_between};
ghost use Rattle.shadow_graph.specs.Places.{actor_of, owners_of, targets_of};
ghost use Rattle.shadow_graph.specs.Seen.{is_dropped, seen_edge};
ghost use Rattle.shadow_rows.specs.Tabled.{pair_at};

use super::ShadowGraph;
use edge_table::Edge;
use shadow_table::Shadow;

impl ShadowGraph {
    /// The shadow of the actor at the place, whether it was dropped or not. Constant time.
    pub fn shadow(&self, place: u32) -> Shadow
        requires { place < length self.now.shadows.names }
        ensures value { result ≡ shadow_at self.now.shadows (actor_of self.now place) }
        ensures told { result.told ≤ 4611686018427387904 }
        ensures admitted { result.admitted ≤ 4611686018427387904 }
    {
        let _names = self.shadows.place_count();
        self.shadows.shadow(place)
    }

    /// How many targets rows named with the actor at the place as owner. Constant time.
    pub fn edge_count(&self, place: u32) -> u32
        requires { place < length self.now.shadows.names }
        ensures { result ≡ length (targets_of self.now place) }
    {
        self.edges.edges_from(place).len() as u32
    }

    /// The place of a target of the actor at the place, in the order in which rows named them, and the value of `edge` for both,
    /// which may be 0 or below. Constant time.
    pub fn edge_at(&self, place: u32, index: u32) -> (u32, i64)
        requires place { place < length self.now.shadows.names }
        requires index { index < length (targets_of self.now place) }
        ensures target { result.0 ≡ slice_index (targets_of self.now place) index }
        ensures within { result.0 < length self.now.shadows.names }
        ensures value { result.1 ≡ (seen_edge self.now (actor_of self.now place) (actor_of self.now result.0)).count }
    {
        let (_, number) = self.edges.edges_from(place)[index as usize];
        let edge = self.numbered(number);
        (edge.target, self.value(edge.target, edge))
    }

    /// How many owners rows named with the actor at the place as target. Constant time.
    pub fn owner_count(&self, place: u32) -> u32
        requires { place < length self.now.shadows.names }
        ensures { result ≡ length (owners_of self.now place) }
    {
        self.edges.edges_to(place).len() as u32
    }

    /// The place of an owner of references to the actor at the place, in the order in which rows named them, and the value of
    /// `edge` for both, which may be 0 or below. Constant time.
    pub fn owner_at(&self, place: u32, index: u32) -> (u32, i64)
        requires place { place < length self.now.shadows.names }
        requires index { index < length (owners_of self.now place) }
        ensures owner { result.0 ≡ slice_index (owners_of self.now place) index }
        ensures within { result.0 < length self.now.shadows.names }
        ensures value { result.1 ≡ (seen_edge self.now (actor_of self.now result.0) (actor_of self.now place)).count }
    {
        let (_, number) = self.edges.edges_to(place)[index as usize];
        let edge = self.numbered(number);
        (edge.owner, self.value(edge.target, edge))
    }

    /// The positive edges from the actor at the place, whose count is above 0, whether the target was dropped or not: the place of
    /// the target and the number of each. There may be others of its edges among them, as `EdgeTable::positive_from` says. Constant
    /// time, or logarithmic time where more than 128 edges lead from it.
    pub fn positive_from(&self, place: u32) -> &[(u32, u32)]
        requires { place < length self.now.shadows.names }
        ensures { ArePositive (λ e. e.owner) (λ e. e.target) self.now.edges.edges place result.now }
    {
        self.edges.positive_from(place)
    }

    /// The positive edges to the actor at the place, whether it was dropped or not: the place of the owner and the number of each, as
    /// `positive_from` says it of those from it.
    pub fn positive_to(&self, place: u32) -> &[(u32, u32)]
        requires { place < length self.now.shadows.names }
        ensures { ArePositive (λ e. e.target) (λ e. e.owner) self.now.edges.edges place result.now }
    {
        self.edges.positive_to(place)
    }

    /// The places of the owner and of the target of the edge with this number, and the value of `edge` for both; None exactly where
    /// there is no such edge. Constant time.
    pub fn edge_numbered(&self, number: u32) -> Option<(u32, u32, i64)>
        ensures there { IfSome result (λ r. number < length self.now.edges.edges) }
        ensures owner { IfSome result (λ r. r.0 ≡ (edge_at self.now.edges number).owner) }
        ensures target { IfSome result (λ r. r.1 ≡ (edge_at self.now.edges number).target) }
        ensures owner_within { IfSome result (λ r. r.0 < length self.now.shadows.names) }
        ensures target_within { IfSome result (λ r. r.1 < length self.now.shadows.names) }
        ensures value { IfSome result (λ r. r.2 ≡ (seen_edge self.now (actor_of self.now r.0) (actor_of self.now r.1)).count) }
        ensures none { IfNone result (length self.now.edges.edges ≤ number) }
    {
        if number >= self.edges.edge_count() {
            return None;
        }
        let edge = self.numbered(number);
        Some((edge.owner, edge.target, self.value(edge.target, edge)))
    }

    /// What is kept of the edge with this number, which is what is kept of the actors at its ends.
    pub(super) fn numbered(&self, number: u32) -> Edge
        requires { number < length self.now.edges.edges }
        ensures edge { result ≡ edge_at self.now.edges number }
        ensures owner { result.owner < length self.now.shadows.names }
        ensures target { result.target < length self.now.shadows.names }
        ensures pair { pair_at self.now.edges.pairs number ≡ (actor_of self.now result.owner, actor_of self.now result.target) }
        ensures between { edge_between self.now.edges (actor_of self.now result.owner) (actor_of self.now result.target) ≡ result }
    {
        let _names = self.shadows.place_count();
        let _pairs = self.edges.edge_count();
        self.edges.edge(number)
    }

    /// The count of the edge to the actor at the place; 0 where this was dropped.
    fn value(&self, target: u32, edge: Edge) -> i64
        requires { target < length self.now.shadows.names }
        ensures { result ≡ (if is_dropped self.now (actor_of self.now target) then no_edge else edge).count }
    {
        let _names = self.shadows.place_count();
        if edge.count == 0 {
            return 0;
        }
        if self.shadows.shadow(target).dropped {
            return 0;
        }
        edge.count
    }
}
