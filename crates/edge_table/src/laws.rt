//! Laws of the definitions. Each function does nothing, and its contract is the law.
ghost use Rattle.std.specs.Prelude.{◌≡◌, ◌<◌, ◌↔◌, ℕ, List, length, nat_eq, slice_index_or};
ghost use Rattle.std.specs.List.{IsDistinct};
ghost use Rattle.crgc_ids.specs.Members.{IsAmong};
ghost use Rattle.edge_table.specs.Table.{IsBetween, edges_from, edges_to, ends_from, ends_to, no_edge};
ghost use Rattle.edge_table.specs.declared.table.Edge.{Edge};

/// The edges from a place are those whose owner has it, and the edges to it those whose target has it, each once.
pub fn edges_are_listed_by_place()
    ensures from { (edges : List Edge) (place number : ℕ) → IsAmong number (edges_from edges place)
        ↔ ((number < length edges) × ((slice_index_or edges number no_edge).owner ≡ place)) }
    ensures to { (edges : List Edge) (place number : ℕ) → IsAmong number (edges_to edges place)
        ↔ ((number < length edges) × ((slice_index_or edges number no_edge).target ≡ place)) }
    ensures from_once { (edges : List Edge) (place : ℕ) → IsDistinct nat_eq (edges_from edges place) }
    ensures to_once { (edges : List Edge) (place : ℕ) → IsDistinct nat_eq (edges_to edges place) }
{}

/// With its other end, an edge from a place is listed there exactly if it leads from the one place to the other, and so is an edge to a
/// place.
pub fn ends_are_listed_by_place()
    ensures from { (edges : List Edge) (from to number : ℕ) → IsAmong (to, number) (ends_from edges from) ↔ IsBetween edges number from to }
    ensures to { (edges : List Edge) (from to number : ℕ) → IsAmong (from, number) (ends_to edges to) ↔ IsBetween edges number from to }
{}
