//! Edges that are added, each with count 0.
ghost use Rattle.std.specs.Prelude.{◌≡◌, ◌∷◌, ◌<◌, ◌≤◌, ◌||◌, [], true, IfOk, OnOk, length, take};
ghost use Rattle.std.specs.List.{AllByRecursion, list_any, position_or_len};
ghost use Rattle.edge_table.specs.Table.{Edges, same_pair};
ghost use Rattle.crgc_ids.specs.Actor.{Actor, same_actor};
ghost use Rattle.history_model.specs.Ledgers.{pair_names};
ghost use Rattle.shadow_table.specs.Shadows.{first_of, is_named, place_in};
ghost use Rattle.shadow_rows.specs.Pairs.{has_pair};
ghost use Rattle.shadow_rows.specs.Rows.{NamesRows};
ghost use Rattle.shadow_rows.specs.Tabled.{AreCounts, AreNumbered, AreTabled, ExtendsEdges, ExtendsShadows, row_names};

use crate::names::{name, name_after, name_counts, name_states, named_in_pair};
use crate::row_numbers::RowNumbers;
use crgc_ids::{ActorCount, ActorId, NoMemory, PairCount};
use edge_table::EdgeTable;
use history_model::StateRow;
use shadow_table::ShadowTable;

/// The target is named, and the edge to it from the owner, who is named and has this place, is there; this is its number. After
/// `NoMemory` the target may be named. At most 2 * 8 looks at lists, and where that does not tell, logarithmic time; amortized.
fn add_pair(
    shadows: &mut ShadowTable,
    edges: &mut EdgeTable,
    owner: ActorId,
    target: ActorId,
    from: u32,
) -> Result<u32, NoMemory>
    requires tabled { AreTabled shadows.old.names edges.old }
    requires owner { is_named shadows.old.names owner ≡ true }
    requires from { from ≡ place_in shadows.old.names owner }
    ensures there { OnOk result (has_pair edges.new.pairs owner target ≡ true) }
    ensures number { IfOk result (λ number. number ≡ position_or_len (same_pair (owner, target)) edges.new.pairs) }
    ensures within { IfOk result (λ number. number < length edges.new.edges) }
    ensures named { OnOk result (NamesRows shadows.old.names shadows.new.names (target ∷ [])) }
    ensures tabled { OnOk result (AreTabled shadows.new.names edges.new) }
    ensures shadows { ExtendsShadows shadows.old shadows.new }
    ensures extends { ExtendsEdges edges.old edges.new }
    ensures places { edges.old.places ≤ edges.new.places }
{
    let to = name(shadows, edges, target)?;
    let _edges = edges.edge_count();
    if let Some(number) = edges.number_of(owner, target, from, to) {
        return Ok(number);
    }
    edges.add(owner, target, from, to)
}

/// The actors of the rows are named, and the edges between them are there; `numbers` has their numbers and nothing else. After
/// `NoMemory` some of them may be there. For each row at most 2 * 8 looks at lists, and where that does not tell, time logarithmic
/// in their number; amortized. Memory for numbers is taken only where there are more rows than room.
pub fn add_pairs(
    numbers: &mut Vec<u32>,
    shadows: &mut ShadowTable,
    edges: &mut EdgeTable,
    rows: &[PairCount],
) -> Result<(), NoMemory>
    requires tabled { AreTabled shadows.old.names edges.old }
    ensures ok { OnOk result (AreNumbered edges.new rows.now numbers.new.items) }
    ensures named { OnOk result (NamesRows shadows.old.names shadows.new.names (pair_names rows.now)) }
    ensures fits { OnOk result (AllByRecursion (λ r. r.count < 4294967296) rows.now) }
    ensures tabled { OnOk result (AreTabled shadows.new.names edges.new) }
    ensures shadows { ExtendsShadows shadows.old shadows.new }
    ensures extends { ExtendsEdges edges.old edges.new }
    ensures places { edges.old.places ≤ edges.new.places }
{
    numbers.clear();
    if numbers.reserve(rows.len()).is_err() {
        return Err(NoMemory);
    }
    let mut last = None;
    for row in rows {
        let (owner, target) = named_in_pair(*row);
        let from = name_after(shadows, edges, last, owner)?;
        last = Some((owner, from));
        let number = add_pair(shadows, edges, owner, target, from)?;
        numbers.push_reserved(number);
    }
    Ok(())
}

/// Only the first so many edges stay.
pub fn cut_back_edges(edges: &mut EdgeTable, count: u32)
    ensures pairs { edges.new.pairs ≡ take count edges.old.pairs }
    ensures edges { edges.new.edges ≡ take count edges.old.edges }
    ensures places { edges.new.places ≡ edges.old.places }
{
    while edges.edge_count() > count {
        edges.remove_last_edge();
    }
}

/// The actors that the rows name are named, in the order of the rows, and the pairs of the rows are there; `numbers` has the
/// numbers of their edges. After `NoMemory` some of them may be there. Time in proportion to the number of rows, and
/// logarithmic in the number of edges for each.
pub fn grow(
    numbers: &mut RowNumbers,
    shadows: &mut ShadowTable,
    edges: &mut EdgeTable,
    states: &[StateRow],
    sent: &[ActorCount],
    created: &[PairCount],
    released: &[PairCount],
) -> Result<(), NoMemory>
    requires tabled { AreTabled shadows.old.names edges.old }
    ensures named { OnOk result ((a : Actor) → is_named shadows.new.names a
        ≡ (is_named shadows.old.names a || list_any (same_actor a) (row_names states.now sent.now created.now released.now))) }
    ensures fits { OnOk result (AreCounts states.now sent.now created.now released.now) }
    ensures created { OnOk result (AreNumbered edges.new created.now numbers.new.created.items) }
    ensures released { OnOk result (AreNumbered edges.new released.now numbers.new.released.items) }
    ensures tabled { OnOk result (AreTabled shadows.new.names edges.new) }
    ensures shadows { ExtendsShadows shadows.old shadows.new }
    ensures edges { ExtendsEdges edges.old edges.new }
    ensures places { edges.old.places ≤ edges.new.places }
{
    name_states(shadows, edges, states)?;
    name_counts(shadows, edges, sent)?;
    add_pairs(&mut numbers.created, shadows, edges, created)?;
    add_pairs(&mut numbers.released, shadows, edges, released)?;
    Ok(())
}

/// Only the first so many places and edges stay.
pub fn cut_back(shadows: &mut ShadowTable, edges: &mut EdgeTable, places: u32, count: u32)
    ensures shadows { shadows.new ≡ first_of places shadows.old }
    ensures pairs { edges.new.pairs ≡ take count edges.old.pairs }
    ensures edges { edges.new.edges ≡ take count edges.old.edges }
    ensures places { edges.new.places ≡ edges.old.places }
{
    shadows.cut_back(places);
    cut_back_edges(edges, count);
}
