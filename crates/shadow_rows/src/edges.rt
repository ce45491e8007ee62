//! Edges by the pair of their owner and their target.
ghost use Rattle.std.specs.Prelude.{◌≡◌, ◌<◌, ◌^◌, ◌+ℤ◌, ◌-ℤ◌, ◌<ℤ◌, neg_ℤ, pos, true, IfSome, length};
ghost use Rattle.std.specs.List.{IsDistinct, position_or_len};
ghost use Rattle.crgc_ids.specs.Actor.{Actor};
ghost use Rattle.history_model.specs.Ledgers.{pair_total};
ghost use Rattle.edge_table.specs.Table.{number_at, same_pair, with_given, with_released};
ghost use Rattle.shadow_rows.specs.Pairs.{ChangesEdge, ChangesEdges, edge_between, has_pair};
ghost use Rattle.shadow_rows.specs.Tabled.{AreNumbered, AreTabled};

use crgc_ids::{ActorId, PairCount};
use edge_table::EdgeTable;
use shadow_table::ShadowTable;

/// The number of the edge from the owner to the target; None exactly where there is none. At most 2 * 8 looks at lists, and where
/// that does not tell, logarithmic time.
pub fn number_of(
    shadows: &ShadowTable,
    edges: &EdgeTable,
    owner: ActorId,
    target: ActorId,
) -> Option<u32>
    requires { AreTabled shadows.now.names edges.now }
    ensures number { result ≡ number_at edges.now owner target }
    ensures within { IfSome result (λ number. number < length edges.now.edges) }
    ensures distinct { IsDistinct same_pair edges.now.pairs }
    ensures long { length edges.now.edges ≡ length edges.now.pairs }
{
    let _edges = edges.edge_count();
    let from = shadows.place_of(owner)?;
    let to = shadows.place_of(target)?;
    edges.number_of(owner, target, from, to)
}

/// The number of an edge that is there.
fn number(shadows: &ShadowTable, edges: &EdgeTable, owner: ActorId, target: ActorId) -> u32
    requires tabled { AreTabled shadows.now.names edges.now }
    requires there { has_pair edges.now.pairs owner target ≡ true }
    ensures number { result ≡ position_or_len (same_pair (owner, target)) edges.now.pairs }
    ensures within { result < length edges.now.edges }
    ensures long { length edges.now.edges ≡ length edges.now.pairs }
{
    number_of(shadows, edges, owner, target).unwrap()
}

/// So many more references to the target are given to the owner.
pub fn give(
    shadows: &ShadowTable,
    edges: &mut EdgeTable,
    owner: ActorId,
    target: ActorId,
    count: u32,
)
    requires tabled { AreTabled shadows.now.names edges.old }
    requires there { has_pair edges.old.pairs owner target ≡ true }
    requires fits { ((edge_between edges.old owner target).count +ℤ pos count) <ℤ pos (2 ^ 63) }
    ensures { ChangesEdge edges.old edges.new owner target (with_given count) }
{
    let number = number(shadows, edges, owner, target);
    edges.give(number, count);
}

/// So many of the references to the target that the owner was given are taken back.
pub fn take_back(
    shadows: &ShadowTable,
    edges: &mut EdgeTable,
    owner: ActorId,
    target: ActorId,
    count: u32,
)
    requires tabled { AreTabled shadows.now.names edges.old }
    requires there { has_pair edges.old.pairs owner target ≡ true }
    requires fits { neg_ℤ (pos (2 ^ 63)) <ℤ ((edge_between edges.old owner target).count -ℤ pos count) }
    ensures { ChangesEdge edges.old edges.new owner target (with_released count) }
{
    let number = number(shadows, edges, owner, target);
    edges.release(number, count);
}

/// The references that the row counts are given along its edge, which has this number.
fn give_row(edges: &mut EdgeTable, number: u32, row: PairCount)
    requires there { has_pair edges.old.pairs row.owner row.target ≡ true }
    requires number { number ≡ position_or_len (same_pair (row.owner, row.target)) edges.old.pairs }
    requires within { number < length edges.old.edges }
    requires fits { ((edge_between edges.old row.owner row.target).count +ℤ pos row.count) <ℤ pos (2 ^ 63) }
    ensures { ChangesEdge edges.old edges.new row.owner row.target (with_given row.count) }
{
    edges.give(number, row.count);
}

/// The references that the row counts are released along its edge, which has this number.
fn release_row(edges: &mut EdgeTable, number: u32, row: PairCount)
    requires there { has_pair edges.old.pairs row.owner row.target ≡ true }
    requires number { number ≡ position_or_len (same_pair (row.owner, row.target)) edges.old.pairs }
    requires within { number < length edges.old.edges }
    requires fits { neg_ℤ (pos (2 ^ 63)) <ℤ ((edge_between edges.old row.owner row.target).count -ℤ pos row.count) }
    ensures { ChangesEdge edges.old edges.new row.owner row.target (with_released row.count) }
{
    edges.release(number, row.count);
}

/// The references that the rows count are given along their edges, which have these numbers. Linear time in the number of rows.
pub fn give_all(edges: &mut EdgeTable, rows: &[PairCount], numbers: &[u32])
    requires numbered { AreNumbered edges.old rows.now numbers.now }
    requires fits { (b a : Actor) → ((edge_between edges.old b a).count +ℤ pos (pair_total b a rows.now)) <ℤ pos (2 ^ 63) }
    ensures { ChangesEdges edges.old edges.new (λ b a e. with_given (pair_total b a rows.now) e) }
{
    for i in 0..rows.len() {
        give_row(edges, numbers[i], rows[i]);
    }
}

/// The references that the rows count are released along their edges, which have these numbers. Linear time in the number of
/// rows.
pub fn release_all(edges: &mut EdgeTable, rows: &[PairCount], numbers: &[u32])
    requires numbered { AreNumbered edges.old rows.now numbers.now }
    requires fits { (b a : Actor) → neg_ℤ (pos (2 ^ 63)) <ℤ ((edge_between edges.old b a).count -ℤ pos (pair_total b a rows.now)) }
    ensures { ChangesEdges edges.old edges.new (λ b a e. with_released (pair_total b a rows.now) e) }
{
    for i in 0..rows.len() {
        release_row(edges, numbers[i], rows[i]);
    }
}
