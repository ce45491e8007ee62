//! What becomes of the counts where a node is lost: what it told is taken back, and what others admitted from it is put in.
ghost use Rattle.std.specs.Prelude.{◌≡◌, ◌+◌, ◌<◌, ◌≤◌, ◌^◌, ◌+ℤ◌, ◌-ℤ◌, ◌<ℤ◌, ℕ, neg_ℤ, pos, true, Option, None, Some};
ghost use Rattle.std.specs.List.{AllByRecursion};
ghost use Rattle.crgc_ids.specs.Actor.{Actor};
ghost use Rattle.history_model.specs.Ledgers.{actor_total, pair_total};
ghost use Rattle.shadow_table.specs.Shadows.{ChangesShadows, is_named, shadow_at, without_told};
ghost use Rattle.shadow_rows.specs.Rows.{IsLogCovered, Settles};
ghost use Rattle.shadow_rows.specs.Losing.{Corrects, LosesNodes, gain_before};
ghost use Rattle.crgc_ids.specs.Members.{IsAmong};
ghost use Rattle.edge_table.specs.Table.{with_given, with_released};
ghost use Rattle.shadow_rows.specs.Pairs.{ChangesEdges, IsWithin, KeepsEnds, edge_between, has_pair};
ghost use Rattle.shadow_rows.specs.Tabled.{AreTabled};
ghost use Rattle.undo_log.specs.Told.{admitted_from, told_by};

use crate::edges;
use crgc_ids::{ActorCount, NodeId, NodeSet, PairCount};
use edge_table::EdgeTable;
use shadow_table::ShadowTable;
use undo_log::{Side, UndoLog};

/// The messages that the rows count are taken back, of those that were told. Linear time in the number of rows.
fn take_back_messages(shadows: &mut ShadowTable, rows: &[ActorCount])
    requires { AllByRecursion (λ r. is_named shadows.old.names r.actor ≡ true) rows.now }
    ensures { ChangesShadows shadows.old shadows.new (λ a s. without_told (actor_total a rows.now) s) }
{
    for row in rows {
        shadows.take_back(row.actor, u64::from(row.count));
    }
}

/// The references that the rows count are taken back, of those that were given. For each row at most 2 * 8 looks at lists, and
/// where that does not tell, time logarithmic in their number.
fn take_back_pairs(shadows: &ShadowTable, edges: &mut EdgeTable, rows: &[PairCount])
    requires tabled { AreTabled shadows.now.names edges.old }
    requires there { AllByRecursion (λ r. has_pair edges.old.pairs r.owner r.target ≡ true) rows.now }
    requires fits { (b a : Actor) → neg_ℤ (pos (2 ^ 63)) <ℤ ((edge_between edges.old b a).count -ℤ pos (pair_total b a rows.now)) }
    ensures { ChangesEdges edges.old edges.new (λ b a e. with_released (pair_total b a rows.now) e) }
{
    for row in rows {
        edges::take_back(shadows, edges, row.owner, row.target, row.count);
    }
}

/// The references that the rows count are given. For each row at most 2 * 8 looks at lists, and where that does not tell, time
/// logarithmic in their number.
fn put_in_pairs(shadows: &ShadowTable, edges: &mut EdgeTable, rows: &[PairCount])
    requires tabled { AreTabled shadows.now.names edges.old }
    requires there { AllByRecursion (λ r. has_pair edges.old.pairs r.owner r.target ≡ true) rows.now }
    requires fits { (b a : Actor) → ((edge_between edges.old b a).count +ℤ pos (pair_total b a rows.now)) <ℤ pos (2 ^ 63) }
    ensures { ChangesEdges edges.old edges.new (λ b a e. with_given (pair_total b a rows.now) e) }
{
    for row in rows {
        edges::give(shadows, edges, row.owner, row.target, row.count);
    }
}

/// The node is lost: what it told is taken back, and what others admitted from it is put in. For each row noted of the node time
/// logarithmic in the number of edges.
fn settle_node(shadows: &mut ShadowTable, edges: &mut EdgeTable, log: &UndoLog, node: NodeId)
    requires tabled { AreTabled shadows.old.names edges.old }
    requires covered { IsLogCovered shadows.old edges.old log.now }
    requires admitted_fits { (a : Actor) → (shadow_at shadows.old a).admitted + admitted_from log.now node None a < 2 ^ 64 }
    requires given_fits { (b a : Actor) → ((edge_between edges.old b a).count +ℤ pos (admitted_from log.now node (Some b) a)) <ℤ pos (2 ^ 63) }
    requires taken_fits { (b a : Actor) → neg_ℤ (pos (2 ^ 63)) <ℤ ((edge_between edges.old b a).count -ℤ pos (told_by log.now node (Some b) a)) }
    ensures settles { Settles node log.now shadows.old shadows.new edges.old edges.new }
    ensures names { shadows.new.names ≡ shadows.old.names }
    ensures ends { KeepsEnds edges.old edges.new }
{
    take_back_messages(shadows, log.messages(node, Side::Told));
    take_back_pairs(shadows, edges, log.pairs(node, Side::Told));
    shadows.admit_all(log.messages(node, Side::Admitted));
    put_in_pairs(shadows, edges, log.pairs(node, Side::Admitted));
}

/// Each node that is lost now and was not before is settled. For each row noted of these nodes time logarithmic in the number of
/// edges.
pub fn settle_lost(
    shadows: &mut ShadowTable,
    edges: &mut EdgeTable,
    log: &UndoLog,
    before: NodeSet,
    after: NodeSet,
)
    requires tabled { AreTabled shadows.old.names edges.old }
    requires covered { IsLogCovered shadows.old edges.old log.now }
    requires admitted_small { (a : Actor) → (shadow_at shadows.old a).admitted ≤ 4611686018427387904 }
    requires count_small { (b a : Actor) → IsWithin 4611686018427387904 (edge_between edges.old b a).count }
    requires told_small { (n : ℕ) (owner : Option Actor) (target : Actor) → told_by log.now n owner target ≤ 72057594037927936 }
    requires log_small { (n : ℕ) (owner : Option Actor) (target : Actor) → admitted_from log.now n owner target ≤ 72057594037927936 }
    ensures counts { LosesNodes log.now before after shadows.old shadows.new edges.old edges.new }
    ensures corrects { Corrects (gain_before before after 16) shadows.old shadows.new edges.old edges.new }
    ensures names { shadows.new.names ≡ shadows.old.names }
    ensures ends { KeepsEnds edges.old edges.new }
{
    for number in 0..16 {
        settle_if_new(shadows, edges, log, node(number), before, after);
    }
}

/// The node with this number.
fn node(number: u8) -> NodeId
    requires { number < 16 }
    ensures { result ≡ number }
{
    NodeId::new(number).unwrap()
}

/// The node is settled if it is lost now and was not before.
fn settle_if_new(
    shadows: &mut ShadowTable,
    edges: &mut EdgeTable,
    log: &UndoLog,
    node: NodeId,
    before: NodeSet,
    after: NodeSet,
)
    requires tabled { AreTabled shadows.old.names edges.old }
    requires covered { IsLogCovered shadows.old edges.old log.now }
    requires admitted_fits { (a : Actor) → (shadow_at shadows.old a).admitted + admitted_from log.now node None a < 2 ^ 64 }
    requires given_fits { (b a : Actor) → ((edge_between edges.old b a).count +ℤ pos (admitted_from log.now node (Some b) a)) <ℤ pos (2 ^ 63) }
    requires taken_fits { (b a : Actor) → neg_ℤ (pos (2 ^ 63)) <ℤ ((edge_between edges.old b a).count -ℤ pos (told_by log.now node (Some b) a)) }
    ensures settles { IsAmong node after → ¬ IsAmong node before → Settles node log.now shadows.old shadows.new edges.old edges.new }
    ensures was_before { IsAmong node before → (shadows.new ≡ shadows.old) × (edges.new ≡ edges.old) }
    ensures is_not_lost { ¬ IsAmong node after → (shadows.new ≡ shadows.old) × (edges.new ≡ edges.old) }
    ensures names { shadows.new.names ≡ shadows.old.names }
    ensures ends { KeepsEnds edges.old edges.new }
{
    if before.contains(node) {
        return;
    }
    if !after.contains(node) {
        return;
    }
    settle_node(shadows, edges, log, node);
}
