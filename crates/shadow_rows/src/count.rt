//! What a bulletin counts of messages and references.
ghost use Rattle.std.specs.Prelude.{◌≡◌, ◌+◌, ◌<◌, ◌^◌, ◌+ℤ◌, ◌<ℤ◌, if◌then◌else◌, pos, true};
ghost use Rattle.std.specs.List.{AllByRecursion};
ghost use Rattle.crgc_ids.specs.Actor.{Actor};
ghost use Rattle.history_model.specs.Ledgers.{actor_total, pair_total};
ghost use Rattle.shadow_table.specs.Shadows.{ChangesShadows, is_named, shadow_at, with_admitted, with_told};
ghost use Rattle.edge_table.specs.Table.{with_given};
ghost use Rattle.shadow_rows.specs.Pairs.{ChangesEdges, edge_between};
ghost use Rattle.shadow_rows.specs.Tabled.{AreNumbered};

use crate::edges::give_all;
use crgc_ids::{ActorCount, PairCount};
use edge_table::EdgeTable;
use shadow_table::ShadowTable;

/// Where it counts, the messages of the rows are told and the references are given, along the edges with these numbers. Linear
/// time in the number of rows.
pub fn count_told(
    shadows: &mut ShadowTable,
    edges: &mut EdgeTable,
    sent: &[ActorCount],
    created: &[PairCount],
    numbers: &[u32],
    counts: bool,
)
    requires named { AllByRecursion (λ r. is_named shadows.old.names r.actor ≡ true) sent.now }
    requires numbered { AreNumbered edges.old created.now numbers.now }
    requires told_fits { (a : Actor) → (shadow_at shadows.old a).told + actor_total a sent.now < 2 ^ 64 }
    requires given_fits { (b a : Actor) → ((edge_between edges.old b a).count +ℤ pos (pair_total b a created.now)) <ℤ pos (2 ^ 63) }
    ensures shadows { ChangesShadows shadows.old shadows.new (λ a s. with_told (if counts then actor_total a sent.now else 0) s) }
    ensures edges { ChangesEdges edges.old edges.new (λ b a e. with_given (if counts then pair_total b a created.now else 0) e) }
{
    if !counts {
        return;
    }
    shadows.tell_all(sent);
    give_all(edges, created, numbers);
}

/// Where it counts, the messages of the rows are admitted and the references are given, along the edges with these numbers.
/// Linear time in the number of rows.
pub fn count_admitted(
    shadows: &mut ShadowTable,
    edges: &mut EdgeTable,
    messages: &[ActorCount],
    carried: &[PairCount],
    numbers: &[u32],
    counts: bool,
)
    requires named { AllByRecursion (λ r. is_named shadows.old.names r.actor ≡ true) messages.now }
    requires numbered { AreNumbered edges.old carried.now numbers.now }
    requires admitted_fits { (a : Actor) → (shadow_at shadows.old a).admitted + actor_total a messages.now < 2 ^ 64 }
    requires given_fits { (b a : Actor) → ((edge_between edges.old b a).count +ℤ pos (pair_total b a carried.now)) <ℤ pos (2 ^ 63) }
    ensures shadows { ChangesShadows shadows.old shadows.new (λ a s. with_admitted (if counts then actor_total a messages.now else 0) s) }
    ensures edges { ChangesEdges edges.old edges.new (λ b a e. with_given (if counts then pair_total b a carried.now else 0) e) }
{
    if !counts {
        return;
    }
    shadows.admit_all(messages);
    give_all(edges, carried, numbers);
}
