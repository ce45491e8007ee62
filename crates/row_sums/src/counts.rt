//! Rows that count actors.
ghost use Rattle.std.specs.Prelude.{◌≡◌, ◌+◌, ◌<◌, ◌^◌, if◌then◌else◌, min};
ghost use Rattle.std.specs.List.{AllByRecursion};
ghost use Rattle.std.specs.List.Sorted.{IsPermutation, IsSortedBy};
ghost use Rattle.std.specs.Ordering.{is_lt};
ghost use Rattle.crgc_ids.specs.Actor.{Actor, IsActorBelow, same_actor};
ghost use Rattle.crgc_ids.specs.Rising.{IsRising};
ghost use Rattle.row_sums.specs.Orders.{compare_actors};
ghost use Rattle.row_sums.specs.Totals.{actor_total};

use crate::orders::compare_counts;
use crgc_ids::{ActorCount, ActorCounts};

/// The rows added up: they rise, those of one actor become one row, and each actor is counted as often as before. It always
/// succeeds. Time in proportion to n log m for n rows in m stretches that rise; where there is no memory for that, to n log n.
pub fn sum_of_counts(rows: Vec<ActorCount>) -> ActorCounts
    requires stand { AllByRecursion (λ r. 0 < r.count) rows.items }
    requires fits { (a : Actor) → actor_total a rows.items < 2 ^ 32 }
    ensures rise { IsRising (λ r s. IsActorBelow r.actor s.actor) result }
    ensures stand { AllByRecursion (λ r. 0 < r.count) result }
    ensures totals { (a : Actor) → actor_total a result ≡ actor_total a rows.items }
{
    let mut rows = rows;
    add_up_counts(&mut rows);
    ActorCounts::from_vec(rows)
}

/// Rows that count actors are added up in place. Time in proportion to n log m for n rows in m stretches that rise; where there is
/// no memory for that, to n log n.
pub fn add_up_counts(rows: &mut Vec<ActorCount>)
    requires stand { AllByRecursion (λ r. 0 < r.count) rows.old.items }
    requires fits { (a : Actor) → actor_total a rows.old.items < 2 ^ 32 }
    ensures rise { IsRising (λ r s. IsActorBelow r.actor s.actor) rows.new.items }
    ensures stand { AllByRecursion (λ r. 0 < r.count) rows.new.items }
    ensures totals { (a : Actor) → actor_total a rows.new.items ≡ actor_total a rows.old.items }
{
    sort_counts(rows);
    rows.dedup_by(|next, last| take_in_count(last, next));
}

/// The rows are sorted by their actors.
fn sort_counts(rows: &mut Vec<ActorCount>)
    ensures permutation { IsPermutation rows.old.items rows.new.items }
    ensures sorted { IsSortedBy (λ r s. is_lt (compare_actors r.actor s.actor)) rows.new.items }
{
    match rows.sort_by(|r, s| compare_counts(r, s)) {
        Ok(()) => {}
        Err(_) => rows.sort_unstable_by(|r, s| compare_counts(r, s)),
    }
}

/// Whether the next row counts the actor of the last one, whose count then takes in the next one's.
fn take_in_count(last: &mut ActorCount, next: &ActorCount) -> bool
    ensures same { result ≡ same_actor last.old.actor next.now.actor }
    ensures sum { last.new ≡ (if result then record last.old { count = min (last.old.count + next.now.count) 4294967295 } else last.old) }
{
    let same = last.actor == next.actor;
    if same {
        // where the totals fit, nothing is cut off
        last.count = last.count.saturating_add(next.count);
    }
    same
}
