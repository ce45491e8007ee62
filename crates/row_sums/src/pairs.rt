//! Rows that count pairs of an owner and a target.
ghost use Rattle.std.specs.Prelude.{◌≡◌, ◌+◌, ◌<◌, ◌^◌, ◌&&◌, if◌then◌else◌, min};
ghost use Rattle.std.specs.List.{AllByRecursion};
ghost use Rattle.std.specs.List.Sorted.{IsPermutation, IsSortedBy};
ghost use Rattle.std.specs.Ordering.{is_lt};
ghost use Rattle.crgc_ids.specs.Actor.{Actor, IsPairBelow, same_actor};
ghost use Rattle.crgc_ids.specs.Rising.{IsRising};
ghost use Rattle.row_sums.specs.Orders.{compare_pairs};
ghost use Rattle.row_sums.specs.Totals.{pair_total};

use crate::orders::compare_pairs;
use crgc_ids::{PairCount, PairCounts};

/// The rows added up: they rise, those of one pair become one row, and each pair is counted as often as before. It always
/// succeeds. Time in proportion to n log m for n rows in m stretches that rise; where there is no memory for that, to n log n.
pub fn sum_of_pairs(rows: Vec<PairCount>) -> PairCounts
    requires stand { AllByRecursion (λ r. 0 < r.count) rows.items }
    requires fits { (b a : Actor) → pair_total b a rows.items < 2 ^ 32 }
    ensures rise { IsRising (λ r s. IsPairBelow r.owner r.target s.owner s.target) result }
    ensures stand { AllByRecursion (λ r. 0 < r.count) result }
    ensures totals { (b a : Actor) → pair_total b a result ≡ pair_total b a rows.items }
{
    let mut rows = rows;
    add_up_pairs(&mut rows);
    PairCounts::from_vec(rows)
}

/// Rows that count pairs are added up in place. Time in proportion to n log m for n rows in m stretches that rise; where there is
/// no memory for that, to n log n.
pub fn add_up_pairs(rows: &mut Vec<PairCount>)
    requires stand { AllByRecursion (λ r. 0 < r.count) rows.old.items }
    requires fits { (b a : Actor) → pair_total b a rows.old.items < 2 ^ 32 }
    ensures rise { IsRising (λ r s. IsPairBelow r.owner r.target s.owner s.target) rows.new.items }
    ensures stand { AllByRecursion (λ r. 0 < r.count) rows.new.items }
    ensures totals { (b a : Actor) → pair_total b a rows.new.items ≡ pair_total b a rows.old.items }
{
    sort_pairs(rows);
    rows.dedup_by(|next, last| take_in_pair(last, next));
}

/// The rows are sorted by their owners, then by their targets.
fn sort_pairs(rows: &mut Vec<PairCount>)
    ensures permutation { IsPermutation rows.old.items rows.new.items }
    ensures sorted { IsSortedBy (λ r s. is_lt (compare_pairs (r.owner, r.target) (s.owner, s.target))) rows.new.items }
{
    match rows.sort_by(|r, s| compare_pairs(r, s)) {
        Ok(()) => {}
        Err(_) => rows.sort_unstable_by(|r, s| compare_pairs(r, s)),
    }
}

/// Whether the next row counts the pair of the last one, whose count then takes in the next one's.
fn take_in_pair(last: &mut PairCount, next: &PairCount) -> bool
    ensures same { result ≡ (same_actor last.old.owner next.now.owner && same_actor last.old.target next.now.target) }
    ensures sum { last.new ≡ (if result then record last.old { count = min (last.old.count + next.now.count) 4294967295 } else last.old) }
{
    let same = last.owner == next.owner && last.target == next.target;
    if same {
        // where the totals fit, nothing is cut off
        last.count = last.count.saturating_add(next.count);
    }
    same
}
