//! Rows that count what a node told and what others admitted from it.
ghost use Rattle.std.specs.Prelude.{◌≡◌, ◌+◌, ◌<◌, ◌&&◌, if◌then◌else◌, min};
ghost use Rattle.std.specs.List.{AllByRecursion};
ghost use Rattle.std.specs.List.Sorted.{IsPermutation, IsSortedBy};
ghost use Rattle.std.specs.Ordering.{is_lt};
ghost use Rattle.crgc_ids.specs.Actor.{same_actor};
ghost use Rattle.crgc_ids.specs.Rising.{IsRising};
ghost use Rattle.undo_log.specs.Keys.{IsKeyBelow, same_owner};
ghost use Rattle.undo_log.specs.Totals.{HaveRoom, HaveTotalsOf};
ghost use Rattle.std.specs.Option.{option_cmp};
ghost use Rattle.row_sums.specs.Orders as orders;
ghost use Rattle.undo_log.specs.Keys.{compare_keys};

use crgc_ids::{ActorId, RisingList, Row};
use row_sums::compare_actors;
use std::cmp::Ordering;

/// How often a node told something, and how often others admitted it from the node: without an owner the messages to the
/// target, with one the pairs of the two. Rows are ordered by owner, no owner first, then by target.
#[derive(Clone, Copy, PartialEq, Eq, PartialOrd, Ord, Debug)]
pub struct Correction {
    pub owner: Option<ActorId>,
    pub target: ActorId,
    pub told: u64,
    pub admitted: u64,
}

impl Row for Correction {
    ghost use Rattle.std.specs.Prelude.{◌+◌, ◌<◌};
    ghost use Rattle.undo_log.specs.Keys.{IsKeyBelow};

    ghost is_below = { λ r s. IsKeyBelow (r.owner, r.target) (s.owner, s.target) };

    ghost may_stand = { λ r. 0 < r.told + r.admitted };
}

/// All that a node told and that others admitted from it: one row for each thing, rising, and none with both numbers 0.
pub type Corrections = RisingList<Correction>;

/// Which of the two numbers of a row counts: what the node told, or what others admitted from it.
#[derive(Clone, Copy, PartialEq, Eq, Debug)]
pub enum Side {
    Told,
    Admitted,
}

/// The rows are sorted, and each takes in the later ones of its key. Time in proportion to n log m for n rows in m stretches that
/// rise; where there is no memory for that, to n log n.
pub fn add_up(rows: &mut Vec<Correction>)
    requires stand { AllByRecursion (λ r. 0 < r.told + r.admitted) rows.old.items }
    requires room { HaveRoom rows.old.items }
    ensures rise { IsRising (λ r s. IsKeyBelow (r.owner, r.target) (s.owner, s.target)) rows.new.items }
    ensures stand { AllByRecursion (λ r. 0 < r.told + r.admitted) rows.new.items }
    ensures totals { HaveTotalsOf rows.old.items rows.new.items }
{
    sort(rows);
    rows.dedup_by(|next, last| take_in(last, next));
}

/// The rows are sorted by their keys.
fn sort(rows: &mut Vec<Correction>)
    ensures permutation { IsPermutation rows.old.items rows.new.items }
    ensures sorted { IsSortedBy (λ r s. is_lt (compare_keys (r.owner, r.target) (s.owner, s.target))) rows.new.items }
{
    match rows.sort_by(|r, s| compare_keys(r, s)) {
        Ok(()) => {}
        Err(_) => rows.sort_unstable_by(|r, s| compare_keys(r, s)),
    }
}

/// Rows by owner, no owner first, then by target.
fn compare_keys(r: &Correction, s: &Correction) -> Ordering
    ensures { result ≡ compare_keys (r.now.owner, r.now.target) (s.now.owner, s.now.target) }
{
    compare_owners(r.owner, s.owner).then(compare_actors(r.target, s.target))
}

/// No owner before each owner, and owners by node, then by serial.
fn compare_owners(a: Option<ActorId>, b: Option<ActorId>) -> Ordering
    ensures { result ≡ option_cmp orders.compare_actors a b }
{
    match (a, b) {
        (None, None) => Ordering::Equal,
        (None, Some(_)) => Ordering::Less,
        (Some(_), None) => Ordering::Greater,
        (Some(a), Some(b)) => compare_actors(a, b),
    }
}

/// Whether the next row has the key of the last one, which then takes in its numbers.
fn take_in(last: &mut Correction, next: &Correction) -> bool
    ensures same { result ≡ (same_owner last.old.owner next.now.owner && same_actor last.old.target next.now.target) }
    ensures sum { last.new ≡ (if result then record last.old {
      told = min (last.old.told + next.now.told) 18446744073709551615;
      admitted = min (last.old.admitted + next.now.admitted) 18446744073709551615;
    } else last.old) }
{
    let same = last.owner == next.owner && last.target == next.target;
    if same {
        // where the totals fit, nothing is cut off
        last.told = last.told.saturating_add(next.told);
        last.admitted = last.admitted.saturating_add(next.admitted);
    }
    same
}
