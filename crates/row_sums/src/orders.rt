//! Rows in order.
ghost use Rattle.std.specs.Prelude.{◌≡◌, ◌+◌, ◌*◌};
ghost use Rattle.crgc_ids.specs.Actor.{IsActor, actor_number};
ghost use Rattle.row_sums.specs.Orders as orders;

use crgc_ids::{ActorCount, ActorId, PairCount};
use std::cmp::Ordering;

/// Actors by node, then by serial.
pub fn compare_actors(a: ActorId, b: ActorId) -> Ordering
    ensures { result ≡ orders.compare_actors a b }
{
    a.cmp(&b)
}

/// Rows that count actors, by actor.
pub fn compare_counts(r: &ActorCount, s: &ActorCount) -> Ordering
    ensures { result ≡ orders.compare_actors r.now.actor s.now.actor }
{
    compare_actors(r.actor, s.actor)
}

/// Rows that count pairs, by owner, then by target.
pub fn compare_pairs(r: &PairCount, s: &PairCount) -> Ordering
    ensures { result ≡ orders.compare_pairs (r.now.owner, r.now.target) (s.now.owner, s.now.target) }
{
    pair_number(r).cmp(&pair_number(s))
}

/// The numbers of the owner and of the target as one.
fn pair_number(r: &PairCount) -> u64
    ensures number { result ≡ actor_number r.now.owner * 4294967296 + actor_number r.now.target }
    ensures owner { IsActor r.now.owner }
    ensures target { IsActor r.now.target }
{
    u64::from(r.owner.number()) * 4_294_967_296 + u64::from(r.target.number())
}
