//! Laws of the definitions. Each function does nothing, and its contract is the law.
ghost use Rattle.std.specs.Prelude.{◌≡◌, ◌<◌, ◌↔◌, ◌++◌, ℕ, Bool, true, List};
ghost use Rattle.std.specs.List.{filter};
ghost use Rattle.std.specs.Ordering.{MatchOrdering};
ghost use Rattle.crgc_ids.specs.Actor.{Actor, IsActorBelow};
ghost use Rattle.crgc_ids.specs.Counted.{IsCountBelow, IsPairCountBelow};
ghost use Rattle.crgc_ids.specs.Greatest.{AreFit, IsMonotone, greatest};
ghost use Rattle.crgc_ids.specs.LostNodes.{IsLostSet, lost_nodes, removed_nodes};
ghost use Rattle.crgc_ids.specs.Members.{IsAmong, IsPart};
ghost use Rattle.crgc_ids.specs.Rising.{IsRising};
ghost use Rattle.crgc_ids.specs.declared.rising.ActorCount.{ActorCount as CountRow};
ghost use Rattle.crgc_ids.specs.declared.rising.PairCount.{PairCount as PairRow};

use crate::ids::ActorId;
use crate::rising::{ActorCount, PairCount};

/// What `cmp` answers: actors are ordered by node, then by serial; rows that count actors by actor, then by count; rows
/// that count pairs by owner, then by target, then by count.
pub fn orders_go_by_names()
    ensures actors { (a b : Actor) → MatchOrdering (⟦<ActorId as Ord>⟧.cmp a b) (IsActorBelow a b) (a ≡ b) (IsActorBelow b a) }
    ensures counts { (r s : CountRow) → MatchOrdering (⟦<ActorCount as Ord>⟧.cmp r s) (IsCountBelow r s) (r ≡ s) (IsCountBelow s r) }
    ensures pairs { (r s : PairRow) → MatchOrdering (⟦<PairCount as Ord>⟧.cmp r s) (IsPairCountBelow r s) (r ≡ s) (IsPairCountBelow s r) }
{}

/// `greatest` keeps some members of the list in their order, and those are all fit for what it keeps. Where a greater
/// list lets more members be fit, it keeps every part of the list whose members are fit for that part.
pub fn greatest_part<T>()
    ensures ordered { (fit : List T → T → Bool) (xs : List T) → (p : T → Bool) × (greatest fit xs ≡ filter p xs) }
    ensures part { (fit : List T → T → Bool) (xs : List T) → IsPart (greatest fit xs) xs }
    ensures all_fit { (fit : List T → T → Bool) (xs : List T) → AreFit fit (greatest fit xs) }
    ensures contains { (fit : List T → T → Bool) (xs ys : List T) → IsMonotone fit → IsPart ys xs → AreFit fit ys → IsPart ys (greatest fit xs) }
{}

/// Where a greater list lets more members be fit, the lists whose members are fit for them are closed under union.
pub fn fit_parts_are_closed_under_union<T>()
    ensures { (fit : List T → T → Bool) (xs ys : List T) → IsMonotone fit → AreFit fit xs → AreFit fit ys → AreFit fit (xs ++ ys) }
{}

/// Of a greater list, by a test that lets more members be fit, the greatest part is greater.
pub fn greatest_part_grows<T>()
    ensures { (fit more : List T → T → Bool) (xs ys : List T) → IsMonotone more
        → ((zs : List T) (x : T) → fit zs x ≡ true → more zs x ≡ true)
        → IsPart xs ys → IsPart (greatest fit xs) (greatest more ys) }
{}

/// A node is removed exactly where some link leads from it, and the removed nodes rise.
pub fn removed_nodes_are_sources()
    ensures sources { (n : ℕ) (links : List (ℕ × ℕ)) (s : ℕ)
        → IsAmong s (removed_nodes n links) ↔ ((s < n) × ((d : ℕ) × IsAmong (s, d) links)) }
    ensures rising { (n : ℕ) (links : List (ℕ × ℕ)) → IsRising ◌<◌ (removed_nodes n links) }
{}

/// The lost nodes are the greatest set of removed nodes from each of which the link to each node outside the set is
/// there. They rise.
pub fn lost_nodes_are_greatest()
    ensures lost { (n : ℕ) (links : List (ℕ × ℕ)) → IsLostSet n links (lost_nodes n links) }
    ensures greatest { (n : ℕ) (links : List (ℕ × ℕ)) (xs : List ℕ) → IsLostSet n links xs → IsPart xs (lost_nodes n links) }
    ensures rising { (n : ℕ) (links : List (ℕ × ℕ)) → IsRising ◌<◌ (lost_nodes n links) }
{}

/// The union of two such sets is such a set.
pub fn lost_sets_are_closed_under_union()
    ensures { (n : ℕ) (links : List (ℕ × ℕ)) (xs ys : List ℕ) → IsLostSet n links xs → IsLostSet n links ys → IsLostSet n links (xs ++ ys) }
{}

/// As links are added, no node leaves the removed ones, and none the lost ones.
pub fn lost_nodes_grow_with_links()
    ensures removed { (n : ℕ) (links more : List (ℕ × ℕ)) → IsPart links more → IsPart (removed_nodes n links) (removed_nodes n more) }
    ensures lost { (n : ℕ) (links more : List (ℕ × ℕ)) → IsPart links more → IsPart (lost_nodes n links) (lost_nodes n more) }
{}
