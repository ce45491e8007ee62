//! The laws of the collector. Each function does nothing, and its contract is the law. They hold of every legal history of
//! every cluster, in both versions, with losses, repeats, crashes and removals; a history is a list of events, the newest
//! first, and `q ++ h` is a longer one.
ghost use Rattle.std.specs.Prelude.{◌≡◌, ◌≤◌, ◌+◌, ◌↔◌, ◌++◌, ◌∷◌, ℕ, Bool, true, false, IsTrue, if◌then◌else◌, nat_lt, List, length};
ghost use Rattle.crgc_ids.specs.Actor.{Actor, IsActorBelow};
ghost use Rattle.crgc_ids.specs.LostNodes.{IsLostSet};
ghost use Rattle.crgc_ids.specs.Members.{IsAmong, IsPart};
ghost use Rattle.crgc_ids.specs.Rising.{IsRising};
ghost use Rattle.history_model.specs.declared.events.Event.{Event};
ghost use Rattle.history_model.specs.declared.events.Event.TheVariants.{Sweep};
ghost use Rattle.history_model.specs.Cluster.{Cluster};
ghost use Rattle.history_model.specs.Folds.{Fold, final_links, fold_to, folded, is_lost, lost_of};
ghost use Rattle.history_model.specs.Graph.{dead, known_actors};
ghost use Rattle.history_model.specs.Held.{gave, got};
ghost use Rattle.history_model.specs.Legal.{IsLegal, is_parent};
ghost use Rattle.history_model.specs.Messages.{is_admit, is_lose, is_repeat, mail, sent, takes};
ghost use Rattle.history_model.specs.Quiescent.{IsQuiescent, IsQuietPoint, IsQuietSet};
ghost use Rattle.history_model.specs.Reached.{IsReached};
ghost use Rattle.history_model.specs.Settled.{AreSettled};
ghost use Rattle.history_model.specs.State.{is_up};
ghost use Rattle.history_model.specs.Sweeps.{dead_at, is_stopped, stop_of, stopped_by};
ghost use Rattle.history_model.specs.Tally.{tally};
ghost use Rattle.history_model.specs.Uses.{IsUnused, OnlyLiveMove};

/// Soundness. Nobody can use an actor that is dead in what is folded at a node, and none of the dead acts of itself: all
/// of them together, on all nodes, are the set that shows each of them quiescent.
pub fn the_dead_are_quiescent()
    ensures together { (cl : Cluster) (m : ℕ) (h : List Event) → IsLegal cl h → IsQuietSet cl h (dead_at cl m h) }
    ensures each { (cl : Cluster) (m : ℕ) (h : List Event) (a : Actor) → IsLegal cl h → IsAmong a (dead_at cl m h)
        → IsQuiescent cl h a }
{}

/// The general law. Soundness holds for any choice of how much of each stream is folded, and for any nodes in the place
/// of the lost ones, also in balances, edges and marks, that have crashed and from which, on each link to a node outside,
/// nothing can be admitted any more and all that was admitted is folded. The lost nodes of each fold are such nodes.
pub fn any_settled_nodes_may_stand_for_the_lost()
    ensures together { (cl : Cluster) (c : ℕ → ℕ) (lost : ℕ → Bool) (h : List Event) → IsLegal cl h → AreSettled cl c lost h
        → IsQuietSet cl h (dead cl lost (fold_to cl c h)) }
    ensures each { (cl : Cluster) (c : ℕ → ℕ) (lost : ℕ → Bool) (h : List Event) (a : Actor) → IsLegal cl h
        → AreSettled cl c lost h → IsAmong a (dead cl lost (fold_to cl c h)) → IsQuiescent cl h a }
    ensures lost_nodes { (cl : Cluster) (c : ℕ → ℕ) (h : List Event) → IsLegal cl h
        → AreSettled cl c (is_lost cl (fold_to cl c h)) h }
{}

/// Stability. An actor that was stopped is quiescent, then and in every longer legal history; and so is every quiescent
/// actor, since a set that shows it goes on to do so.
pub fn the_stopped_stay_quiescent()
    ensures stopped { (cl : Cluster) (q h : List Event) (a : Actor) → IsLegal cl (q ++ h) → is_stopped cl a h ≡ true
        → IsQuiescent cl (q ++ h) a }
    ensures quiescent { (cl : Cluster) (q h : List Event) (a : Actor) → IsLegal cl (q ++ h) → IsQuiescent cl h a
        → IsQuiescent cl (q ++ h) a }
    ensures sets { (cl : Cluster) (q h : List Event) (xs : List Actor) → IsLegal cl (q ++ h) → IsQuietSet cl h xs
        → IsQuietSet cl (q ++ h) xs }
{}

/// What quiescence is good for. Once an actor is quiescent, or is stopped, the only event that is still of it is its flush,
/// once at most: it never acts, and nobody ties, sends to, carries, drops or gets a reference to it.
pub fn nobody_uses_the_quiescent()
    ensures quiescent { (cl : Cluster) (h : List Event) (a : Actor) → IsQuiescent cl h a → IsUnused cl h a }
    ensures stopped { (cl : Cluster) (h : List Event) (a : Actor) → IsLegal cl h → is_stopped cl a h ≡ true → IsUnused cl h a }
{}

/// What an event sends, admits or takes was live at each earlier moment, or was sent since. So a message that was sent and is
/// not live will never be taken.
pub fn only_live_messages_are_taken()
    ensures { (cl : Cluster) (h : List Event) → OnlyLiveMove cl h }
{}

/// Completeness. At a quiet point of a node, its quiescent actors are all dead in what is folded there. So after a sweep
/// its stopped actors are exactly its quiescent ones.
pub fn a_quiet_point_leaves_none()
    ensures dead { (cl : Cluster) (m : ℕ) (h : List Event) (a : Actor) → IsLegal cl h → IsQuietPoint cl m h → a.node ≡ m
        → IsQuiescent cl h a → IsAmong a (dead_at cl m h) }
    ensures stopped { (cl : Cluster) (m : ℕ) (h : List Event) (a : Actor) → IsLegal cl (Sweep m ∷ h) → IsQuietPoint cl m h
        → a.node ≡ m → (is_stopped cl a (Sweep m ∷ h) ≡ true) ↔ IsQuiescent cl (Sweep m ∷ h) a }
{}

/// Supervision. In version 2, with each member of a quiet set, and so with each actor that is dead at a node, all its
/// children on nodes that are up are there; and every child of a stopped actor is stopped.
pub fn children_go_with_their_parents()
    ensures sets { (cl : Cluster) (h : List Event) (xs : List Actor) (a b : Actor) → cl.version ≡ 2 → IsLegal cl h
        → IsQuietSet cl h xs → IsAmong a xs → is_parent a b h ≡ true → IsTrue (is_up b.node h) → IsAmong b xs }
    ensures dead { (cl : Cluster) (m : ℕ) (h : List Event) (a b : Actor) → cl.version ≡ 2 → IsLegal cl h
        → IsAmong a (dead_at cl m h) → is_parent a b h ≡ true → IsTrue (is_up b.node h) → IsAmong b (dead_at cl m h) }
    ensures stopped { (cl : Cluster) (h : List Event) (a b : Actor) → cl.version ≡ 2 → IsLegal cl h → is_stopped cl a h ≡ true
        → is_parent a b h ≡ true → is_stopped cl b h ≡ true }
{}

/// The evidence of a stop: a dead actor received as many messages as were told or admitted for it, and whoever has a
/// positive edge to it from outside the lost nodes is dead too.
pub fn the_evidence_of_a_stop()
    ensures balance { (cl : Cluster) (lost : ℕ → Bool) (f : Fold) (a : Actor) → IsAmong a (dead cl lost f)
        → (stop_of cl lost f a).received ≡ (stop_of cl lost f a).told + (stop_of cl lost f a).admitted }
    ensures owners { (cl : Cluster) (lost : ℕ → Bool) (f : Fold) (a b : Actor) → IsAmong a (dead cl lost f)
        → IsAmong b (stop_of cl lost f a).owners → IsAmong b (dead cl lost f) }
{}

/// The lost nodes of a fold are the greatest set of nodes that a folded Final names as removed, and from each of which the
/// Final of the link to each node outside the set is folded.
pub fn lost_nodes_are_the_greatest_set()
    ensures members { (cl : Cluster) (f : Fold) (n : ℕ) → (is_lost cl f n ≡ true) ↔ IsAmong n (lost_of cl f) }
    ensures closed { (cl : Cluster) (f : Fold) → IsLostSet cl.nodes (final_links cl f) (lost_of cl f) }
    ensures greatest { (cl : Cluster) (f : Fold) (xs : List ℕ) → IsLostSet cl.nodes (final_links cl f) xs
        → IsPart xs (lost_of cl f) }
{}

/// As more is folded, or more happens, no node leaves the lost ones.
pub fn lost_nodes_only_grow()
    ensures folds { (cl : Cluster) (q h : List Event) (c more : ℕ → ℕ) (n : ℕ) → ((o : ℕ) → c o ≤ more o)
        → is_lost cl (fold_to cl c h) n ≡ true → is_lost cl (fold_to cl more (q ++ h)) n ≡ true }
    ensures at_a_node { (cl : Cluster) (m : ℕ) (q h : List Event) (n : ℕ) → is_lost cl (folded cl m h) n ≡ true
        → is_lost cl (folded cl m (q ++ h)) n ≡ true }
{}

/// The dead of a fold are the known actors outside the lost nodes to which no list of actors outside the lost nodes leads
/// that begins with a pseudoroot and has a positive edge from each to the next.
pub fn the_dead_are_the_unreached()
    ensures { (cl : Cluster) (lost : ℕ → Bool) (f : Fold) (a : Actor) → IsAmong a (dead cl lost f)
        ↔ (IsAmong a (known_actors cl f) × (lost a.node ≡ false) × ¬ IsReached cl lost f a) }
{}

/// The subtractions of the definitions are exact in a legal history: no actor takes more than its mail or gives up more
/// references than it got, and no more copies of a message are lost and admitted than came onto its link.
pub fn no_count_falls_below_zero()
    ensures mail { (cl : Cluster) (h : List Event) (a : Actor) → IsLegal cl h → takes a h ≤ length (mail a h) }
    ensures held { (cl : Cluster) (h : List Event) (b a : Actor) → IsLegal cl h → gave b a h ≤ got cl b a h }
    ensures copies { (cl : Cluster) (h : List Event) (s d k : ℕ) → IsLegal cl h
        → tally (is_lose s d k) h + tally (is_admit s d k) h ≤ (if nat_lt k (length (sent s d h)) then 1 else 0) + tally (is_repeat s d k) h }
{}

/// The known actors of a fold, its dead, the actors that a sweep stops and the owners of each rise by node, then by
/// serial. So none stands twice.
pub fn listed_actors_rise()
    ensures known { (cl : Cluster) (f : Fold) → IsRising IsActorBelow (known_actors cl f) }
    ensures dead { (cl : Cluster) (lost : ℕ → Bool) (f : Fold) → IsRising IsActorBelow (dead cl lost f) }
    ensures stopped { (cl : Cluster) (m : ℕ) (h : List Event) → IsRising IsActorBelow (stopped_by cl m h) }
    ensures owners { (cl : Cluster) (lost : ℕ → Bool) (f : Fold) (a : Actor)
        → IsRising IsActorBelow (stop_of cl lost f a).owners }
{}
