//! The laws of the round, which hold of every legal history: turns may be in progress, and messages under way. Each function
//! does nothing, and its contract is the law.
ghost use Rattle.std.specs.Prelude.{◌≡◌, ◌<◌, ◌↔◌, ◌++◌, ◌∷◌, ℕ, true, IsTrue, List};
ghost use Rattle.std.specs.List.{list_all};
ghost use Rattle.crgc_ids.specs.Actor.{Actor};
ghost use Rattle.history_model.specs.declared.events.Event.{Event};
ghost use Rattle.history_model.specs.declared.events.Event.TheVariants.{Sweep};
ghost use Rattle.history_model.specs.Cluster.{Cluster};
ghost use Rattle.history_model.specs.Legal.{IsLegal};
ghost use Rattle.history_model.specs.Quiescent.{IsDelivered, IsQuiescent, IsQuietPoint, LosesNothing};
ghost use Rattle.history_model.specs.State.{is_up};
ghost use Rattle.history_model.specs.Sweeps.{is_stopped};
ghost use Rattle.run_model.specs.Round.{is_of_round, round};

/// A node publishes after each so many of its flushes in a round.
pub const FLUSHES_PER_PUBLISH: usize = 32;

/// A round adds events to the history that no rule refuses, each of one of its six forms. So nobody crashes in it.
pub fn a_round_is_legal()
    ensures legal { (cl : Cluster) (h : List Event) → IsLegal cl h → IsLegal cl (round cl h) }
    ensures adds { (cl : Cluster) (h : List Event) → (q : List Event) × (round cl h ≡ q ++ h) × (list_all is_of_round q ≡ true) }
    ensures up { (cl : Cluster) (h : List Event) (n : ℕ) → is_up n (round cl h) ≡ is_up n h }
{}

/// Each node that is up sweeps in a round.
pub fn each_node_that_is_up_sweeps()
    ensures { (cl : Cluster) (h : List Event) (m : ℕ) → m < cl.nodes → IsTrue (is_up m h)
        → (q : List Event) × (r : List Event) × (round cl h ≡ q ++ Sweep m ∷ (r ++ h)) }
{}

/// Each sweep of a round stands at a quiet point of its node, where each message between nodes that are up was admitted or is
/// under way; and so where no copy between such nodes was lost.
pub fn each_sweep_of_a_round_is_at_a_quiet_point()
    ensures delivered { (cl : Cluster) (q r h : List Event) (m : ℕ) → IsLegal cl h → IsDelivered h
        → round cl h ≡ q ++ Sweep m ∷ (r ++ h) → IsQuietPoint cl m (r ++ h) }
    ensures not_lost { (cl : Cluster) (q r h : List Event) (m : ℕ) → IsLegal cl h → LosesNothing h
        → round cl h ≡ q ++ Sweep m ∷ (r ++ h) → IsQuietPoint cl m (r ++ h) }
{}

/// So after the round the stopped actors of nodes that are up are exactly the quiescent ones.
pub fn a_round_stops_all_that_are_quiescent()
    ensures delivered { (cl : Cluster) (h : List Event) (a : Actor) → IsLegal cl h → IsDelivered h → IsTrue (is_up a.node h)
        → (is_stopped cl a (round cl h) ≡ true) ↔ IsQuiescent cl (round cl h) a }
    ensures not_lost { (cl : Cluster) (h : List Event) (a : Actor) → IsLegal cl h → LosesNothing h → IsTrue (is_up a.node h)
        → (is_stopped cl a (round cl h) ≡ true) ↔ IsQuiescent cl (round cl h) a }
{}
