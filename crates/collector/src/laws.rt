//! How a collector stands in a history: the laws by which it follows its node. Each function does nothing, and its contract is
//! the law.
ghost use Rattle.std.specs.Prelude.{◌≡◌, ◌∷◌, [], ◌<◌, ℕ, List, true, false};
ghost use Rattle.crgc_ids.specs.Actor.{Actor};
ghost use Rattle.history_model.specs.declared.events.Event.{Event};
ghost use Rattle.history_model.specs.declared.events.Event.TheVariants.{Hand, Sweep};
ghost use Rattle.history_model.specs.declared.records.Verdict.{Verdict};
ghost use Rattle.history_model.specs.Cluster.{Cluster};
ghost use Rattle.history_model.specs.Compaction.{AreRightlyGone, IsWithin};
ghost use Rattle.history_model.specs.Folds.{Fold, cut_at, folded};
ghost use Rattle.history_model.specs.Legal.{IsLegal};
ghost use Rattle.history_model.specs.Streams.{stream};
ghost use Rattle.history_model.specs.Sweeps.{IsVerdict};
ghost use Rattle.collector.specs.Collected.{Collected, IsCollectorAt, IsFedBy, IsNew, cut_of, folded_of, has_number, was_stopped};
ghost use Rattle.collector.specs.Following.{is_own};
ghost use Rattle.collector.specs.Sweeping.{Compacts, Sweeps};
ghost use Rattle.collector.specs.Taking.{IsOfStreams, IsTaken, Takes};

/// A collector goes with the history of its node: an event that is neither a hand to its node nor its sweep leaves it where it
/// is, and after a hand it has taken the bytes of the bulletin that was handed; one that has the bulletin stays where it is.
pub fn a_collector_follows_its_node()
    ensures others { (cl : Cluster) (h : List Event) (m : ℕ) (c : Collected) (e : Event) → is_own m e ≡ false
        → IsCollectorAt cl h m c → IsCollectorAt cl (e ∷ h) m c }
    ensures hand { (cl : Cluster) (h : List Event) (m o k : ℕ) (bytes : List ℕ) (old new : Collected)
        → IsOfStreams (λ x. stream cl x h) o k bytes → Takes o k bytes old new → IsTaken o k new
        → IsCollectorAt cl h m old → IsCollectorAt cl (Hand m o k ∷ h) m new }
    ensures again { (cl : Cluster) (h : List Event) (m o k : ℕ) (c : Collected) → has_number c o k ≡ true
        → IsCollectorAt cl h m c → IsCollectorAt cl (Hand m o k ∷ h) m c }
    ensures longer { (cl : Cluster) (s t : Fold) (c : Collected) → IsWithin s t → IsFedBy cl s c → IsFedBy cl t c }
{}

/// What a collector that goes with a history has folded is what is folded at its node.
pub fn a_collector_folds_what_was_handed()
    ensures cut { (cl : Cluster) (h : List Event) (m : ℕ) (c : Collected) → IsCollectorAt cl h m c
        → (o : ℕ) → o < cl.nodes → cut_of c o ≡ cut_at cl m h o }
    ensures fold { (cl : Cluster) (h : List Event) (m : ℕ) (c : Collected) → IsCollectorAt cl h m c → IsLegal cl h
        → folded_of c (λ o. stream cl o h) ≡ folded cl m h }
{}

/// A new collector stands at the beginning of each history. A sweep by its node leaves it at the history with that sweep, and in
/// a legal history its verdict is the verdict of the sweep, whomever it dropped; compaction leaves it where it is.
pub fn a_collectors_verdict_is_the_verdict()
    ensures start { (cl : Cluster) (m : ℕ) (c : Collected) → IsNew m cl.nodes c → IsCollectorAt cl [] m c }
    ensures verdict { (cl : Cluster) (h : List Event) (m : ℕ) (old new : Collected) (v : Verdict) → IsLegal cl h
        → IsCollectorAt cl h m old → Sweeps old new v → IsVerdict cl m h v }
    ensures sweep { (cl : Cluster) (h : List Event) (m : ℕ) (old new : Collected) (v : Verdict) → IsLegal cl h
        → IsCollectorAt cl h m old → Sweeps old new v → IsCollectorAt cl (Sweep m ∷ h) m new }
    ensures compact { (cl : Cluster) (h : List Event) (m : ℕ) (old new : Collected) → Compacts old new
        → IsCollectorAt cl h m old → IsCollectorAt cl h m new }
{}

/// Whom a collector stopped is rightly gone, whatever legal history its bulletins come from: at first nobody was stopped, and it
/// stays so as bulletins are taken, at each sweep and at each compaction.
pub fn the_stopped_are_rightly_gone()
    ensures start { (cl : Cluster) (m : ℕ) (c : Collected) (f : Fold) → IsNew m cl.nodes c → AreRightlyGone cl (was_stopped c) f }
    ensures take { (cl : Cluster) (streams : Fold) (o k : ℕ) (bytes : List ℕ) (old new : Collected) → Takes o k bytes old new
        → AreRightlyGone cl (was_stopped old) (folded_of old streams) → AreRightlyGone cl (was_stopped new) (folded_of new streams) }
    ensures sweep { (cl : Cluster) (streams : Fold) (old new : Collected) (v : Verdict) → IsFedBy cl streams old → Sweeps old new v
        → AreRightlyGone cl (was_stopped old) (folded_of old streams) → AreRightlyGone cl (was_stopped new) (folded_of new streams) }
    ensures compact { (cl : Cluster) (streams : Fold) (old new : Collected) → Compacts old new
        → AreRightlyGone cl (was_stopped old) (folded_of old streams) → AreRightlyGone cl (was_stopped new) (folded_of new streams) }
{}
