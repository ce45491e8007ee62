//! The laws of compaction: a collector may forget actors that it stopped, and its later verdicts are what they would have
//! been. Each function does nothing, and its contract is the law. `gone`, `stopped` and `more` are tests of actors, f and g
//! are folds, and a history is a list of events, the newest first.
ghost use Rattle.std.specs.Prelude.{◌≡◌, ◌≤◌, ◌↔◌, ◌⊎◌, ◌++◌, ◌||◌, ℕ, Bool, true, false, not, List, length};
ghost use Rattle.std.specs.List.{filter};
ghost use Rattle.crgc_ids.specs.Actor.{Actor};
ghost use Rattle.crgc_ids.specs.Members.{IsAmong};
ghost use Rattle.history_model.specs.declared.events.Event.{Event};
ghost use Rattle.history_model.specs.declared.records.Verdict.{Verdict};
ghost use Rattle.history_model.specs.Cluster.{Cluster};
ghost use Rattle.history_model.specs.Compaction.{AreOwnStops, AreRightlyGone, AreStopped, IsCompactedVerdict, IsFoldOf};
ghost use Rattle.history_model.specs.Compaction.{IsMarked, IsWithin, compacted_dead, compacted_stops, is_left_out, nobody};
ghost use Rattle.history_model.specs.Folds.{Fold, fold_to, folded, is_lost};
ghost use Rattle.history_model.specs.Graph.{dead, known_actors};
ghost use Rattle.history_model.specs.Legal.{IsLegal};
ghost use Rattle.history_model.specs.Settled.{AreSettled};
ghost use Rattle.history_model.specs.Sweeps.{IsVerdict, dead_at, dead_of, is_stopped};

/// What is folded of a history are first bulletins of its streams, and its own lengths tell how many. As more is folded,
/// or more happens, it only goes on.
pub fn a_fold_only_goes_on()
    ensures fold { (cl : Cluster) (c : ℕ → ℕ) (h : List Event) → IsFoldOf cl h (fold_to cl c h) }
    ensures lengths { (cl : Cluster) (h : List Event) (f : Fold) → IsFoldOf cl h f → fold_to cl (λ o. length (f o)) h ≡ f }
    ensures within { (cl : Cluster) (c d : ℕ → ℕ) (q h : List Event) → ((o : ℕ) → c o ≤ d o)
        → IsWithin (fold_to cl c h) (fold_to cl d (q ++ h)) }
    ensures at_a_node { (cl : Cluster) (m : ℕ) (q h : List Event) → IsWithin (folded cl m h) (folded cl m (q ++ h)) }
{}

/// The dead stay dead, unless their nodes are lost: in each fold that goes on from theirs; at a node, at each later moment;
/// and for any settled nodes in the place of the lost ones, where more may be so later. So whoever was stopped is dead in
/// what is folded at its node ever after.
pub fn the_dead_stay_dead()
    ensures folds { (cl : Cluster) (h : List Event) (g f : Fold) (a : Actor) → IsLegal cl h → IsFoldOf cl h f → IsWithin g f
        → IsAmong a (dead_of cl g) → is_lost cl f a.node ≡ false → IsAmong a (dead_of cl f) }
    ensures at_a_node { (cl : Cluster) (m : ℕ) (q h : List Event) (a : Actor) → IsLegal cl (q ++ h)
        → IsAmong a (dead_at cl m h) → is_lost cl (folded cl m (q ++ h)) a.node ≡ false → IsAmong a (dead_at cl m (q ++ h)) }
    ensures settled { (cl : Cluster) (h : List Event) (c d : ℕ → ℕ) (lost more : ℕ → Bool) (a : Actor) → IsLegal cl h
        → ((o : ℕ) → c o ≤ d o) → ((n : ℕ) → lost n ≡ true → more n ≡ true) → AreSettled cl c lost h → AreSettled cl d more h
        → IsAmong a (dead cl lost (fold_to cl c h)) → more a.node ≡ false → IsAmong a (dead cl more (fold_to cl d h)) }
    ensures stopped { (cl : Cluster) (h : List Event) (a : Actor) → IsLegal cl h → is_stopped cl a h ≡ true
        → is_lost cl (folded cl a.node h) a.node ≡ false → IsAmong a (dead_at cl a.node h) }
{}

/// The law of compaction. Where some actors are rightly gone, a sweep that leaves them out finds the dead that are not
/// gone, and whoever is gone is dead or its node is lost. So it stops whom a sweep of all stops, less the gone, each with
/// the same numbers and owners; and where whoever is gone was stopped before, its whole verdict is that of a sweep of all.
pub fn a_sweep_may_leave_out_the_gone()
    ensures gone { (cl : Cluster) (h : List Event) (gone : Actor → Bool) (f : Fold) (a : Actor) → IsLegal cl h
        → IsFoldOf cl h f → AreRightlyGone cl gone f → gone a ≡ true → is_lost cl f a.node ≡ false → IsAmong a (dead_of cl f) }
    ensures dead { (cl : Cluster) (h : List Event) (gone : Actor → Bool) (f : Fold) → IsLegal cl h
        → IsFoldOf cl h f → AreRightlyGone cl gone f
        → compacted_dead cl (is_lost cl f) gone f ≡ filter (λ a. not (gone a)) (dead_of cl f) }
    ensures stops { (cl : Cluster) (h : List Event) (m : ℕ) (gone stopped : Actor → Bool) (f : Fold) → IsLegal cl h
        → IsFoldOf cl h f → AreRightlyGone cl gone f
        → compacted_stops cl m gone stopped f ≡ compacted_stops cl m nobody (λ a. stopped a || gone a) f }
    ensures verdict { (cl : Cluster) (h : List Event) (m : ℕ) (gone stopped : Actor → Bool) (f : Fold) (v : Verdict)
        → IsLegal cl h → IsFoldOf cl h f → AreRightlyGone cl gone f → AreStopped gone stopped
        → IsCompactedVerdict cl m gone stopped f v ↔ IsCompactedVerdict cl m nobody stopped f v }
{}

/// Whoever was dead in some fold within this one may be gone. So may those be whom a collector stopped, at each step that
/// it makes: at first it stopped nobody; as it folds more, it stays so; whom a sweep finds that leaves out the gone may be
/// gone too; and of these it may forget whom it likes.
pub fn the_stopped_may_be_gone()
    ensures once_dead { (cl : Cluster) (gone : Actor → Bool) (f : Fold)
        → ((a : Actor) → gone a ≡ true → (g : Fold) × IsWithin g f × IsAmong a (dead_of cl g)) → AreRightlyGone cl gone f }
    ensures first { (cl : Cluster) (f : Fold) → AreRightlyGone cl nobody f }
    ensures take { (cl : Cluster) (stopped : Actor → Bool) (g f : Fold) → IsWithin g f → AreRightlyGone cl stopped g
        → AreRightlyGone cl stopped f }
    ensures sweep { (cl : Cluster) (gone stopped more : Actor → Bool) (f : Fold) → AreStopped gone stopped
        → AreRightlyGone cl stopped f
        → ((a : Actor) → more a ≡ true → (stopped a ≡ true) ⊎ IsAmong a (compacted_dead cl (is_lost cl f) gone f))
        → AreRightlyGone cl more f }
    ensures compact { (cl : Cluster) (gone stopped : Actor → Bool) (f : Fold) → AreStopped gone stopped
        → AreRightlyGone cl stopped f → AreRightlyGone cl gone f }
{}

/// In a history, the verdict of a collector that forgot some of its node's stopped actors is the verdict of the sweep.
pub fn a_compacted_verdict_is_the_verdict()
    ensures { (cl : Cluster) (m : ℕ) (h : List Event) (gone stopped : Actor → Bool) (v : Verdict) → IsLegal cl h
        → AreOwnStops cl m h gone stopped → IsCompactedVerdict cl m gone stopped (folded cl m h) v ↔ IsVerdict cl m h v }
{}

/// The dead of a sweep are the known actors that it neither leaves out nor marks; each that it does not leave out is dead or
/// marked. Where nobody is gone, they are the dead.
pub fn a_sweep_marks_the_reached()
    ensures dead { (cl : Cluster) (lost : ℕ → Bool) (gone : Actor → Bool) (f : Fold) (a : Actor)
        → IsAmong a (compacted_dead cl lost gone f)
        ↔ (IsAmong a (known_actors cl f) × (is_left_out lost gone a ≡ false) × ¬ IsMarked cl lost gone f a) }
    ensures either { (cl : Cluster) (lost : ℕ → Bool) (gone : Actor → Bool) (f : Fold) (a : Actor)
        → IsAmong a (known_actors cl f) → is_left_out lost gone a ≡ false
        → IsAmong a (compacted_dead cl lost gone f) ⊎ IsMarked cl lost gone f a }
    ensures nobody { (cl : Cluster) (lost : ℕ → Bool) (f : Fold) → compacted_dead cl lost nobody f ≡ dead cl lost f }
{}
