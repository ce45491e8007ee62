//! Laws of the verdicts and the counts of a report. Each function does nothing, and its contract is the law.
ghost use Rattle.std.specs.Prelude.{◌≡◌, ◌≤◌, ◌∷◌, ◌++◌, [], ℕ, length, reverse, sum_by, List};
ghost use Rattle.crgc_ids.specs.Nodes.{nodes_below};
ghost use Rattle.history_model.specs.declared.events.Event.{Event};
ghost use Rattle.history_model.specs.declared.events.Event.TheVariants.{Sweep};
ghost use Rattle.history_model.specs.declared.records.Verdict.{Verdict};
ghost use Rattle.history_model.specs.Cluster.{Cluster, births};
ghost use Rattle.history_model.specs.Legal.{IsLegal};
ghost use Rattle.history_model.specs.Live.{actors_of};
ghost use Rattle.history_model.specs.Sweeps.{IsVerdict, is_stopped};
ghost use Rattle.history_model.specs.Tally.{tally};
ghost use Rattle.journal_model.specs.Report.{stopped_on, stopped_total};
ghost use Rattle.journal_model.specs.Verdicts.{AreVerdicts};

/// In a legal history the sweeps of a node stop each of its stopped actors once.
pub fn each_actor_is_stopped_once()
    ensures { (cl : Cluster) (h : List Event) (n : ℕ) → IsLegal cl h → stopped_on cl n h ≡ tally (λ a. is_stopped cl a h) (actors_of n h) }
{}

/// The totals are the sums over the nodes, and no more actors are stopped than born, on a node and in all, nor born than there
/// are events.
pub fn totals_are_sums()
    ensures stopped { (cl : Cluster) (h : List Event) → IsLegal cl h → stopped_total cl h ≡ sum_by (λ n. stopped_on cl n h) (nodes_below cl.nodes) }
    ensures on_a_node { (cl : Cluster) (h : List Event) (n : ℕ) → IsLegal cl h → stopped_on cl n h ≤ births n h }
    ensures in_all { (cl : Cluster) (h : List Event) → IsLegal cl h → stopped_total cl h ≤ sum_by (λ n. births n h) (nodes_below cl.nodes) }
    ensures born { (h : List Event) (k : ℕ) → sum_by (λ n. births n h) (nodes_below k) ≤ length h }
{}

/// With a sweep its verdict comes last, and any other event leaves the verdicts of a history as they are.
pub fn verdicts_come_with_sweeps()
    ensures swept { (cl : Cluster) (h : List Event) (m : ℕ) (v : Verdict) (vs : List Verdict) → AreVerdicts cl h (reverse vs) → IsVerdict cl m h v
        → AreVerdicts cl (Sweep m ∷ h) (reverse (vs ++ v ∷ [])) }
    ensures other { (cl : Cluster) (h : List Event) (e : Event) (vs : List Verdict) → ((m : ℕ) → e ≡ Sweep m → ⊥) → AreVerdicts cl h vs
        → AreVerdicts cl (e ∷ h) vs }
{}
