//! The laws of the progress of a script. Each function does nothing, and its contract is the law.
ghost use Rattle.std.specs.Prelude.{ℕ, ◌≡◌, ◌+◌, ◌<◌, ◌≤◌, ◌^◌, ◌++◌, ◌∷◌, false, true, length, IsTrue, List, Some, None};
ghost use Rattle.std.specs.List.{list_all};
ghost use Rattle.crgc_ids.specs.Actor.{Actor};
ghost use Rattle.history_model.specs.declared.events.Event.{Event};
ghost use Rattle.history_model.specs.declared.events.Event.TheVariants.{Wake};
ghost use Rattle.history_model.specs.State.{is_busy, is_root, is_up};
ghost use Rattle.script_reader.specs.Valid.{Scripted};
ghost use Rattle.run_model.specs.Planned.{is_possible, next_wake};
ghost use Rattle.run_model.specs.Round.{is_of_round};
ghost use Rattle.script_progress.specs.Used.{HasRoom, Used, wakes_in};
ghost use Rattle.script_progress.specs.Standing.{IsProgressAt, is_of_no_plan};

/// Events that use nothing of the plan leave the progress; so does a round.
pub fn other_events_leave_the_progress()
    ensures other { (s : Scripted) (e : Event) (h : List Event) (p : Used) → is_of_no_plan e ≡ true
        → IsProgressAt s h p → IsProgressAt s (e ∷ h) p }
    ensures round { (s : Scripted) (q h : List Event) (p : Used) → list_all is_of_round q ≡ true
        → IsProgressAt s h p → IsProgressAt s (q ++ h) p }
{}

/// The planned wake is that of the candidate, where it may wake: it is an idle root on a node that is up. Without a candidate
/// no wake is planned.
pub fn the_candidate_is_the_next_wake()
    ensures some { (s : Scripted) (h : List Event) (p : Used) (a : Actor) → IsProgressAt s h p → a ≡ p.next → 0 < wakes_in p a
        → is_possible s (Wake a) h ≡ true → next_wake s h ≡ Some a }
    ensures none { (s : Scripted) (h : List Event) (p : Used) → IsProgressAt s h p → length p.nodes ≤ p.next.node → next_wake s h ≡ None }
    ensures may { (s : Scripted) (h : List Event) (a : Actor) → is_root a h ≡ true → is_up a.node h ≡ true → is_busy a h ≡ false
        → is_possible s (Wake a) h ≡ true }
{}

/// The counts have room for one turn more, as long as the history is shorter than their type's end.
pub fn counts_have_room()
    ensures { (s : Scripted) (h : List Event) (p : Used) (n : ℕ) → IsProgressAt s h p → length h + 1 < 2 ^ 32 → HasRoom p n }
{}
