//! The laws of the operations. Each function does nothing, and its contract is the law.
ghost use Rattle.std.specs.Prelude.{◌≡◌, ◌⊎◌, ◌++◌, ℕ, true, List, [], Some, None};
ghost use Rattle.crgc_ids.specs.Actor.{Actor};
ghost use Rattle.crgc_ids.specs.declared.Which.{Which};
ghost use Rattle.turn_lock.specs.History.{calls_of};
ghost use Rattle.history_model.specs.declared.events.Event.TheVariants.{Rest as Rested};
ghost use Rattle.history_model.specs.Legal.{IsLegal, refusal};
ghost use Rattle.history_model.specs.State.{is_up};
ghost use Rattle.history_model.specs.Sweeps.{IsVerdict};
ghost use Rattle.history_model.specs.declared.records.Verdict.{Verdict};
ghost use Rattle.behaviour_lang.specs.declared.act.Act.{Act as Acts};
ghost use Rattle.journal_model.specs.Verdicts.{AreVerdicts};
ghost use Rattle.behaviour_lang.specs.Steps.{Left};
ghost use Rattle.run_model.specs.Doing.{cluster_of, event_of};
ghost use Rattle.run_model.specs.Follows.{CouldPass, IsRun, is_over};
ghost use Rattle.run_model.specs.Planned.{crash_due};
ghost use Rattle.run_model.specs.Sound.{IsSound};
ghost use Rattle.operation_model.specs.Answers.{AreLegal, IsAnswer, IsCourse, IsGranted, IsMade, WouldPass, refused};
ghost use Rattle.operation_model.specs.Courses.{behaviour_at, claim_at, events_by, halt_at, names_at, verdicts, was_all_done, world};
ghost use Rattle.operation_model.specs.Deeds.{deed_of};
ghost use Rattle.operation_model.specs.Fits.{Fits};
ghost use Rattle.operation_model.specs.Kept.{IsKept, KeepsTurns, open_turns};
ghost use Rattle.operation_model.specs.Openings.{IsNew, IsSoundOpening, Opening};
ghost use Rattle.operation_model.specs.Turns.{Calls, Grows};
ghost use Rattle.operation_model.specs.declared.operations.Op.{Op};
ghost use Rattle.operation_model.specs.declared.operations.Op.TheVariants.{Act, Rest, Sweep};
ghost use Rattle.operation_model.specs.declared.replies.Halt.TheVariants.{Limit};
ghost use Rattle.operation_model.specs.declared.replies.Reply.{Reply};

/// With more children a turn begins with the acts that it has without them. So the acts of a turn that a pass has open stay the
/// beginning of the whole turn while its children are born.
pub fn a_turn_grows_with_its_children()
    ensures { (l : Left) (children more : List Actor) → Grows l children more }
{}

/// What fits still fits after further calls of other passes, whatever the lock was made with.
pub fn what_fits_still_fits()
    ensures { (o : Opening) (later history : Calls) (op : Op) (pass : ℕ) → calls_of pass later ≡ []
        → Fits o history op pass → Fits o (later ++ history) op pass }
{}

/// In a lock that was made with a sound cluster, and the cluster of a script is one, the world stays sound: legal, and with names
/// that say no more than is held. The open turn of each pass is its actor's, no two passes have one actor's, and names and
/// behaviours are the actors'. So no rule refuses the act or the rest that fits, on a node that is up.
pub fn a_course_stays_sound()
    ensures new { (o : Opening) → IsNew o → IsSoundOpening o }
    ensures sound { (o : Opening) (h : Calls) → IsSoundOpening o → IsCourse o h → IsSound o.script (world o h) }
    ensures keeps { (o : Opening) (h : Calls) → IsSoundOpening o → IsCourse o h
        → KeepsTurns o.script (world o h) (open_turns h) (names_at o h) (behaviour_at o h) }
    ensures act { (o : Opening) (h : Calls) (a : Actor) (act : Acts) (pass : ℕ) → IsSoundOpening o → IsCourse o h
        → Fits o h (Act a act) pass → is_up a.node (world o h) ≡ true
        → refusal (cluster_of o.script) (event_of a (Some act)) (world o h) ≡ None }
    ensures rest { (o : Opening) (h : Calls) (a : Actor) (locals : List (List ℕ × Actor)) (pass : ℕ) → IsSoundOpening o
        → IsCourse o h → Fits o h (Rest a locals) pass → is_up a.node (world o h) ≡ true
        → refusal (cluster_of o.script) (Rested a) (world o h) ≡ None }
{}

/// In a lock that was made with a sound cluster no rule refuses the events of an operation that fits and is granted: neither the
/// first one nor what is added to it. So they follow, or one of them would pass a limit; there is no third case.
pub fn what_is_granted_is_legal()
    ensures legal { (o : Opening) (h : Calls) (op : Op) (r : Reply) (pass : ℕ) → IsSoundOpening o → IsCourse o h → Fits o h op pass
        → refused o.script (claim_at o h) op (world o h) ≡ None → IsGranted o h op (world o h) r
        → AreLegal o.script (events_by o.script (deed_of op r) (world o h)) (world o h) }
    ensures either { (o : Opening) (h : Calls) (op : Op) (r : Reply) (pass : ℕ) → IsSoundOpening o → IsCourse o h → Fits o h op pass
        → IsAnswer o h op r → IsMade o h op r ⊎ ((limit : Which) × WouldPass o h op limit) }
{}

/// In a lock that was made with the cluster of a script, the world's history after each course of calls is a run of the script,
/// in which no crash is due; so it is legal. The calls of each pass tell what is so in the world: its open turn is its actor's, no
/// two passes have one actor's, names and behaviours are the actors', and who has claimed a node knows what was handed there and
/// who was stopped; so the verdicts of the sweeps are those of the world.
pub fn a_course_is_a_run()
    ensures run { (o : Opening) (h : Calls) → IsNew o → IsCourse o h → IsRun o.script (world o h) }
    ensures none_due { (o : Opening) (h : Calls) → IsNew o → IsCourse o h
        → crash_due o.script (world o h) ≡ None }
    ensures legal { (o : Opening) (h : Calls) → IsNew o → IsCourse o h
        → IsLegal (cluster_of o.script) (world o h) }
    ensures verdicts { (o : Opening) (h : Calls) → IsNew o → IsCourse o h
        → AreVerdicts (cluster_of o.script) (world o h) (verdicts h) }
    ensures kept { (o : Opening) (h : Calls) → IsNew o → IsCourse o h → IsKept o h }
{}

/// The verdict that fits is the verdict of the sweep, in the world as it is then.
pub fn a_verdict_that_fits_is_the_sweeps()
    ensures { (o : Opening) (h : Calls) (v : Verdict) (pass : ℕ) → IsCourse o h → Fits o h (Sweep v) pass
        → IsVerdict (cluster_of o.script) v.node (world o h) v }
{}

/// Once a call was answered that nothing is left to do, the run is over, and stays so whatever calls follow.
pub fn a_course_stays_over()
    ensures { (o : Opening) (h : Calls) → IsNew o → IsCourse o h
        → was_all_done h ≡ true → is_over o.script (world o h) ≡ true }
{}

/// Where it has halted at a limit, the run could pass that limit next.
pub fn a_halt_at_a_limit_is_due()
    ensures { (o : Opening) (h : Calls) (w : Which) → IsNew o → IsCourse o h
        → halt_at o h ≡ Some (Limit w) → CouldPass o.script (world o h) w }
{}
