//! The laws of runs and of the fixed schedule, in all scripts. Each function does nothing, and its contract is the law.
ghost use Rattle.std.specs.Prelude.{◌≡◌, ◌∷◌, ◌++◌, ℕ, true, List, None};
ghost use Rattle.crgc_ids.specs.Actor.{Actor};
ghost use Rattle.crgc_ids.specs.declared.Which.{Which};
ghost use Rattle.history_model.specs.declared.events.Event.{Event};
ghost use Rattle.history_model.specs.declared.events.Event.TheVariants.{Rest};
ghost use Rattle.history_model.specs.Legal.{IsLegal, refusal};
ghost use Rattle.history_model.specs.State.{is_busy, is_up};
ghost use Rattle.script_reader.specs.Scripts.{StandsFor};
ghost use Rattle.script_reader.specs.Valid.{Scripted};
ghost use Rattle.run_model.specs.Doing.{beginning, cluster_of, due, is_in_ranges};
ghost use Rattle.run_model.specs.Follows.{Follows, IsRun, IsUnfinished, is_allowed};
ghost use Rattle.run_model.specs.Planned.{crash_due};
ghost use Rattle.run_model.specs.Schedule.{AreDue, IsFirstLimit, IsFixed, IsWithinLimits, schedule, turn_done};
ghost use Rattle.run_model.specs.Turns.{BeginsTurn, ComesNext, IsUnderWay};

/// After so many ended turns the fixed schedule makes a round.
pub const TURNS_PER_ROUND: usize = 64;

/// A script that a text stands for stays in its ranges, and its seeds and ties are legal, one after the other.
pub fn the_beginning_is_legal()
    ensures read { (bytes : List ℕ) (s : Scripted) → StandsFor bytes s → is_in_ranges s ≡ true }
    ensures legal { (s : Scripted) → is_in_ranges s ≡ true → IsLegal (cluster_of s) (beginning s) }
{}

/// The fixed schedule gives one history at most.
pub fn the_fixed_history_is_unique()
    ensures { (s : Scripted) (h g : List Event) → IsFixed s h → IsFixed s g → h ≡ g }
{}

/// The acts of turns are legal: in each run of a script no rule refuses what is due next in the turn of a busy actor on a node
/// that is up, be it an act or the rest; and it is allowed next, unless a crash is due. So who makes the acts that are due, one
/// by one, needs no answer for an illegal one.
pub fn acts_of_turns_are_legal()
    ensures legal { (s : Scripted) (a : Actor) (h : List Event) → is_in_ranges s ≡ true → IsRun s h
        → is_busy a h ≡ true → is_up a.node h ≡ true → refusal (cluster_of s) (due s a h) h ≡ None }
    ensures allowed { (s : Scripted) (a : Actor) (h : List Event) → is_in_ranges s ≡ true → IsRun s h
        → is_busy a h ≡ true → is_up a.node h ≡ true → crash_due s h ≡ None → is_allowed s (due s a h) h ≡ true }
{}

/// Who makes what is due in an actor's turn, act by act, until the rest is due, has made the whole turn of the fixed schedule.
pub fn what_is_due_is_the_whole_turn()
    ensures { (s : Scripted) (a : Actor) (q h : List Event) → AreDue s a q h → due s a (q ++ h) ≡ Rest a
        → turn_done s a h ≡ Rest a ∷ (q ++ h) }
{}

/// Whatever acts of an actor's turn were due and made so far, what is due next comes next in the whole turn.
pub fn what_is_due_comes_next()
    ensures { (s : Scripted) (a : Actor) (q h : List Event) → AreDue s a q h → ComesNext s a q h }
{}

/// While a turn of the fixed schedule is under way its actor is busy on a node that is up, and no rule refuses what is due next:
/// the act, the rest, or the crash that comes with the rest.
pub fn turns_of_the_fixed_schedule_are_legal()
    ensures { (s : Scripted) (a : Actor) (k : ℕ) (e : Event) (q : List Event) → is_in_ranges s ≡ true → BeginsTurn a e
        → refusal (cluster_of s) e (schedule s k) ≡ None → AreDue s a q (e ∷ schedule s k) → IsUnderWay s a (q ++ e ∷ schedule s k) }
{}

/// The history of each run is legal, also while its closing round is made and where that has closed it.
pub fn runs_are_legal()
    ensures unfinished { (s : Scripted) (h : List Event) → is_in_ranges s ≡ true → IsUnfinished s h
        → IsLegal (cluster_of s) h }
    ensures follows { (s : Scripted) (h : List Event) → is_in_ranges s ≡ true → Follows s h
        → IsLegal (cluster_of s) h }
{}

/// The fixed schedule makes whole turns without a look at the rules, and each history that it makes is legal.
pub fn the_fixed_schedule_is_legal()
    ensures made { (s : Scripted) (k : ℕ) → is_in_ranges s ≡ true → IsLegal (cluster_of s) (schedule s k) }
    ensures fixed { (s : Scripted) (h : List Event) → is_in_ranges s ≡ true → IsFixed s h
        → IsLegal (cluster_of s) h }
{}

/// The first limit that the fixed schedule passes is one limit, after one history. There is none where the fixed history passes
/// no limit.
pub fn the_first_limit_is_unique()
    ensures unique { (s : Scripted) (p q : List Event) (w v : Which) → IsFirstLimit s p w → IsFirstLimit s q v → (p ≡ q) × (w ≡ v) }
    ensures none { (s : Scripted) (h p : List Event) (w : Which) → IsFixed s h → IsWithinLimits (cluster_of s) h
        → ¬ IsFirstLimit s p w }
{}
