//! The laws of the table of a script's actors, and of their turns. Each function does nothing, and its contract is the law.
ghost use Rattle.std.specs.Prelude.{ℕ, ◌≡◌, ◌<◌, ◌++◌, ◌∷◌, false, true, length, IsSome, IsTrue, List};
ghost use Rattle.std.specs.List.{list_all};
ghost use Rattle.crgc_ids.specs.Actor.{Actor};
ghost use Rattle.history_model.specs.declared.events.Event.{Event};
ghost use Rattle.history_model.specs.declared.events.Event.TheVariants.{Drop, Retire, Send};
ghost use Rattle.history_model.specs.Cluster.{is_born};
ghost use Rattle.history_model.specs.State.{is_busy};
ghost use Rattle.behaviour_lang.specs.Code.{IsCode};
ghost use Rattle.behaviour_lang.specs.TurnState.{TurnState};
ghost use Rattle.behaviour_lang.specs.declared.act.Step.{Step as Steps};
ghost use Rattle.script_reader.specs.Valid.{Scripted};
ghost use Rattle.run_model.specs.Round.{is_of_round};
ghost use Rattle.script_actors.specs.Table.{IsHere, Table, behaviour_at, names_at, next_on};
ghost use Rattle.script_actors.specs.Standing.{AreActorsAt, is_of_no_turn};
ghost use Rattle.script_actors.specs.Turns.{IsAfter, IsTurnOf, MakesStep, is_of_turn};
ghost use Rattle.history_model.specs.Cluster.{newborn};

/// Who was born is in the table, and who is not busy may begin a turn; the next actor of a node is the one that is born next.
pub fn who_may_begin_a_turn()
    ensures here { (s : Scripted) (h : List Event) (t : Table) (a : Actor) → AreActorsAt s h t → IsTrue (is_born a h) → IsHere t a }
    ensures idle { (s : Scripted) (h : List Event) (t : Table) (a : Actor) → AreActorsAt s h t → IsTrue (is_born a h)
        → is_busy a h ≡ false → IsSome (names_at t a) }
    ensures in_code { (s : Scripted) (h : List Event) (t : Table) (a : Actor) → AreActorsAt s h t → IsTrue (is_born a h)
        → behaviour_at t a < length s.code }
    ensures next { (s : Scripted) (h : List Event) (t : Table) (n : ℕ) → AreActorsAt s h t → next_on t n ≡ newborn n h }
{}

/// What a busy actor sends, drops or retires leaves the table.
pub fn acts_leave_the_actors()
    ensures sends { (s : Scripted) (h : List Event) (t : Table) (a to : Actor) (refs : List Actor) → is_busy a h ≡ true
        → AreActorsAt s h t → AreActorsAt s (Send a to refs ∷ h) t }
    ensures drops { (s : Scripted) (h : List Event) (t : Table) (a target : Actor) → is_busy a h ≡ true
        → AreActorsAt s h t → AreActorsAt s (Drop a target ∷ h) t }
    ensures retires { (s : Scripted) (h : List Event) (t : Table) (a : Actor) → is_busy a h ≡ true
        → AreActorsAt s h t → AreActorsAt s (Retire a ∷ h) t }
{}

/// Events of links, streams and collectors, and crashes, leave the table; so does a round.
pub fn other_events_leave_the_actors()
    ensures other { (s : Scripted) (e : Event) (h : List Event) (t : Table) → is_of_no_turn e ≡ true
        → AreActorsAt s h t → AreActorsAt s (e ∷ h) t }
    ensures round { (s : Scripted) (q h : List Event) (t : Table) → list_all is_of_round q ≡ true
        → AreActorsAt s h t → AreActorsAt s (q ++ h) t }
{}

/// Each step of the code's turn is what is due in the actor's turn: work is none of its events, an act is the act that is due,
/// and at the end its rest is due.
pub fn steps_are_due()
    ensures { (s : Scripted) (a : Actor) (h : List Event) (step : Steps) (old new : TurnState) → IsCode s.code → IsTurnOf s a h old
        → MakesStep s.code step old new → IsAfter s a h step new }
{}

/// Events that are none of an actor's turn leave that turn.
pub fn other_events_leave_a_turn()
    ensures other { (s : Scripted) (a : Actor) (e : Event) (h : List Event) (t : TurnState) → IsTrue (is_born a h)
        → is_of_turn a e ≡ false → IsTurnOf s a h t → IsTurnOf s a (e ∷ h) t }
{}
