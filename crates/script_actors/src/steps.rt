//! Steps of turns.
ghost use Rattle.std.specs.Prelude.{ℕ, ◌≡◌, ◌<◌, ◌∷◌, false, length, IfOk, List, None, OnErr};
ghost use Rattle.crgc_ids.specs.Actor.{Actor};
ghost use Rattle.history_model.specs.declared.events.Event.{Event};
ghost use Rattle.behaviour_lang.specs.Code.{IsCode};
ghost use Rattle.script_reader.specs.Valid.{Scripted};
ghost use Rattle.script_actors.specs.Turns.{IsAfter, IsTurnOf, MakesStep};

use behaviour_lang::{Code, Step, Turn};
use crgc_ids::NoMemory;

/// The next step of a turn, as `Turn::next`. Of the turn of an actor of a script it is the one that is due: an act, some work,
/// or the end, at which the actor rests.
pub fn next_step(turn: &mut Turn, code: &Code) -> Result<Step, NoMemory>
    requires running { turn.old.ended ≡ false }
    requires none_owed { turn.old.owed ≡ None }
    requires in_code { turn.old.behaviour < length code.now }
    ensures made { IfOk result (λ step. MakesStep code.now step turn.old turn.new) }
    ensures due { IfOk result (λ step. (s : Scripted) (a : Actor) (h : List Event) → s.code ≡ code.now → IsCode s.code
        → IsTurnOf s a h turn.old → IsAfter s a h step turn.new) }
    ensures err { OnErr result (turn.new ≡ turn.old) }
{
    turn.next(code)
}
