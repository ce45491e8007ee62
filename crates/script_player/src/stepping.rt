//! Steps of turns, up to the next act.
ghost use Rattle.std.specs.Prelude.{ℕ, ◌≡◌, ◌<◌, false, IfOk, List, length, None};
ghost use Rattle.crgc_ids.specs.Actor.{Actor};
ghost use Rattle.history_model.specs.declared.events.Event.{Event};
ghost use Rattle.behaviour_lang.specs.Code.{IsCode};
ghost use Rattle.script_reader.specs.Valid.{Scripted};
ghost use Rattle.script_actors.specs.Turns.{IsTurnOf};
ghost use Rattle.script_player.specs.Standing.{DoesNext};

use behaviour_lang::{Act, Code, Step, Turn};
use crgc_ids::NoMemory;
use script_actors::next_step;
use work_steps::work_for;

/// The next act of a turn, and before it the work that comes first; None at the turn's end.
pub(crate) fn next_act(turn: &mut Turn, code: &Code) -> Result<Option<Act>, NoMemory>
    requires running { turn.old.ended ≡ false }
    requires none_owed { turn.old.owed ≡ None }
    requires in_code { turn.old.behaviour < length code.now }
    ensures { IfOk result (λ act. (s : Scripted) (a : Actor) (h : List Event) → s.code ≡ code.now → IsCode s.code
        → IsTurnOf s a h turn.old → DoesNext s a h act turn.new) }
{
    loop {
        match next_step(turn, code)? {
            Step::Act(act) => return Ok(Some(act)),
            Step::Work(steps) => {
                work_for(steps);
            }
            Step::End => return Ok(None),
        }
    }
}
