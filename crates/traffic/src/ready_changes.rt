//! Changes of the set of actors that may take a message, and how one is undone.
ghost use Rattle.std.specs.Prelude.{◌≡◌, ◌&&◌, not, OnErr, OnOk, IfOk};
ghost use Rattle.crgc_ids.specs.Actor.{Actor, same_actor};
ghost use Rattle.ready_actors.specs.Ready.{has_actor};
ghost use Rattle.traffic.specs.Changes.{IsReadyIf};

use crgc_ids::{ActorId, NoMemory};
use ready_actors::ReadyActors;

/// The actor is one of them from now on, if so; the answer is whether it was none before. After `NoMemory` all is as before.
pub fn put_if(ready: &mut ReadyActors, actor: ActorId, test: bool) -> Result<bool, NoMemory>
    ensures ok { OnOk result (IsReadyIf test ready.old ready.new actor) }
    ensures added { IfOk result (λ added. added ≡ (test && not (has_actor ready.old actor))) }
    ensures err { OnErr result (ready.new ≡ ready.old) }
{
    if !test {
        return Ok(false);
    }
    ready.put(actor)
}

/// The actor is taken out again, if it was added.
pub fn undo(ready: &mut ReadyActors, actor: ActorId, added: bool)
    ensures { (a : Actor) → has_actor ready.new a ≡ (not (added && same_actor actor a) && has_actor ready.old a) }
{
    if added {
        ready.take_out(actor);
    }
}
