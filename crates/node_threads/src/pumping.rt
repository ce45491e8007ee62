//! The pump.
ghost use Rattle.std.specs.Prelude.{◌≡◌, ◌⊎◌, IfErr, OnOk, Some};
ghost use Rattle.operation_model.specs.Openings.{IsSoundOpening};
ghost use Rattle.operation_model.specs.declared.replies.Reply.TheVariants.{Halted};
ghost use Rattle.world_object.specs.State.{as_opening};
ghost use Rattle.cluster_calls.specs.Calling.{last_reply};
ghost use Rattle.node_threads.specs.Pumping.{EndsDown, HasAll};
ghost use Rattle.node_threads.specs.Questions.{EndsDone, times_given_up};

use crate::idling::pause;
use crate::questions::all_done;
use crate::rounds::pump_once;
use crgc_ids::NodeId;
use operation_model::Halt;
use std::sync::Wait;
use std::time::Clock;
use turn_lock::{Pass, TurnLock};
use world_object::Shared;

/// Moves what its node has to tell and what others sent to it, until nothing is left to do or the node is down: it carries the links
/// that lead to the node, makes windows, removes crashed nodes and publishes; the Err is why the cluster has halted.
///
/// Where it ends and the node is not down, its last two questions whether nothing is left to do were both answered so, and between
/// them it carried each link once more, and tried a window, a removal and a publish. It takes no memory of its own, so it never makes
/// `GiveUp`. It may wait: for its turn at the lock, and between two rounds for some milliseconds, so that workers have the lock.
pub fn pump<R: Wait + Clock>(
    rt: &R,
    lock: &TurnLock<Shared>,
    pass: &mut Pass<Shared>,
    node: NodeId,
) -> Result<(), Halt>
    requires lock { pass.old.origin ≡ lock.now.origin }
    requires sound { IsSoundOpening (as_opening lock.now.start) }
    ensures pass { pass.new ≡ record pass.old { seen = pass.new.seen; own = pass.new.own } }
    ensures done { OnOk result (EndsDone pass.old.number (HasAll node) pass.new.own ⊎ EndsDown node pass.new.own) }
    ensures halted { IfErr result (λ halt. last_reply pass.new.own ≡ Some (Halted halt)) }
    ensures gives { times_given_up pass.new.own ≡ times_given_up pass.old.own }
{
    let mut over = false;
    for _ in rt.forever() {
        let any = match pump_once(rt, lock, pass, node) {
            Ok(Some(any)) => any,
            Ok(None) => return Ok(()),
            Err(halt) => return Err(halt),
        };
        match all_done(rt, lock, pass) {
            Ok(true) if over => return Ok(()),
            Ok(done) => over = done,
            Err(halt) => return Err(halt),
        }
        pause(rt, any, over);
    }
    unreachable!()
}
