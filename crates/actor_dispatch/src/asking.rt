//! Calls that a worker makes through the lock.
ghost use Rattle.std.specs.Prelude.{◌≡◌, IfErr, IfOk, Some};
ghost use Rattle.operation_model.specs.Fits.{Fits};
ghost use Rattle.operation_model.specs.declared.replies.Reply.TheVariants.{Halted};
ghost use Rattle.world_object.specs.State.{as_opening};
ghost use Rattle.cluster_calls.specs.Calling.{CanAsk, IsSame, last_reply, reply_in};
ghost use Rattle.actor_dispatch.specs.Calling.{IsAnswered, IsQuiet, short_of};
ghost use Rattle.actor_dispatch.specs.Turning.{LeavesNone};

use cluster_calls::ask;
use crgc_ids::ActorId;
use operation_model::{Halt, Op, Reply};
use std::sync::Wait;
use turn_lock::{Pass, TurnLock};
use world_object::Shared;

/// Makes an operation that neither begins nor ends a turn.
pub(crate) fn ask_quietly<R: Wait>(
    rt: &R,
    lock: &TurnLock<Shared>,
    pass: &mut Pass<Shared>,
    op: Op,
) -> Result<Reply, Halt>
    requires may { CanAsk lock.now pass.old }
    requires quiet { IsQuiet op }
    ensures same { IsSame pass.old pass.new }
    ensures last { last_reply pass.new.own ≡ Some (reply_in result) }
    ensures turns { LeavesNone pass.old.own pass.new.own }
{
    ask(rt, lock, pass, op)
}

/// What is told of the end of a turn, and of its acts.
#[derive(Clone, Copy, PartialEq, Eq, Debug)]
pub(crate) enum Short {
    Done,
    Born(ActorId),
    Down,
    Other,
}

/// Makes an operation of the turn that runs.
pub(crate) fn ask_shortly<R: Wait>(
    rt: &R,
    lock: &TurnLock<Shared>,
    pass: &mut Pass<Shared>,
    op: Op,
) -> Result<Short, Halt>
    requires may { CanAsk lock.now pass.old }
    requires fits { Fits (as_opening lock.now.start) pass.old.seen op pass.old.number }
    ensures same { IsSame pass.old pass.new }
    ensures ok { IfOk result (λ s. IsAnswered (as_opening lock.now.start) op s pass.old pass.new) }
    ensures err { IfErr result (λ halt. last_reply pass.new.own ≡ Some (Halted halt)) }
{
    match ask(rt, lock, pass, op) {
        Ok(reply) => Ok(in_short(reply)),
        Err(halt) => Err(halt),
    }
}

// What the reply says, in short.
fn in_short(reply: Reply) -> Short
    ensures { result ≡ short_of reply }
{
    match reply {
        Reply::Done => Short::Done,
        Reply::Born(child) => Short::Born(child),
        Reply::Down(_) => Short::Down,
        _ => Short::Other,
    }
}
