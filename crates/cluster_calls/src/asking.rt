//! Calls of a pass through the lock of a cluster.
ghost use Rattle.std.specs.Prelude.{◌≡◌, IfErr, IfOk, Some};
ghost use Rattle.operation_model.specs.Fits.{Fits};
ghost use Rattle.operation_model.specs.declared.replies.Halt.{Halt as Halts};
ghost use Rattle.operation_model.specs.declared.replies.Reply.TheVariants.{Halted};
ghost use Rattle.world_object.specs.State.{as_opening};
ghost use Rattle.cluster_calls.specs.Calling.{CanAsk, IsAsked, IsNoHalt, IsSame, last_reply, reply_in};

use operation_model::{Halt, Op, Reply};
use std::sync::Wait;
use turn_lock::{Pass, TurnLock};
use world_object::Shared;

/// Makes an operation; the Err is why the cluster has halted. It may wait for its turn at the lock.
pub fn ask<R: Wait>(
    rt: &R,
    lock: &TurnLock<Shared>,
    pass: &mut Pass<Shared>,
    op: Op,
) -> Result<Reply, Halt>
    requires may { CanAsk lock.now pass.old }
    requires fits { Fits (as_opening lock.now.start) pass.old.seen op pass.old.number }
    ensures asked { IsAsked (as_opening lock.now.start) op (reply_in result) pass.old pass.new }
    ensures ok { IfOk result IsNoHalt }
    ensures err { IfErr result (λ halt. last_reply pass.new.own ≡ Some (Halted halt)) }
{
    unless_halted(lock.call(rt, pass, op))
}

/// The pass found no memory: the cluster halts, if it has not. The answer is why. It may wait for its turn at the lock.
pub fn give_up<R: Wait>(rt: &R, lock: &TurnLock<Shared>, pass: &mut Pass<Shared>) -> Halt
    requires { CanAsk lock.now pass.old }
    ensures same { IsSame pass.old pass.new }
    ensures halted { last_reply pass.new.own ≡ Some (Halted result) }
{
    halt_in(lock.call(rt, pass, Op::GiveUp))
}

// A halt is an error.
fn unless_halted(reply: Reply) -> Result<Reply, Halt>
    ensures reply { reply_in result ≡ reply }
    ensures ok { IfOk result IsNoHalt }
{
    match reply {
        Reply::Halted(halt) => Err(halt),
        reply => Ok(reply),
    }
}

// The halt that the reply tells.
fn halt_in(reply: Reply) -> Halt
    requires { (halt : Halts) × (reply ≡ Halted halt) }
    ensures { reply ≡ Halted result }
{
    match reply {
        Reply::Halted(halt) => halt,
        _ => unreachable!(),
    }
}
