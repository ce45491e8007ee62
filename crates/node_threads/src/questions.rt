//! The question whether nothing is left to do.
ghost use Rattle.std.specs.Prelude.{◌≡◌, IfErr, IfOk, Some};
ghost use Rattle.operation_model.specs.declared.operations.Op.TheVariants as ops;
ghost use Rattle.operation_model.specs.declared.replies.Reply.{Reply as Replies};
ghost use Rattle.operation_model.specs.declared.replies.Reply.TheVariants.{Halted};
ghost use Rattle.world_object.specs.State.{as_opening};
ghost use Rattle.cluster_calls.specs.Calling.{CanAsk, IsAsked, last_reply};
ghost use Rattle.node_threads.specs.Questions.{EndsOver, times_given_up};

use cluster_calls::ask;
use operation_model::{Halt, Op, Reply};
use std::sync::Wait;
use turn_lock::{Pass, TurnLock};
use world_object::Shared;

/// Whether nothing is left to do.
pub(crate) fn all_done<R: Wait>(
    rt: &R,
    lock: &TurnLock<Shared>,
    pass: &mut Pass<Shared>,
) -> Result<bool, Halt>
    requires { CanAsk lock.now pass.old }
    ensures asked { (r : Replies) × IsAsked (as_opening lock.now.start) ops.Finished r pass.old pass.new }
    ensures own { IfOk result (λ done. EndsOver pass.old.number done pass.old.own pass.new.own) }
    ensures err { IfErr result (λ halt. last_reply pass.new.own ≡ Some (Halted halt)) }
    ensures gives { times_given_up pass.new.own ≡ times_given_up pass.old.own }
{
    match ask(rt, lock, pass, Op::Finished) {
        Ok(Reply::AllDone) => Ok(true),
        Ok(_) => Ok(false),
        Err(halt) => Err(halt),
    }
}
