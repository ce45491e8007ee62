//! Sweeps of a node's collector.
ghost use Rattle.std.specs.Prelude.{◌≡◌, true, IfErr, IfOk, OnErr, Some};
ghost use Rattle.operation_model.specs.Hands.{given_since};
ghost use Rattle.operation_model.specs.declared.replies.Reply.TheVariants.{Halted};
ghost use Rattle.collector.specs.Collected.{IsSettled};
ghost use Rattle.node_collectors.specs.Standing.{SweepsOut};
ghost use Rattle.cluster_calls.specs.Calling.{IsSame, last_reply};
ghost use Rattle.node_threads.specs.Fetching.{AreSweeps, CanCollect, GoesOrEnds};

use crate::rounds::done;
use cluster_calls::{ask, give_up};
use collector::Collector;
use crgc_ids::NoMemory;
use history_model::Verdict;
use operation_model::{Halt, Op};
use std::sync::Wait;
use turn_lock::{Pass, TurnLock};
use world_object::Shared;

/// The collector sweeps, drops whom it stopped, and tells its verdict; its pass was given a bulletin for its node since the last
/// sweep. None where the node is down.
pub(crate) fn sweep<R: Wait>(
    rt: &R,
    lock: &TurnLock<Shared>,
    pass: &mut Pass<Shared>,
    collector: &mut Collector,
) -> Result<Option<bool>, Halt>
    requires may { CanCollect lock.now pass.old collector.old }
    requires given { given_since collector.old.node pass.old.own ≡ true }
    ensures same { IsSame pass.old pass.new }
    ensures swept { IfOk result (GoesOrEnds lock.now pass.old pass.new collector.old collector.new (AreSweeps collector.old collector.new)) }
    ensures err { IfErr result (λ halt. last_reply pass.new.own ≡ Some (Halted halt)) }
{
    match sweep_out(collector) {
        Ok(verdict) => {
            let node = verdict.node;
            match ask(rt, lock, pass, Op::Sweep { verdict }) {
                Ok(reply) => Ok(done(reply, node)),
                Err(halt) => Err(halt),
            }
        }
        Err(_) => Err(give_up(rt, lock, pass)),
    }
}

// The collector sweeps, and drops whom it stopped.
fn sweep_out(collector: &mut Collector) -> Result<Verdict, NoMemory>
    requires { IsSettled collector.old }
    ensures ok { IfOk result (SweepsOut collector.old collector.new) }
    ensures err { OnErr result (collector.new ≡ collector.old) }
{
    match collector.sweep() {
        Ok(verdict) => {
            collector.compact();
            Ok(verdict)
        }
        Err(_) => Err(NoMemory),
    }
}
