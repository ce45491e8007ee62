//! The thread of a node's collector.
ghost use Rattle.std.specs.Prelude.{◌≡◌, ◌⊎◌, IfErr, IfOk, Some};
ghost use Rattle.run_model.specs.Doing.{cluster_of};
ghost use Rattle.operation_model.specs.Openings.{IsNew};
ghost use Rattle.operation_model.specs.declared.replies.Reply.TheVariants.{Halted};
ghost use Rattle.world_object.specs.State.{as_opening};
ghost use Rattle.collected_calls.specs.Collecting.{IsCollectorOf};
ghost use Rattle.cluster_calls.specs.Calling.{IsSame, last_reply};
ghost use Rattle.node_threads.specs.Collecting.{HasDropped, IsAllCollected, IsDown};
ghost use Rattle.node_threads.specs.Fetching.{CanCollect, GoesOrEnds, IsRound};
ghost use Rattle.node_threads.specs.Questions.{IsOver};

use crate::fetching::fetch_each;
use crate::idling::pause;
use crate::questions::all_done;
use crate::sweeping::sweep;
use collector::Collector;
use operation_model::Halt;
use std::sync::Wait;
use std::time::Clock;
use turn_lock::{Pass, TurnLock};
use world_object::Shared;

/// Collects for a node until nothing is left to do or the node is down: the collector takes each bulletin that its pass is handed
/// for the node, sweeps after those that it took, tells its verdict, and drops whom it stopped. The answer is the collector; the Err
/// is why the cluster has halted. The pass has claimed the collector's node in a lock that was made with the cluster of a script, and
/// the collector goes with the calls of the pass.
///
/// The collector takes bulletins, marks and makes its verdict outside the lock. It may wait: for its turn at the lock, and between
/// two rounds for some milliseconds, so that workers have the lock.
pub fn collect<R: Wait + Clock>(
    rt: &R,
    lock: &TurnLock<Shared>,
    pass: &mut Pass<Shared>,
    collector: Collector,
) -> Result<Collector, Halt>
    requires lock { pass.old.origin ≡ lock.now.origin }
    requires opening { IsNew (as_opening lock.now.start) }
    requires collector { IsCollectorOf (cluster_of lock.now.start.script) pass.old.own collector }
    ensures pass { pass.new ≡ record pass.old { seen = pass.new.seen; own = pass.new.own } }
    ensures done { IfOk result (λ c. IsAllCollected lock.now.start.script pass.old pass.new c ⊎ IsDown lock.now.start.script pass.new c) }
    ensures node { IfOk result (λ c. c.node ≡ collector.node) }
    ensures dropped { IfOk result HasDropped }
    ensures halted { IfErr result (λ halt. last_reply pass.new.own ≡ Some (Halted halt)) }
{
    let mut collector = collector;
    collector.compact();
    match all_done(rt, lock, pass) {
        Ok(over) => collect_all(rt, lock, pass, collector, over),
        Err(halt) => Err(halt),
    }
}

// The same, once it has asked whether nothing is left to do, and was told whether it is so.
fn collect_all<R: Wait + Clock>(
    rt: &R,
    lock: &TurnLock<Shared>,
    pass: &mut Pass<Shared>,
    collector: Collector,
    over: bool,
) -> Result<Collector, Halt>
    requires may { CanCollect lock.now pass.old collector }
    requires over { IsOver pass.old.number over pass.old.own }
    ensures same { IsSame pass.old pass.new }
    ensures done { IfOk result (λ c. IsAllCollected lock.now.start.script pass.old pass.new c ⊎ IsDown lock.now.start.script pass.new c) }
    ensures node { IfOk result (λ c. c.node ≡ collector.node) }
    ensures dropped { IfOk result HasDropped }
    ensures err { IfErr result (λ halt. last_reply pass.new.own ≡ Some (Halted halt)) }
{
    let mut collector = collector;
    let mut over = over;
    for _ in rt.forever() {
        let any = match collect_once(rt, lock, pass, &mut collector) {
            Ok(Some(any)) => any,
            Ok(None) => return Ok(collector),
            Err(halt) => return Err(halt),
        };
        let done = match all_done(rt, lock, pass) {
            Ok(done) => done,
            Err(halt) => return Err(halt),
        };
        if done & over {
            return Ok(collector);
        }
        over = done;
        pause(rt, any, done);
    }
    unreachable!()
}

// One round: the collector takes all bulletins that are there, and sweeps if there were any; whether there were. None where its
// node is down.
fn collect_once<R: Wait>(
    rt: &R,
    lock: &TurnLock<Shared>,
    pass: &mut Pass<Shared>,
    collector: &mut Collector,
) -> Result<Option<bool>, Halt>
    requires { CanCollect lock.now pass.old collector.old }
    ensures same { IsSame pass.old pass.new }
    ensures round { IfOk result (GoesOrEnds lock.now pass.old pass.new collector.old collector.new (IsRound collector.new)) }
    ensures err { IfErr result (λ halt. last_reply pass.new.own ≡ Some (Halted halt)) }
{
    match fetch_each(rt, lock, pass, collector) {
        Ok(Some(true)) => sweep(rt, lock, pass, collector),
        Ok(Some(false)) => Ok(Some(false)),
        Ok(None) => Ok(None),
        Err(halt) => Err(halt),
    }
}
