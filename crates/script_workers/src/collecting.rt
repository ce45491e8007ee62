//! The thread of a node's collector, from its claim on.
ghost use Rattle.std.specs.Prelude.{◌≡◌, ◌<◌, ◌∷◌, [], IfSome};
ghost use Rattle.run_model.specs.Doing.{cluster_of};
ghost use Rattle.turn_lock.specs.History.{entry};
ghost use Rattle.operation_model.specs.declared.operations.Op.TheVariants as ops;
ghost use Rattle.operation_model.specs.declared.replies.Reply.TheVariants as replies;
ghost use Rattle.cluster_calls.specs.Calling.{IsSame};
ghost use Rattle.script_workers.specs.Leading.{IsOfNew, MayServeNodes};
ghost use Rattle.script_workers.specs.Returned.{IsBack};

use cluster_calls::{ask, give_up};
use collected_calls::laws::a_collector_follows_the_calls_of_its_pass;
use collector::Collector;
use crgc_ids::NodeId;
use node_threads::collect;
use operation_model::{Op, Reply};
use std::alloc::Global;
use std::sync::Wait;
use std::time::Clock;
use turn_lock::{Pass, TurnLock};
use world_object::Shared;

/// Claims the node, and collects for it with a new collector until nothing is left to do or the node is down. The answer is the
/// collector; None where the claim is not granted, or the cluster has halted. It may wait.
pub(crate) fn collect_at<R: Wait + Clock>(
    rt: &R,
    alloc: Global,
    lock: &TurnLock<Shared>,
    pass: &mut Pass<Shared>,
    node: NodeId,
    nodes: u8,
) -> Option<Collector>
    requires may { MayServeNodes lock.now nodes pass.old }
    requires node { node < nodes }
    ensures same { IsSame pass.old pass.new }
    ensures back { IfSome result (IsBack (cluster_of lock.now.start.script) pass.new.own) }
{
    match ask(rt, lock, pass, Op::Claim { node }) {
        Ok(Reply::Done) => collect_claimed(rt, alloc, lock, pass, node, nodes),
        _ => None,
    }
}

// The same, once the node is claimed.
fn collect_claimed<R: Wait + Clock>(
    rt: &R,
    alloc: Global,
    lock: &TurnLock<Shared>,
    pass: &mut Pass<Shared>,
    node: NodeId,
    nodes: u8,
) -> Option<Collector>
    requires may { IsOfNew lock.now nodes pass.old }
    requires node { node < nodes }
    requires claimed { pass.old.own ≡ entry pass.old.number (ops.Claim node) replies.Done ∷ [] }
    ensures same { IsSame pass.old pass.new }
    ensures back { IfSome result (IsBack (cluster_of lock.now.start.script) pass.new.own) }
{
    a_collector_follows_the_calls_of_its_pass();
    match Collector::new(alloc, node, nodes) {
        Ok(collector) => match collect(rt, lock, pass, collector) {
            Ok(collector) => Some(collector),
            Err(_) => None,
        },
        Err(_) => {
            give_up(rt, lock, pass);
            None
        }
    }
}
