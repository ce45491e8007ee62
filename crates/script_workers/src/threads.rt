//! The threads of a run.
ghost use Rattle.std.specs.Prelude.{◌≡◌, ◌+◌, ◌<◌, true, IfSome};
ghost use denote.Param.Send.{IsSync};
ghost use Rattle.run_model.specs.Doing.{cluster_of};
ghost use Rattle.cluster_calls.specs.Calling.{IsSame};
ghost use Rattle.script_workers.specs.Leading.{HasLed, HasServed, MayLead, MayServe, MayServeNodes, has_end};
ghost use Rattle.script_workers.specs.Returned.{IsBack, KeepsOne};

use crate::collecting::collect_at;
use actor_dispatch::work;
use behaviour_lang::Code;
use cluster_calls::ask;
use collector::Collector;
use crgc_ids::NodeId;
use crgc_io::Gate;
use node_threads::pump;
use operation_model::Op;
use std::alloc::Global;
use std::sync::Wait;
use std::thread::{Threads, join};
use std::time::Clock;
use turn_lock::{Pass, TurnLock};
use world_object::Shared;

/// Who has a thread in a run: so many workers, and the pump and the collector of each node. They are numbered in this order.
#[derive(Clone, Copy, PartialEq, Eq, Debug)]
pub struct Crew {
    pub workers: u32,
    pub nodes: u8,
}

/// Runs so many of the crew beside each other, each in a thread of its own where one can be made and with a pass of its own, to their
/// ends. The first pass of the lock has then taken in those of the crew. With it come the collectors that came back, but for each
/// one for which there was no memory in the list.
pub(crate) fn serve_all<G: Gate + Sync, R: Threads + Wait + Clock + Sync>(
    rt: &R,
    alloc: Global,
    lock: &TurnLock<Shared>,
    mut first: Pass<Shared>,
    code: &Code,
    gate: &G,
    crew: Crew,
    count: u32,
) -> (Pass<Shared>, Vec<Collector>)
    requires lead { MayLead lock.now code.now crew count first }
    requires shared { IsSync R.row × IsSync G.row }
    ensures { HasLed lock.now count first result.0 result.1.items }
{
    if count == 0 {
        return (first, Vec::new(alloc));
    }
    let others = count - 1;
    let pass = lock.split(&mut first);
    let (led, served) = join(
        rt,
        move || -> (Pass<Shared>, Vec<Collector>)
            requires { IsSync R.row × IsSync G.row × MayLead lock.now code.now crew others first }
            ensures { HasLed lock.entry.now others first result.0 result.1.items }
        { serve_all(rt, alloc, lock, first, code, gate, crew, others) },
        move || -> (Pass<Shared>, Option<Collector>)
            requires { MayServe lock.now code.now crew others pass }
            ensures { HasServed lock.entry.now crew others pass result.0 result.1 }
        { serve(rt, alloc, lock, pass, code, gate, crew, others) },
    );
    let (mut first, mut collectors) = led;
    let (ended, collector) = served;
    lock.join(&mut first, ended);
    keep(&mut collectors, collector);
    (first, collectors)
}

/// The collector, if there is one, comes last, if there is memory for it.
fn keep(collectors: &mut Vec<Collector>, collector: Option<Collector>)
    ensures { KeepsOne collector collectors.old.items collectors.new.items }
{
    if let Some(collector) = collector {
        let _kept = collectors.push(collector);
    }
}

/// The one of the crew with this number runs to its end; the answer is its pass, and its collector, if it has one. The history of
/// the lock tells why it ended. By a last question all calls of the pass are known to be its own.
fn serve<G: Gate, R: Wait + Clock>(
    rt: &R,
    alloc: Global,
    lock: &TurnLock<Shared>,
    mut pass: Pass<Shared>,
    code: &Code,
    gate: &G,
    crew: Crew,
    number: u32,
) -> (Pass<Shared>, Option<Collector>)
    requires { MayServe lock.now code.now crew number pass }
    ensures { HasServed lock.now crew number pass result.0 result.1 }
{
    let collector = serve_one(rt, alloc, lock, &mut pass, code, gate, crew, number);
    let _last = ask(rt, lock, &mut pass, Op::Finished);
    (pass, collector)
}

/// The same, but for the last question.
fn serve_one<G: Gate, R: Wait + Clock>(
    rt: &R,
    alloc: Global,
    lock: &TurnLock<Shared>,
    pass: &mut Pass<Shared>,
    code: &Code,
    gate: &G,
    crew: Crew,
    number: u32,
) -> Option<Collector>
    requires { MayServe lock.now code.now crew number pass.old }
    ensures same { IsSame pass.old pass.new }
    ensures ended { number < crew.workers → has_end pass.new.own ≡ true }
    ensures back { IfSome result (IsBack (cluster_of lock.now.start.script) pass.new.own) }
{
    if number < crew.workers {
        let _ended = work(rt, alloc, lock, pass, code, gate, number);
        return None;
    }
    serve_node(rt, alloc, lock, pass, crew.nodes, number - crew.workers)
}

/// The pump of the node with this number, or from their number on the collector of a node, runs to its end; the answer is the
/// collector, if it is one and goes with its pass.
fn serve_node<R: Wait + Clock>(
    rt: &R,
    alloc: Global,
    lock: &TurnLock<Shared>,
    pass: &mut Pass<Shared>,
    nodes: u8,
    number: u32,
) -> Option<Collector>
    requires may { MayServeNodes lock.now nodes pass.old }
    requires number { number < nodes + nodes }
    ensures same { IsSame pass.old pass.new }
    ensures back { IfSome result (IsBack (cluster_of lock.now.start.script) pass.new.own) }
{
    let first = u32::from(nodes);
    if number < first {
        if let Some(node) = NodeId::new(number as u8) {
            let _ended = pump(rt, lock, pass, node);
        }
        return None;
    }
    match NodeId::new((number - first) as u8) {
        Some(node) => collect_at(rt, alloc, lock, pass, node, nodes),
        None => None,
    }
}
