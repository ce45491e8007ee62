//! Bulletins, from the streams of all nodes to the collector of one.
ghost use Rattle.std.specs.Prelude.{◌≡◌, ◌<◌, IfErr, IfOk, OnOk, Some};
ghost use Rattle.operation_model.specs.declared.replies.Reply.TheVariants.{Halted};
ghost use Rattle.collector.specs.Collected.{node_count};
ghost use Rattle.collector.specs.Taking.{IsTaken, Takes};
ghost use Rattle.crgc_ids.specs.declared.limits.TheConstants.{MOST_EVENTS};
ghost use Rattle.node_collectors.specs.Standing.{IsRead};
ghost use Rattle.cluster_calls.specs.Calling.{IsSame, last_reply};
ghost use Rattle.node_threads.specs.Fetching.{AllAreFetched, AreFetchedIfNode, CanCollect, CanFold, EachIsFetched, GoesOrEnds, IsFetched, IsFolded};

use crate::NODES;
use cluster_calls::{ask, give_up};
use collector::{Collector, TakeFault};
use crgc_ids::{NoMemory, NodeId};
use operation_model::{Halt, Op, Reply};
use std::sync::Wait;
use turn_lock::{Pass, TurnLock};
use world_object::Shared;

/// The collector takes all bulletins that are there, of each node; whether there were any. None where its node is down.
pub(crate) fn fetch_each<R: Wait>(
    rt: &R,
    lock: &TurnLock<Shared>,
    pass: &mut Pass<Shared>,
    collector: &mut Collector,
) -> Result<Option<bool>, Halt>
    requires { CanCollect lock.now pass.old collector.old }
    ensures same { IsSame pass.old pass.new }
    ensures each { IfOk result (GoesOrEnds lock.now pass.old pass.new collector.old collector.new (EachIsFetched 16 collector.new)) }
    ensures err { IfErr result (λ halt. last_reply pass.new.own ≡ Some (Halted halt)) }
{
    let mut any = false;
    for number in 0..NODES {
        match fetch_from(rt, lock, pass, collector, number) {
            Ok(Some(some)) => any |= some,
            Ok(None) => return Ok(None),
            Err(halt) => return Err(halt),
        }
    }
    Ok(Some(any))
}

// The collector takes all bulletins that are there of the node with this number, if the cluster has it; whether there were any.
fn fetch_from<R: Wait>(
    rt: &R,
    lock: &TurnLock<Shared>,
    pass: &mut Pass<Shared>,
    collector: &mut Collector,
    number: u8,
) -> Result<Option<bool>, Halt>
    requires may { CanCollect lock.now pass.old collector.old }
    requires number { number < 16 }
    ensures same { IsSame pass.old pass.new }
    ensures all { IfOk result (GoesOrEnds lock.now pass.old pass.new collector.old collector.new
        (AreFetchedIfNode number collector.old collector.new)) }
    ensures err { IfErr result (λ halt. last_reply pass.new.own ≡ Some (Halted halt)) }
{
    if number >= collector.nodes() {
        return Ok(Some(false));
    }
    let origin = NodeId::new(number).unwrap();
    fetch_all(rt, lock, pass, collector, origin)
}

// The collector takes all bulletins that are there of the origin; whether there were any.
fn fetch_all<R: Wait>(
    rt: &R,
    lock: &TurnLock<Shared>,
    pass: &mut Pass<Shared>,
    collector: &mut Collector,
    origin: NodeId,
) -> Result<Option<bool>, Halt>
    requires may { CanCollect lock.now pass.old collector.old }
    requires origin { origin < node_count collector.old }
    ensures same { IsSame pass.old pass.new }
    ensures all { IfOk result (GoesOrEnds lock.now pass.old pass.new collector.old collector.new
        (AllAreFetched origin collector.old collector.new)) }
    ensures err { IfErr result (λ halt. last_reply pass.new.own ≡ Some (Halted halt)) }
{
    let mut any = false;
    for _ in rt.forever() {
        match fetch(rt, lock, pass, collector, origin) {
            Ok(Some(true)) => any = true,
            Ok(Some(false)) => return Ok(Some(any)),
            Ok(None) => return Ok(None),
            Err(halt) => return Err(halt),
        }
    }
    unreachable!()
}

// The collector takes the next bulletin of the origin; whether there is one. None where its node is down.
fn fetch<R: Wait>(
    rt: &R,
    lock: &TurnLock<Shared>,
    pass: &mut Pass<Shared>,
    collector: &mut Collector,
    origin: NodeId,
) -> Result<Option<bool>, Halt>
    requires may { CanCollect lock.now pass.old collector.old }
    requires origin { origin < node_count collector.old }
    ensures same { IsSame pass.old pass.new }
    ensures next { IfOk result (GoesOrEnds lock.now pass.old pass.new collector.old collector.new
        (IsFetched origin collector.old collector.new)) }
    ensures err { IfErr result (λ halt. last_reply pass.new.own ≡ Some (Halted halt)) }
{
    let node = collector.node();
    let number = collector.wants(origin);
    let hand = Op::Hand {
        node,
        origin,
        number,
    };
    match ask(rt, lock, pass, hand) {
        Ok(reply) => match fold(collector, origin, number, reply) {
            Ok(more) => Ok(more),
            Err(_) => Err(give_up(rt, lock, pass)),
        },
        Err(halt) => Err(halt),
    }
}

// What comes of the answer to a hand: a bulletin is taken; or there is none; or, where it is None, the node is down.
fn fold(
    collector: &mut Collector,
    origin: NodeId,
    number: u32,
    reply: Reply,
) -> Result<Option<bool>, NoMemory>
    requires origin { origin < node_count collector.old }
    requires can { CanFold (node_count collector.old) origin number reply }
    ensures { IfOk result (IsFolded origin number reply collector.old collector.new) }
{
    match reply {
        Reply::Bytes(bytes) => match take(collector, origin, number, bytes.as_slice()) {
            Ok(()) => Ok(Some(true)),
            Err(_) => Err(NoMemory),
        },
        Reply::Down(_) => Ok(None),
        _ => Ok(Some(false)),
    }
}

// The collector takes the bytes of a bulletin, which it can read: it refuses them for want of memory alone.
fn take(
    collector: &mut Collector,
    origin: NodeId,
    number: u32,
    bytes: &[u8],
) -> Result<(), NoMemory>
    requires origin { origin < node_count collector.old }
    requires number { number < MOST_EVENTS }
    requires read { IsRead (node_count collector.old) origin bytes.now }
    ensures takes { OnOk result (Takes origin number bytes.now collector.old collector.new) }
    ensures taken { OnOk result (IsTaken origin number collector.new) }
{
    match collector.take(origin, number, bytes) {
        Ok(_) => Ok(()),
        Err(TakeFault::NoMemory) => Err(NoMemory),
        Err(_) => unreachable!(),
    }
}
