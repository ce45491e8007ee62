//! Messages on links.
ghost use Rattle.std.specs.Prelude.{◌≡◌, IfErr, OnOk, Some};
ghost use Rattle.operation_model.specs.declared.replies.Reply.TheVariants.{Halted};
ghost use Rattle.cluster_calls.specs.Calling.{CanAsk, IsSame, last_reply};
ghost use Rattle.actor_dispatch.specs.Turning.{LeavesNone};

use crate::asking::ask_quietly;
use crgc_ids::{NodeId, NodeSet};
use operation_model::{Halt, Op, Reply};
use std::sync::Wait;
use turn_lock::{Pass, TurnLock};
use world_object::Shared;

// The most nodes that a cluster has.
const NODES: u8 = 16;

/// All nodes that a cluster may have.
pub(crate) fn all_nodes() -> NodeSet {
    let mut nodes = NodeSet::empty();
    for n in 0..NODES {
        if let Some(node) = NodeId::new(n) {
            nodes = nodes.with(node);
        }
    }
    nodes
}

/// What is planned for the lowest message of each link between these nodes happens, once; whether there was any.
pub(crate) fn carry_all<R: Wait>(
    rt: &R,
    lock: &TurnLock<Shared>,
    pass: &mut Pass<Shared>,
    nodes: NodeSet,
) -> Result<bool, Halt>
    requires { CanAsk lock.now pass.old }
    ensures same { IsSame pass.old pass.new }
    ensures turns { OnOk result (LeavesNone pass.old.own pass.new.own) }
    ensures err { IfErr result (λ halt. last_reply pass.new.own ≡ Some (Halted halt)) }
{
    let mut any = false;
    for n in 0..NODES {
        match carry_to(rt, lock, pass, nodes, n) {
            Ok(some) => any |= some,
            Err(halt) => return Err(halt),
        }
    }
    Ok(any)
}

// The same for the links that lead to the node with this number.
fn carry_to<R: Wait>(
    rt: &R,
    lock: &TurnLock<Shared>,
    pass: &mut Pass<Shared>,
    nodes: NodeSet,
    number: u8,
) -> Result<bool, Halt>
    requires { CanAsk lock.now pass.old }
    ensures same { IsSame pass.old pass.new }
    ensures turns { OnOk result (LeavesNone pass.old.own pass.new.own) }
    ensures err { IfErr result (λ halt. last_reply pass.new.own ≡ Some (Halted halt)) }
{
    let Some(at) = member(nodes, number) else {
        return Ok(false);
    };
    let mut any = false;
    for n in 0..NODES {
        match carry(rt, lock, pass, nodes, n, at) {
            Ok(some) => any |= some,
            Err(halt) => return Err(halt),
        }
    }
    Ok(any)
}

// The same for the link that leads there from the node with this number.
fn carry<R: Wait>(
    rt: &R,
    lock: &TurnLock<Shared>,
    pass: &mut Pass<Shared>,
    nodes: NodeSet,
    number: u8,
    at: NodeId,
) -> Result<bool, Halt>
    requires { CanAsk lock.now pass.old }
    ensures same { IsSame pass.old pass.new }
    ensures turns { OnOk result (LeavesNone pass.old.own pass.new.own) }
    ensures err { IfErr result (λ halt. last_reply pass.new.own ≡ Some (Halted halt)) }
{
    let Some(from) = member(nodes, number) else {
        return Ok(false);
    };
    if from == at {
        return Ok(false);
    }
    match ask_quietly(rt, lock, pass, Op::Carry { from, at }) {
        Ok(Reply::Done) => Ok(true),
        Ok(_) => Ok(false),
        Err(halt) => Err(halt),
    }
}

// The node with this number, if it is a member.
fn member(nodes: NodeSet, n: u8) -> Option<NodeId> {
    match NodeId::new(n) {
        Some(node) if nodes.contains(node) => Some(node),
        _ => None,
    }
}
