//! One round of a pump.
ghost use Rattle.std.specs.Prelude.{◌≡◌, ◌≢◌, ◌<◌, IfErr, IfOk, OnOk, Some};
ghost use Rattle.operation_model.specs.declared.operations.Op.TheVariants as ops;
ghost use Rattle.operation_model.specs.declared.replies.Reply.TheVariants.{Halted};
ghost use Rattle.cluster_calls.specs.Calling.{CanAsk, IsSame, last_reply};
ghost use Rattle.node_threads.specs.Pumping.{HasAll, HasCarries, HasPublish, HasRemoval, HasWindow, IsFree, Since, SinceOrDown, done_by};
ghost use Rattle.node_threads.specs.Questions.{IsMade, times_given_up};

use crate::NODES;
use cluster_calls::ask;
use crgc_ids::NodeId;
use operation_model::{Halt, Op, Reply};
use std::sync::Wait;
use turn_lock::{Pass, TurnLock};
use world_object::Shared;

/// Each link to the node is carried once, and then the node makes a window, removes a node and publishes, each where it can; whether
/// any of it could be done. None where the node is down; then it does no more.
pub(crate) fn pump_once<R: Wait>(
    rt: &R,
    lock: &TurnLock<Shared>,
    pass: &mut Pass<Shared>,
    node: NodeId,
) -> Result<Option<bool>, Halt>
    requires { CanAsk lock.now pass.old }
    ensures same { IsSame pass.old pass.new }
    ensures all { IfOk result (λ done. SinceOrDown node (HasAll node) pass.old.own pass.new.own done) }
    ensures err { IfErr result (λ halt. last_reply pass.new.own ≡ Some (Halted halt)) }
    ensures gives { times_given_up pass.new.own ≡ times_given_up pass.old.own }
{
    match carry_all(rt, lock, pass, node) {
        Ok(any) => cut_window(rt, lock, pass, node, any),
        Err(halt) => Err(halt),
    }
}

// Each link to the node is carried once; whether any message was there.
fn carry_all<R: Wait>(
    rt: &R,
    lock: &TurnLock<Shared>,
    pass: &mut Pass<Shared>,
    at: NodeId,
) -> Result<bool, Halt>
    requires { CanAsk lock.now pass.old }
    ensures same { IsSame pass.old pass.new }
    ensures carries { OnOk result (Since (HasCarries at 16) pass.old.own pass.new.own) }
    ensures err { IfErr result (λ halt. last_reply pass.new.own ≡ Some (Halted halt)) }
    ensures gives { times_given_up pass.new.own ≡ times_given_up pass.old.own }
{
    let mut any = false;
    for number in 0..NODES {
        match carry_from(rt, lock, pass, number, at) {
            Ok(some) => any |= some,
            Err(halt) => return Err(halt),
        }
    }
    Ok(any)
}

// The link from the node with this number is carried, unless it is the same node.
fn carry_from<R: Wait>(
    rt: &R,
    lock: &TurnLock<Shared>,
    pass: &mut Pass<Shared>,
    number: u8,
    at: NodeId,
) -> Result<bool, Halt>
    requires may { CanAsk lock.now pass.old }
    requires number { number < 16 }
    ensures same { IsSame pass.old pass.new }
    ensures carry { OnOk result (Since (λ calls. number ≢ at → IsMade (ops.Carry number at) calls) pass.old.own pass.new.own) }
    ensures err { IfErr result (λ halt. last_reply pass.new.own ≡ Some (Halted halt)) }
    ensures gives { times_given_up pass.new.own ≡ times_given_up pass.old.own }
{
    let from = NodeId::new(number).unwrap();
    if from == at {
        return Ok(false);
    }
    match ask(rt, lock, pass, Op::Carry { from, at }) {
        Ok(reply) => Ok(done(reply, at) == Some(true)),
        Err(halt) => Err(halt),
    }
}

// The node makes a window, removes a node and publishes, each where it can; whether any of it could be done, or `any` is.
fn cut_window<R: Wait>(
    rt: &R,
    lock: &TurnLock<Shared>,
    pass: &mut Pass<Shared>,
    node: NodeId,
    any: bool,
) -> Result<Option<bool>, Halt>
    requires { CanAsk lock.now pass.old }
    ensures same { IsSame pass.old pass.new }
    ensures all { IfOk result (λ done. SinceOrDown node (HasWindow node) pass.old.own pass.new.own done) }
    ensures err { IfErr result (λ halt. last_reply pass.new.own ≡ Some (Halted halt)) }
    ensures gives { times_given_up pass.new.own ≡ times_given_up pass.old.own }
{
    match tell(rt, lock, pass, node, Op::Window { at: node }) {
        Ok(Some(cut)) => remove(rt, lock, pass, node, any | cut),
        Ok(None) => Ok(None),
        Err(halt) => Err(halt),
    }
}

// The node removes a node and publishes, each where it can.
fn remove<R: Wait>(
    rt: &R,
    lock: &TurnLock<Shared>,
    pass: &mut Pass<Shared>,
    node: NodeId,
    any: bool,
) -> Result<Option<bool>, Halt>
    requires { CanAsk lock.now pass.old }
    ensures same { IsSame pass.old pass.new }
    ensures all { IfOk result (λ done. SinceOrDown node (HasRemoval node) pass.old.own pass.new.own done) }
    ensures err { IfErr result (λ halt. last_reply pass.new.own ≡ Some (Halted halt)) }
    ensures gives { times_given_up pass.new.own ≡ times_given_up pass.old.own }
{
    match tell(rt, lock, pass, node, Op::Remove { at: node }) {
        Ok(Some(removed)) => publish(rt, lock, pass, node, any | removed),
        Ok(None) => Ok(None),
        Err(halt) => Err(halt),
    }
}

// The node publishes, where it can.
fn publish<R: Wait>(
    rt: &R,
    lock: &TurnLock<Shared>,
    pass: &mut Pass<Shared>,
    node: NodeId,
    any: bool,
) -> Result<Option<bool>, Halt>
    requires { CanAsk lock.now pass.old }
    ensures same { IsSame pass.old pass.new }
    ensures all { IfOk result (λ done. SinceOrDown node (HasPublish node) pass.old.own pass.new.own done) }
    ensures err { IfErr result (λ halt. last_reply pass.new.own ≡ Some (Halted halt)) }
    ensures gives { times_given_up pass.new.own ≡ times_given_up pass.old.own }
{
    match tell(rt, lock, pass, node, Op::Publish { node }) {
        Ok(Some(published)) => Ok(Some(any | published)),
        Ok(None) => Ok(None),
        Err(halt) => Err(halt),
    }
}

// Makes an operation for the node; whether it was done, or None where the node is down.
fn tell<R: Wait>(
    rt: &R,
    lock: &TurnLock<Shared>,
    pass: &mut Pass<Shared>,
    node: NodeId,
    op: Op,
) -> Result<Option<bool>, Halt>
    requires may { CanAsk lock.now pass.old }
    requires free { IsFree op }
    ensures same { IsSame pass.old pass.new }
    ensures made { IfOk result (λ done. SinceOrDown node (IsMade op) pass.old.own pass.new.own done) }
    ensures err { IfErr result (λ halt. last_reply pass.new.own ≡ Some (Halted halt)) }
    ensures gives { times_given_up pass.new.own ≡ times_given_up pass.old.own }
{
    match ask(rt, lock, pass, op) {
        Ok(reply) => Ok(done(reply, node)),
        Err(halt) => Err(halt),
    }
}

/// Whether the reply says that the operation was done; None where it says that the node is down.
pub(crate) fn done(reply: Reply, node: NodeId) -> Option<bool>
    ensures { result ≡ done_by node reply }
{
    match reply {
        Reply::Done => Some(true),
        Reply::Down(down) => { if down == node { None } else { Some(false) } }
        _ => Some(false),
    }
}
