//! Where turns begin.
ghost use Rattle.std.specs.Prelude.{◌≡◌, ◌<◌, IfErr, OnOk, Some};
ghost use Rattle.operation_model.specs.declared.replies.Reply.TheVariants.{Halted};
ghost use Rattle.operation_model.specs.declared.operations.Op.TheVariants as ops;
ghost use Rattle.actor_dispatch.specs.Begun.{BeginsTurn};
ghost use Rattle.cluster_calls.specs.Calling.{CanAsk, IsSame, last_reply};
ghost use Rattle.actor_dispatch.specs.Turning.{LeavesNone};

use crate::asking::ask_quietly;
use crate::beginning::{Tried, came_of};
use crate::turning::run_turn;
use behaviour_lang::Code;
use cluster_calls::ask;
use crgc_ids::{ActorList, NodeSet};
use crgc_io::Gate;
use operation_model::{Halt, Op, Reply};
use std::alloc::Global;
use std::sync::Wait;
use turn_lock::{Pass, TurnLock};
use world_object::Shared;

/// Whether turns were run, or whether no turn can begin any more.
#[derive(Clone, Copy, PartialEq, Eq, Debug)]
pub(crate) enum Turned {
    Some,
    None,
    Over,
}

/// Turns of the actors that a refill tells of, each where it can begin.
pub(crate) fn take_ready<G: Gate, R: Wait>(
    rt: &R,
    alloc: Global,
    lock: &TurnLock<Shared>,
    pass: &mut Pass<Shared>,
    code: &Code,
    nodes: &mut NodeSet,
    gate: &G,
    worker: u32,
) -> Result<Turned, Halt>
    requires may { CanAsk lock.now pass.old }
    requires code { code.now ≡ lock.now.start.script.code }
    ensures same { IsSame pass.old pass.new }
    ensures turns { OnOk result (LeavesNone pass.old.own pass.new.own) }
    ensures err { IfErr result (λ halt. last_reply pass.new.own ≡ Some (Halted halt)) }
{
    match ask_quietly(rt, lock, pass, Op::Refill { skip: 0 }) {
        Ok(Reply::Ids(hints)) => take_all(rt, alloc, lock, pass, code, nodes, gate, worker, &hints),
        Ok(_) => Ok(Turned::None),
        Err(halt) => Err(halt),
    }
}

// Turns of these actors, one after another, from the one on with which the worker begins. Where one does not begin after another did,
// others have taken those that follow.
fn take_all<G: Gate, R: Wait>(
    rt: &R,
    alloc: Global,
    lock: &TurnLock<Shared>,
    pass: &mut Pass<Shared>,
    code: &Code,
    nodes: &mut NodeSet,
    gate: &G,
    worker: u32,
    hints: &ActorList,
) -> Result<Turned, Halt>
    requires may { CanAsk lock.now pass.old }
    requires code { code.now ≡ lock.now.start.script.code }
    ensures same { IsSame pass.old pass.new }
    ensures turns { OnOk result (LeavesNone pass.old.own pass.new.own) }
    ensures err { IfErr result (λ halt. last_reply pass.new.own ≡ Some (Halted halt)) }
{
    let mut turned = Turned::None;
    for &actor in hints.iter().skip(first_of(worker, hints.len())) {
        match try_turn(
            rt,
            alloc,
            lock,
            pass,
            code,
            nodes,
            gate,
            worker,
            Op::Take { actor },
        ) {
            Ok(Turned::Some) => turned = Turned::Some,
            Ok(Turned::None) if turned == Turned::Some => return Ok(Turned::Some),
            Ok(Turned::None) => {}
            Ok(Turned::Over) => return Ok(Turned::Over),
            Err(halt) => return Err(halt),
        }
    }
    Ok(turned)
}

// With which of so many actors the worker begins: workers begin at four places, so that they seldom come upon the same actors.
fn first_of(worker: u32, actors: usize) -> usize {
    let quarter = actors / 4;
    match worker % 4 {
        0 => 0,
        1 => quarter,
        2 => 2 * quarter,
        _ => 3 * quarter,
    }
}

/// The turn that a wake or a take begins, if it begins one, is run; first the gate is told of it.
pub(crate) fn try_turn<G: Gate, R: Wait>(
    rt: &R,
    alloc: Global,
    lock: &TurnLock<Shared>,
    pass: &mut Pass<Shared>,
    code: &Code,
    nodes: &mut NodeSet,
    gate: &G,
    worker: u32,
    op: Op,
) -> Result<Turned, Halt>
    requires may { CanAsk lock.now pass.old }
    requires code { code.now ≡ lock.now.start.script.code }
    requires begins { BeginsTurn op }
    ensures same { IsSame pass.old pass.new }
    ensures turns { OnOk result (LeavesNone pass.old.own pass.new.own) }
    ensures err { IfErr result (λ halt. last_reply pass.new.own ≡ Some (Halted halt)) }
{
    let reply = match ask(rt, lock, pass, op) {
        Ok(reply) => reply,
        Err(halt) => return Err(halt),
    };
    match came_of(reply) {
        Tried::Begun(begun) => {
            *nodes = nodes.with(begun.actor.node());
            gate.turn_begins(worker, begun.actor);
            match run_turn(rt, alloc, lock, pass, code, nodes, begun) {
                Ok(()) => Ok(Turned::Some),
                Err(halt) => Err(halt),
            }
        }
        Tried::Over => Ok(Turned::Over),
        Tried::NotNow => Ok(Turned::None),
    }
}
