//! Turns.
ghost use Rattle.std.specs.Prelude.{◌≡◌, true, IfErr, IfOk, IsSome, None, OnOk, Some};
ghost use Rattle.behaviour_lang.specs.Steps.{with_child};
ghost use Rattle.operation_model.specs.Turns.{fresh, open_turn};
ghost use Rattle.operation_model.specs.declared.operations.Op.TheVariants as ops;
ghost use Rattle.operation_model.specs.declared.replies.Reply.TheVariants.{Halted};
ghost use Rattle.world_object.specs.State.{as_opening};
ghost use Rattle.turn_lock.specs.History.{calls_of};
ghost use Rattle.actor_dispatch.specs.Begun.{begun_of};
ghost use Rattle.cluster_calls.specs.Calling.{CanAsk, IsSame, last_reply};
ghost use Rattle.actor_dispatch.specs.Turning.{GoesOn, IsAfter, IsDue, IsInTurn, IsWhole, LeavesNone, Loses, OwesIfBorn};

use crate::asking::{Short, ask_quietly, ask_shortly};
use crate::beginning::Beginning;
use behaviour_lang::{Act, Code, Step, Turn};
use cluster_calls::give_up;
use crgc_ids::{ActorId, NodeSet};
use operation_model::{Halt, Op};
use std::alloc::Global;
use std::sync::Wait;
use turn_lock::{Pass, TurnLock};
use work_steps::work_for;
use world_object::Shared;

/// A turn that has begun is run: its acts, its rest, and the flush after it; or its acts up to where its node is down. The nodes
/// of those to whom it sends are noted.
pub(crate) fn run_turn<R: Wait>(
    rt: &R,
    alloc: Global,
    lock: &TurnLock<Shared>,
    pass: &mut Pass<Shared>,
    code: &Code,
    nodes: &mut NodeSet,
    begun: Beginning,
) -> Result<(), Halt>
    requires may { CanAsk lock.now pass.old }
    requires code { code.now ≡ lock.now.start.script.code }
    requires calls { calls_of pass.old.number pass.old.seen ≡ pass.old.own }
    requires open { open_turn pass.old.own ≡ Some (fresh (begun_of begun)) }
    ensures same { IsSame pass.old pass.new }
    ensures ended { OnOk result (Loses begun.actor pass.old.own pass.new.own) }
    ensures err { IfErr result (λ halt. last_reply pass.new.own ≡ Some (Halted halt)) }
{
    let actor = begun.actor;
    match begun.turn(alloc, code) {
        Ok(turn) => finish_turn(rt, lock, pass, code, nodes, actor, turn),
        Err(_) => Err(give_up(rt, lock, pass)),
    }
}

// The turn goes on from here to its end.
fn finish_turn<R: Wait>(
    rt: &R,
    lock: &TurnLock<Shared>,
    pass: &mut Pass<Shared>,
    code: &Code,
    nodes: &mut NodeSet,
    actor: ActorId,
    turn: Turn,
) -> Result<(), Halt>
    requires may { CanAsk lock.now pass.old }
    requires code { code.now ≡ lock.now.start.script.code }
    requires turn { IsInTurn (as_opening lock.now.start) pass.old actor turn }
    ensures same { IsSame pass.old pass.new }
    ensures ended { OnOk result (Loses actor pass.old.own pass.new.own) }
    ensures err { IfErr result (λ halt. last_reply pass.new.own ≡ Some (Halted halt)) }
{
    let mut turn = turn;
    match act_all(rt, lock, pass, code, nodes, actor, &mut turn) {
        Ok(true) => end_turn(rt, lock, pass, actor, turn),
        Ok(false) => Ok(()),
        Err(halt) => Err(halt),
    }
}

// The acts of the turn, one after another; false where its node is down. Between them it works, outside the lock.
fn act_all<R: Wait>(
    rt: &R,
    lock: &TurnLock<Shared>,
    pass: &mut Pass<Shared>,
    code: &Code,
    nodes: &mut NodeSet,
    actor: ActorId,
    turn: &mut Turn,
) -> Result<bool, Halt>
    requires may { CanAsk lock.now pass.old }
    requires code { code.now ≡ lock.now.start.script.code }
    requires turn { IsInTurn (as_opening lock.now.start) pass.old actor turn.old }
    ensures same { IsSame pass.old pass.new }
    ensures whole { IfOk result (λ whole. GoesOn whole (LeavesNone pass.old.own pass.new.own
        × IsWhole (as_opening lock.now.start) pass.new actor turn.new) (Loses actor pass.old.own pass.new.own)) }
    ensures err { IfErr result (λ halt. last_reply pass.new.own ≡ Some (Halted halt)) }
{
    for _ in rt.forever() {
        match turn.next(code) {
            Ok(Step::Act(act)) => {
                *nodes = noted(*nodes, &act);
                match make(rt, lock, pass, actor, turn, act) {
                    Ok(true) => {}
                    Ok(false) => return Ok(false),
                    Err(halt) => return Err(halt),
                }
            }
            Ok(Step::Work(steps)) => {
                work_for(steps);
            }
            Ok(Step::End) => return Ok(true),
            Err(_) => return Err(give_up(rt, lock, pass)),
        }
    }
    unreachable!()
}

// The act that is due is made; false where the node is down.
fn make<R: Wait>(
    rt: &R,
    lock: &TurnLock<Shared>,
    pass: &mut Pass<Shared>,
    actor: ActorId,
    turn: &mut Turn,
    act: Act,
) -> Result<bool, Halt>
    requires may { CanAsk lock.now pass.old }
    requires due { IsDue (as_opening lock.now.start) pass.old actor act turn.old }
    ensures same { IsSame pass.old pass.new }
    ensures goes_on { IfOk result (λ on. GoesOn on (LeavesNone pass.old.own pass.new.own
        × IsInTurn (as_opening lock.now.start) pass.new actor turn.new) (Loses actor pass.old.own pass.new.own)) }
    ensures err { IfErr result (λ halt. last_reply pass.new.own ≡ Some (Halted halt)) }
{
    match ask_shortly(rt, lock, pass, act_op(actor, act)) {
        Ok(short) => after_act(rt, lock, pass, turn, short),
        Err(halt) => Err(halt),
    }
}

// The operation that makes an act.
fn act_op(actor: ActorId, act: Act) -> Op
    ensures { result ≡ ops.Act actor act }
{
    Op::Act { actor, act }
}

// What comes of an act by its answer: whether the turn goes on.
fn after_act<R: Wait>(
    rt: &R,
    lock: &TurnLock<Shared>,
    pass: &mut Pass<Shared>,
    turn: &mut Turn,
    short: Short,
) -> Result<bool, Halt>
    requires may { CanAsk lock.now pass.old }
    requires owed { OwesIfBorn short turn.old.owed }
    ensures same { IsSame pass.old pass.new }
    ensures after { IfOk result (λ on. IsAfter short on pass.old pass.new turn.old turn.new) }
    ensures err { IfErr result (λ halt. last_reply pass.new.own ≡ Some (Halted halt)) }
{
    match short {
        Short::Done => Ok(true),
        Short::Born(child) => bind(rt, lock, pass, turn, child),
        Short::Down => Ok(false),
        Short::Other => Err(give_up(rt, lock, pass)),
    }
}

// The name of the child that was born is bound to it; the answer is true.
fn bind<R: Wait>(
    rt: &R,
    lock: &TurnLock<Shared>,
    pass: &mut Pass<Shared>,
    turn: &mut Turn,
    child: ActorId,
) -> Result<bool, Halt>
    requires may { CanAsk lock.now pass.old }
    requires owed { IsSome turn.old.owed }
    ensures same { IsSame pass.old pass.new }
    ensures bound { IfOk result (λ on. (on ≡ true) × (pass.new ≡ pass.old)
        × (turn.new ≡ record turn.old { names = with_child turn.old.owed child turn.old.names; owed = None })) }
    ensures err { IfErr result (λ halt. last_reply pass.new.own ≡ Some (Halted halt)) }
{
    match turn.born(child) {
        Ok(()) => Ok(true),
        Err(_) => Err(give_up(rt, lock, pass)),
    }
}

// The turn that is done ends, and what its actor noted is flushed.
fn end_turn<R: Wait>(
    rt: &R,
    lock: &TurnLock<Shared>,
    pass: &mut Pass<Shared>,
    actor: ActorId,
    turn: Turn,
) -> Result<(), Halt>
    requires may { CanAsk lock.now pass.old }
    requires whole { IsWhole (as_opening lock.now.start) pass.old actor turn }
    ensures same { IsSame pass.old pass.new }
    ensures ended { OnOk result (Loses actor pass.old.own pass.new.own) }
    ensures err { IfErr result (λ halt. last_reply pass.new.own ≡ Some (Halted halt)) }
{
    let locals = turn.finish();
    match ask_shortly(rt, lock, pass, Op::Rest { actor, locals }) {
        Ok(Short::Done) => flush(rt, lock, pass, actor),
        Ok(Short::Down) => Ok(()),
        Ok(_) => Err(give_up(rt, lock, pass)),
        Err(halt) => Err(halt),
    }
}

// What the actor noted goes to its node's queue, if there is anything.
fn flush<R: Wait>(
    rt: &R,
    lock: &TurnLock<Shared>,
    pass: &mut Pass<Shared>,
    actor: ActorId,
) -> Result<(), Halt>
    requires { CanAsk lock.now pass.old }
    ensures same { IsSame pass.old pass.new }
    ensures turns { OnOk result (LeavesNone pass.old.own pass.new.own) }
    ensures err { IfErr result (λ halt. last_reply pass.new.own ≡ Some (Halted halt)) }
{
    match ask_quietly(rt, lock, pass, Op::Flush { actor }) {
        Ok(_) => Ok(()),
        Err(halt) => Err(halt),
    }
}

// The nodes, with that of the actor to whom the act sends.
fn noted(nodes: NodeSet, act: &Act) -> NodeSet {
    match act {
        Act::Send { to, .. } => nodes.with(to.node()),
        _ => nodes,
    }
}
