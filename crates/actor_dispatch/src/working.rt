//! The worker.
ghost use Rattle.std.specs.Prelude.{◌≡◌, IfErr, IfOk, OnOk, Some, IsTrue};
ghost use Rattle.operation_model.specs.Openings.{IsSoundOpening};
ghost use Rattle.operation_model.specs.declared.replies.Reply.TheVariants.{AllDone, Halted};
ghost use Rattle.world_object.specs.State.{as_opening};
ghost use Rattle.cluster_calls.specs.Calling.{CanAsk, IsSame, last_reply};
ghost use Rattle.actor_dispatch.specs.Turning.{LeavesNone};

use crate::asking::ask_quietly;
use crate::carrying::{all_nodes, carry_all};
use crate::taking::{Turned, take_ready, try_turn};
use behaviour_lang::Code;
use crgc_ids::NodeSet;
use crgc_io::Gate;
use operation_model::{Halt, Op, Reply};
use std::alloc::Global;
use std::sync::Wait;
use std::thread::sleep;
use std::time::{Clock, Duration};
use turn_lock::{Pass, TurnLock};
use world_object::Shared;

// How many microseconds a worker stays away from the lock where only others have something to do.
const PAUSE: u64 = 50;

// How many seeds a worker wakes one after another, before it asks again for actors that may take a message.
const WAKES: u32 = 16;

/// Runs turns through the lock until nothing is left to do; the Err is why the cluster has halted. `code` is that of the cluster
/// with which the lock was made. The worker takes the actors that a refill tells of; where there are none it wakes some seeds, and
/// where there is nothing to wake it carries what it knows to be on links. The gate is told of each turn as it begins.
///
/// Where it ends with Ok, each turn that it began has ended, unless its node went down. It may wait: for its turn at the lock,
/// and, asleep, for others whose turns are not at their end.
pub fn work<G: Gate, R: Wait + Clock>(
    rt: &R,
    alloc: Global,
    lock: &TurnLock<Shared>,
    pass: &mut Pass<Shared>,
    code: &Code,
    gate: &G,
    worker: u32,
) -> Result<(), Halt>
    requires lock { pass.old.origin ≡ lock.now.origin }
    requires sound { IsSoundOpening (as_opening lock.now.start) }
    requires code { code.now ≡ lock.now.start.script.code }
    ensures pass { pass.new ≡ record pass.old { seen = pass.new.seen; own = pass.new.own } }
    ensures done { OnOk result (last_reply pass.new.own ≡ Some AllDone) }
    ensures halted { IfErr result (λ halt. last_reply pass.new.own ≡ Some (Halted halt)) }
    ensures turns { OnOk result (LeavesNone pass.old.own pass.new.own) }
{
    let mut nodes = NodeSet::empty();
    for _ in rt.forever() {
        match look(rt, alloc, lock, pass, code, &mut nodes, gate, worker) {
            Ok(true) => return Ok(()),
            Ok(false) => {}
            Err(halt) => return Err(halt),
        }
    }
    unreachable!()
}

// Does what there is to do, one kind of it; whether nothing is left.
fn look<G: Gate, R: Wait + Clock>(
    rt: &R,
    alloc: Global,
    lock: &TurnLock<Shared>,
    pass: &mut Pass<Shared>,
    code: &Code,
    nodes: &mut NodeSet,
    gate: &G,
    worker: u32,
) -> Result<bool, Halt>
    requires may { CanAsk lock.now pass.old }
    requires code { code.now ≡ lock.now.start.script.code }
    ensures same { IsSame pass.old pass.new }
    ensures done { IfOk result (λ done. IsTrue done → last_reply pass.new.own ≡ Some AllDone) }
    ensures turns { OnOk result (LeavesNone pass.old.own pass.new.own) }
    ensures err { IfErr result (λ halt. last_reply pass.new.own ≡ Some (Halted halt)) }
{
    match turn(rt, alloc, lock, pass, code, nodes, gate, worker) {
        Ok(true) => Ok(false),
        Ok(false) => carry_or_finish(rt, lock, pass, nodes),
        Err(halt) => Err(halt),
    }
}

// Carries what there is to carry; where there is nothing, whether nothing is left to do.
fn carry_or_finish<R: Wait + Clock>(
    rt: &R,
    lock: &TurnLock<Shared>,
    pass: &mut Pass<Shared>,
    nodes: &mut NodeSet,
) -> Result<bool, Halt>
    requires { CanAsk lock.now pass.old }
    ensures same { IsSame pass.old pass.new }
    ensures done { IfOk result (λ done. IsTrue done → last_reply pass.new.own ≡ Some AllDone) }
    ensures turns { OnOk result (LeavesNone pass.old.own pass.new.own) }
    ensures err { IfErr result (λ halt. last_reply pass.new.own ≡ Some (Halted halt)) }
{
    match carry_all(rt, lock, pass, *nodes) {
        Ok(true) => Ok(false),
        Ok(false) => finished(rt, lock, pass, nodes),
        Err(halt) => Err(halt),
    }
}

// Turns of actors that may take a message, or else of the seeds that wake next; whether there was any.
fn turn<G: Gate, R: Wait>(
    rt: &R,
    alloc: Global,
    lock: &TurnLock<Shared>,
    pass: &mut Pass<Shared>,
    code: &Code,
    nodes: &mut NodeSet,
    gate: &G,
    worker: u32,
) -> Result<bool, Halt>
    requires may { CanAsk lock.now pass.old }
    requires code { code.now ≡ lock.now.start.script.code }
    ensures same { IsSame pass.old pass.new }
    ensures turns { OnOk result (LeavesNone pass.old.own pass.new.own) }
    ensures err { IfErr result (λ halt. last_reply pass.new.own ≡ Some (Halted halt)) }
{
    match take_ready(rt, alloc, lock, pass, code, nodes, gate, worker) {
        Ok(Turned::Some) => Ok(true),
        Ok(Turned::Over) => Ok(false),
        Ok(Turned::None) => wake_some(rt, alloc, lock, pass, code, nodes, gate, worker),
        Err(halt) => Err(halt),
    }
}

// Turns of the seeds that wake next, one after another; whether there was any.
fn wake_some<G: Gate, R: Wait>(
    rt: &R,
    alloc: Global,
    lock: &TurnLock<Shared>,
    pass: &mut Pass<Shared>,
    code: &Code,
    nodes: &mut NodeSet,
    gate: &G,
    worker: u32,
) -> Result<bool, Halt>
    requires may { CanAsk lock.now pass.old }
    requires code { code.now ≡ lock.now.start.script.code }
    ensures same { IsSame pass.old pass.new }
    ensures turns { OnOk result (LeavesNone pass.old.own pass.new.own) }
    ensures err { IfErr result (λ halt. last_reply pass.new.own ≡ Some (Halted halt)) }
{
    for woken in 0..WAKES {
        match wake(rt, alloc, lock, pass, code, nodes, gate, worker) {
            Ok(true) => {}
            Ok(false) => return Ok(woken > 0),
            Err(halt) => return Err(halt),
        }
    }
    Ok(true)
}

// The turn of the seed that wakes next; whether there was one.
fn wake<G: Gate, R: Wait>(
    rt: &R,
    alloc: Global,
    lock: &TurnLock<Shared>,
    pass: &mut Pass<Shared>,
    code: &Code,
    nodes: &mut NodeSet,
    gate: &G,
    worker: u32,
) -> Result<bool, Halt>
    requires may { CanAsk lock.now pass.old }
    requires code { code.now ≡ lock.now.start.script.code }
    ensures same { IsSame pass.old pass.new }
    ensures turns { OnOk result (LeavesNone pass.old.own pass.new.own) }
    ensures err { IfErr result (λ halt. last_reply pass.new.own ≡ Some (Halted halt)) }
{
    match try_turn(rt, alloc, lock, pass, code, nodes, gate, worker, Op::Wake) {
        Ok(turned) => Ok(turned == Turned::Some),
        Err(halt) => Err(halt),
    }
}

// Whether nothing is left to do. Where nobody is in a turn and yet messages are live, they may be on any link from now on; where
// somebody is, what is to be done next comes of that turn.
fn finished<R: Wait + Clock>(
    rt: &R,
    lock: &TurnLock<Shared>,
    pass: &mut Pass<Shared>,
    nodes: &mut NodeSet,
) -> Result<bool, Halt>
    requires { CanAsk lock.now pass.old }
    ensures same { IsSame pass.old pass.new }
    ensures done { IfOk result (λ done. IsTrue done → last_reply pass.new.own ≡ Some AllDone) }
    ensures turns { OnOk result (LeavesNone pass.old.own pass.new.own) }
    ensures err { IfErr result (λ halt. last_reply pass.new.own ≡ Some (Halted halt)) }
{
    match ask_quietly(rt, lock, pass, Op::Finished) {
        Ok(Reply::AllDone) => Ok(true),
        Ok(Reply::NotYet { busy: 0, .. }) => {
            *nodes = all_nodes();
            Ok(false)
        }
        Ok(_) => {
            sleep(rt, Duration::from_micros(PAUSE));
            Ok(false)
        }
        Err(halt) => Err(halt),
    }
}
