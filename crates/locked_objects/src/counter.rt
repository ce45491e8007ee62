//! A counter: add a number, and answer the new sum.
ghost use Rattle.std.specs.Prelude.{◌≡◌, [], IfOk};
ghost use Rattle.locked_objects.specs.Counter.{added};

use crgc_ids::NoMemory;
use std::alloc::Global;
use std::sync::Wait;
use std::thread::{Threads, join};
use turn_lock::{Object, Pass, TurnLock};

/// A sum of `u64`s, which wraps.
pub struct Counter;

impl Object for Counter {
    ghost use Rattle.locked_objects.specs.Counter.{IsSum, sum_of_nothing};

    type State = u64;

    type Op = u64;

    type Reply = u64;

    ghost fits = { λ start history op pass. Unit {0} };

    ghost stands = { IsSum };

    ghost still_fits = { λ start later history op pass none fitted. tt };

    ghost stands_first = { λ start. sum_of_nothing start };

    fn step(state: &mut u64, pass: u32, op: u64) -> u64 {
        let _any = pass;
        *state = state.wrapping_add(op);
        *state
    }
}

// Adds 1 a hundred times.
fn add_hundred<R: Wait>(rt: &R, lock: &TurnLock<Counter>, mut pass: Pass<Counter>) -> Pass<Counter>
    requires lock { pass.origin ≡ lock.now.origin }
    requires new { pass.own ≡ [] }
    ensures lock { result.origin ≡ lock.now.origin }
    ensures added { added result.own ≡ 100 }
{
    for _done in 0..100u64 {
        lock.call(rt, &mut pass, 1);
    }
    pass
}

// Two threads add 1 a hundred times each.
fn added_by_two<R: Threads + Wait + Sync>(
    rt: &R,
    lock: &TurnLock<Counter>,
    one: Pass<Counter>,
    other: Pass<Counter>,
) -> (Pass<Counter>, Pass<Counter>)
    requires lock { (one.origin ≡ lock.now.origin) × (other.origin ≡ lock.now.origin) }
    requires new { (one.own ≡ []) × (other.own ≡ []) }
    ensures lock { (result.0.origin ≡ lock.now.origin) × (result.1.origin ≡ lock.now.origin) }
    ensures added { (added result.0.own ≡ 100) × (added result.1.own ≡ 100) }
{
    join(
        rt,
        move || -> Pass<Counter>
            requires { (one.origin ≡ lock.now.origin) × (one.own ≡ []) }
            ensures { (result.origin ≡ lock.entry.now.origin) × (added result.own ≡ 100) }
        { add_hundred(rt, lock, one) },
        move || -> Pass<Counter>
            requires { (other.origin ≡ lock.now.origin) × (other.own ≡ []) }
            ensures { (result.origin ≡ lock.entry.now.origin) × (added result.own ≡ 100) }
        { add_hundred(rt, lock, other) },
    )
}

/// What a counter from 0 comes to where two threads add 1 a hundred times each.
pub fn two_hundred<R: Threads + Wait + Sync>(rt: &R, alloc: Global) -> Result<u64, NoMemory>
    ensures { IfOk result (λ sum. sum ≡ 200) }
{
    let (lock, mut first) = match TurnLock::<Counter>::new(alloc, 0) {
        Ok(made) => made,
        Err((_, want)) => return Err(want),
    };
    let one = lock.split(&mut first);
    let other = lock.split(&mut first);
    let (one, other) = added_by_two(rt, &lock, one, other);
    lock.join(&mut first, one);
    lock.join(&mut first, other);
    Ok(lock.close(first))
}
