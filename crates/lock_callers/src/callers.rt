//! Callers of a lock in threads.
ghost use Rattle.std.specs.Prelude.{◌≡◌, ◌<◌};
ghost use denote.Param.Send.{IsSync};
ghost use Rattle.lock_callers.specs.Leading.{HasLed, MayLead};

use crgc_ids::NoMemory;
use locked_objects::Counter;
use std::alloc::Global;
use std::sync::Wait;
use std::thread::{Threads, join};
use turn_lock::{Pass, TurnLock};

/// What a counter from 0 comes to where so many callers beside each other add 1 so many times each.
pub fn sum_of<R: Threads + Wait + Sync>(
    rt: &R,
    alloc: Global,
    callers: u32,
    calls: u32,
) -> Result<u64, NoMemory>
    requires { callers < 65 }
{
    match TurnLock::<Counter>::new(alloc, 0) {
        Ok((lock, first)) => {
            let first = call_all(rt, &lock, first, callers, calls);
            Ok(lock.close(first))
        }
        Err((_, want)) => Err(want),
    }
}

// So many callers beside each other, each in a thread and with a pass of its own; the first pass has then taken in theirs.
fn call_all<R: Threads + Wait + Sync>(
    rt: &R,
    lock: &TurnLock<Counter>,
    mut first: Pass<Counter>,
    callers: u32,
    calls: u32,
) -> Pass<Counter>
    requires lead { MayLead lock.now callers first }
    requires shared { IsSync R.row }
    ensures { HasLed callers first result }
{
    if callers == 0 {
        return first;
    }
    let others = callers - 1;
    let pass = lock.split(&mut first);
    let (mut first, ended) = join(
        rt,
        move || -> Pass<Counter>
            requires { IsSync R.row × MayLead lock.now others first }
            ensures { HasLed others first result }
        { call_all(rt, lock, first, others, calls) },
        move || -> Pass<Counter>
            requires { pass.origin ≡ lock.now.origin }
            ensures { result.origin ≡ lock.entry.now.origin }
        { call_often(rt, lock, pass, calls) },
    );
    lock.join(&mut first, ended);
    first
}

// Adds 1 so many times.
fn call_often<R: Wait>(
    rt: &R,
    lock: &TurnLock<Counter>,
    mut pass: Pass<Counter>,
    calls: u32,
) -> Pass<Counter>
    requires { pass.origin ≡ lock.now.origin }
    ensures { result.origin ≡ lock.now.origin }
{
    for _done in 0..calls {
        lock.call(rt, &mut pass, 1);
    }
    pass
}
