//! A counter under the turn lock.
ghost use Rattle.std.specs.Prelude.{◌≡◌, [], ◌∷◌, IfOk};

use crate::trial::Trial;
use crgc_ids::NoMemory;
use locked_objects::Counter;
use std::io;
use std::sync::Wait;
use turn_lock::{Pass, TurnLock};

/// Two passes of a counter's lock add 1 a hundred times each: whether the counter comes from 0 to the sum in the text.
pub fn is_counted<R: Wait>(rt: &R, trial: &mut Trial, text: &str) -> io::Result<bool> {
    let (lock, mut first) = lock_of(trial, 0)?;
    let mut one = lock.split(&mut first);
    let mut other = lock.split(&mut first);
    add_hundred(rt, &lock, &mut one);
    add_hundred(rt, &lock, &mut other);
    lock.join(&mut first, one);
    lock.join(&mut first, other);
    Ok(text.parse::<u64>() == Ok(lock.close(first)))
}

/// The lock over a counter at this number, and its first pass. Where the lock is refused, the number comes back.
fn lock_of(trial: &mut Trial, number: u64) -> io::Result<(TurnLock<Counter>, Pass<Counter>)>
    ensures { IfOk result (λ r. r.1 ≡ record { origin = r.0.origin; number = 0; split = 0; joined = []; seen = []; own = []; gathered = [] }) }
{
    let back = match TurnLock::<Counter>::new(trial.alloc, number) {
        Ok(made) => return Ok(made),
        Err((back, NoMemory)) => back,
    };
    trial.count(back == number);
    match TurnLock::<Counter>::new(trial.alloc, back) {
        Ok(made) => Ok(made),
        Err(_) => Err(io::ErrorKind::OutOfMemory.into()),
    }
}

/// Adds 1 a hundred times.
fn add_hundred<R: Wait>(rt: &R, lock: &TurnLock<Counter>, pass: &mut Pass<Counter>)
    requires { pass.old.origin ≡ lock.now.origin }
    ensures { pass.new.origin ≡ pass.old.origin }
{
    for _done in 0..100u64 {
        lock.call(rt, pass, 1);
    }
}
