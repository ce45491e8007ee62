//! Staying away from the lock between rounds.
use std::thread::sleep;
use std::time::{Clock, Duration};

// How many microseconds a thread of a node stays away from the lock after a round in which there was something to do, and after
// one in which there was nothing.
const AFTER_SOME: u64 = 4096;

const AFTER_NONE: u64 = 8192;

/// Stays away from the lock, so that workers have it; but not on the way to the last round.
pub(crate) fn pause<R: Clock>(rt: &R, any: bool, last: bool) {
    if !last {
        let microseconds = if any { AFTER_SOME } else { AFTER_NONE };
        sleep(rt, Duration::from_micros(microseconds));
    }
}
