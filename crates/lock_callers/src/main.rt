//! Threads that add 1 to a counter under the turn lock, for whoever takes the time of it: the first word says how many threads there
//! are, the second how often each adds. The sum is printed.
#![tactic(auto)]

mod callers;

use callers::sum_of;
use crgc_ids::NoMemory;
use std::alloc::Global;
use std::env::{self, Env};
use std::io;

// The most threads that are made.
const MOST_CALLERS: u32 = 64;

fn main(rt: HostRuntime) -> io::Result<()> {
    let Some((callers, calls)) = numbers(&rt, rt.alloc()) else {
        return rt.println("two numbers are wanted: callers, and calls of each");
    };
    match sum_of(&rt, rt.alloc(), callers.min(MOST_CALLERS), calls) {
        Ok(sum) => println!(rt; "{sum}"),
        Err(NoMemory) => rt.println("no memory"),
    }
}

// The two numbers after the program's name.
fn numbers<R: Env + AllocGlobal>(rt: &R, alloc: Global) -> Option<(u32, u32)> {
    let mut words = env::args(rt).ok()?.skip(1);
    let callers = words.next()?.parse::<u32>().ok()?;
    let calls = words.next()?.parse::<u32>().ok()?;
    Some((callers, calls))
}
