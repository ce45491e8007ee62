//! Calls of the program in which one read or one write after another fails.
use crate::calls::{Failing, PIECE, call};
use crate::cases::Case;
use crate::endings::tell_ending;
use std::alloc::Global;
use std::io;
use std::sync::Wait;
use std::thread::Threads;
use std::time::Clock;

/// Each read fails in turn, the one at the end too, and then one that does not come.
pub fn tell_reads(
    rt: &(impl Print + Threads + Wait + Clock + Sync),
    alloc: Global,
    case: &Case<'_>,
) -> io::Result<()> {
    let name = case.name;
    for number in 0..pieces(case.bytes.len()).saturating_add(2) {
        print!(rt; "{name}, read {number} fails:")?;
        tell_ending(rt, alloc, case, Failing::Read(number))?;
    }
    Ok(())
}

/// Each write fails in turn, and then one that does not come.
pub fn tell_writes(
    rt: &(impl Print + Threads + Wait + Clock + Sync),
    alloc: Global,
    case: &Case<'_>,
) -> io::Result<()> {
    let name = case.name;
    let whole = call(
        rt,
        alloc,
        case.words.as_slice(),
        case.bytes.as_slice(),
        Failing::Nothing,
    )?;
    for number in 0..pieces(whole.written.len()).saturating_add(1) {
        print!(rt; "{name}, write {number} fails:")?;
        tell_ending(rt, alloc, case, Failing::Write(number))?;
    }
    Ok(())
}

/// In how many pieces so many bytes are moved.
fn pieces(len: usize) -> u32 {
    u32::try_from(len.div_ceil(PIECE)).unwrap_or(0)
}
