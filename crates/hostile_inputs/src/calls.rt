//! Calls of the program over memory.
use cluster_top::{Status, crgc_top};
use crgc_io::{MemorySink, MemorySource, QuietGate};
use std::alloc::{AllocError, Global};
use std::sync::Wait;
use std::thread::Threads;
use std::time::Clock;

/// How many bytes a read or a write moves at most.
pub const PIECE: usize = 64;

/// How many bytes are written at most.
const ROOM: usize = 16_777_216;

/// Which read or write fails, by its number from 0.
#[derive(Clone, Copy, PartialEq, Eq)]
pub enum Failing {
    Nothing,
    Read(u32),
    Write(u32),
}

/// How a call ended, and what it had written.
#[derive(Drop)]
pub struct Ending {
    pub status: Status,
    pub written: Vec<u8>,
}

/// The program is called with these words, and reads these bytes.
pub fn call(
    rt: &(impl Threads + Wait + Clock + Sync),
    alloc: Global,
    words: &[String],
    bytes: &[u8],
    failing: Failing,
) -> Result<Ending, AllocError> {
    let mut source = MemorySource::new(bytes.to_vec(alloc)?, PIECE, reads(alloc, failing)?);
    let mut sink = sink(alloc, failing)?;
    let mut kept = None;
    let status = crgc_top(
        rt,
        alloc,
        words,
        &mut source,
        &mut sink,
        &QuietGate,
        &mut kept,
    );
    let written = sink.bytes().to_vec(alloc)?;
    Ok(Ending { status, written })
}

fn sink(alloc: Global, failing: Failing) -> Result<MemorySink, AllocError> {
    match MemorySink::new(alloc, ROOM, PIECE, writes(alloc, failing)?) {
        Ok(sink) => Ok(sink),
        Err(_) => Err(AllocError),
    }
}

/// The reads that fail.
fn reads(alloc: Global, failing: Failing) -> Result<Vec<u32>, AllocError> {
    match failing {
        Failing::Read(number) => [number].to_vec(alloc),
        _ => Ok(Vec::new(alloc)),
    }
}

/// The writes that fail.
fn writes(alloc: Global, failing: Failing) -> Result<Vec<u32>, AllocError> {
    match failing {
        Failing::Write(number) => [number].to_vec(alloc),
        _ => Ok(Vec::new(alloc)),
    }
}
