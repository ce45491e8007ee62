//! How calls of the program ended.
use crate::calls::{Ending, Failing, call};
use crate::cases::Case;
use cluster_top::Status;
use md5::{Digest, Md5};
use std::alloc::Global;
use std::sync::Wait;
use std::thread::Threads;
use std::time::Clock;
use std::{io, str};

/// How the call with the case's words and bytes ended.
pub fn tell_call(
    rt: &(impl Print + Threads + Wait + Clock + Sync),
    alloc: Global,
    case: &Case<'_>,
) -> io::Result<()> {
    let name = case.name;
    print!(rt; "{name}:")?;
    tell_ending(rt, alloc, case, Failing::Nothing)
}

/// How the call ended in which this read or write fails.
pub fn tell_ending(
    rt: &(impl Print + Threads + Wait + Clock + Sync),
    alloc: Global,
    case: &Case<'_>,
    failing: Failing,
) -> io::Result<()> {
    let Ending { status, written } = call(
        rt,
        alloc,
        case.words.as_slice(),
        case.bytes.as_slice(),
        failing,
    )?;
    let number = status.exit_number();
    print!(rt; " {number}")?;
    if let Status::WriteFault { written } = &status {
        print!(rt; " after {written}")?;
    }
    match str::from_utf8(written.as_slice()) {
        Ok(text) => tell_text(rt, text),
        Err(_) => rt.println(", no text"),
    }
}

/// What was written: a single line itself, of more the number of bytes, their digest, and the last line.
fn tell_text(rt: &impl Print, text: &str) -> io::Result<()> {
    match text.strip_suffix('\n') {
        Some(lines) => match lines.rsplit_once('\n') {
            Some((_, last)) => {
                tell_digest(rt, text)?;
                println!(rt; " to {last}")
            }
            None => println!(rt; ", {lines}"),
        },
        None => {
            tell_digest(rt, text)?;
            rt.println(" and no line feed")
        }
    }
}

fn tell_digest(rt: &impl Print, text: &str) -> io::Result<()> {
    let len = text.len();
    print!(rt; ", {len} bytes ")?;
    for byte in Md5::digest(text.as_bytes()) {
        print!(rt; "{byte:02x}")?;
    }
    Ok(())
}
