//! Worked rows beside want of memory. The input has the rows, with a blank line between two. Where an operation of a row answers want
//! of memory, what readers show of its object is compared with what they showed before, and the operation is made again. At the end
//! what came of the row is compared with what the input says of it.
#![tactic(auto)]

mod collecting;
mod collector_pictures;
mod counting;
mod journals;
mod making;
mod pictures;
mod scripts;
mod trial;
mod world_pictures;

use std::alloc::Global;
use std::io::{self, Read};
use std::str;
use std::sync::Wait;
use trial::Trial;

fn main(rt: HostRuntime) -> io::Result<()> {
    // There is room for the rows on the stack, so reading them takes no memory that could be refused.
    let mut room = [0u8; 4_096];
    let len = fill(&mut rt.reader(), &mut room)?;
    match str::from_utf8(room.get(..len).unwrap_or(&[])) {
        Ok(text) => tell_rows(&rt, rt.alloc(), text),
        Err(_) => rt.println("no text"),
    }
}

fn tell_rows<R: Print + Wait>(rt: &R, alloc: Global, text: &str) -> io::Result<()> {
    for row in text.split("\n\n") {
        tell_row(rt, alloc, row)?;
    }
    Ok(())
}

/// Fills the room from the reader, and answers how many bytes came.
fn fill(reader: &mut impl Read, room: &mut [u8]) -> io::Result<usize> {
    let mut len = 0usize;
    for _ in 0..room.len() {
        let Some(rest) = room.get_mut(len..) else {
            return Ok(len);
        };
        match reader.read(rest)? {
            0 => return Ok(len),
            more => len = len.saturating_add(more),
        }
    }
    Ok(len)
}

/// Plays the row, and tells what came of it.
fn tell_row<R: Print + Wait>(rt: &R, alloc: Global, row: &str) -> io::Result<()> {
    let Some((title, text)) = row.split_once('\n') else {
        spend(alloc, row);
        return Ok(());
    };
    let text = text.strip_suffix('\n').unwrap_or(text);
    let mut trial = Trial::new(alloc);
    let is_equal = match title.split_once(' ') {
        Some(("journal", _)) => journals::is_played(rt, &mut trial, text)?,
        Some(("script", _)) => scripts::is_run(&mut trial, text)?,
        Some(("counter", _)) => counting::is_counted(rt, &mut trial, text)?,
        _ => false,
    };
    trial.tell(rt, title, is_equal)
}

/// Takes memory as often as the row says behind its word, and gives it back each time. So the allocation that fails is one of these,
/// or that much earlier among those of the rows that follow.
fn spend(alloc: Global, row: &str) {
    let count = row.strip_prefix("spend ").unwrap_or("0");
    for number in 0..count.parse::<u32>().unwrap_or(0) {
        let mut piece = Vec::new(alloc);
        let _ = piece.push(number);
    }
}
