//! A table of hostile inputs. Each line of the input is a case: its name, what is asked, and the bytes that are given. What came
//! of it is written behind the name. A line without a bar is a heading, and is written as it stands.
#![tactic(auto)]

mod bulletins;
mod calls;
mod cases;
mod crashes;
mod edges;
mod endings;

use cases::Case;
use std::alloc::Global;
use std::io::{self, BufRead, BufReader};
use std::sync::Wait;
use std::thread::Threads;
use std::time::Clock;

fn main(rt: HostRuntime) -> io::Result<()> {
    for line in BufReader::new(rt.alloc(), rt.reader())?.lines(rt.alloc()) {
        tell_line(&rt, rt.alloc(), line?.as_str())?;
    }
    Ok(())
}

/// What comes of the line's case.
fn tell_line(
    rt: &(impl Print + Threads + Wait + Clock + Sync),
    alloc: Global,
    line: &str,
) -> io::Result<()> {
    match line.split_once('|') {
        Some((asked, text)) => tell_case(rt, alloc, &Case::read(alloc, asked, text)?),
        None => println!(rt; "{line}"),
    }
}

/// What comes of the case.
fn tell_case(
    rt: &(impl Print + Threads + Wait + Clock + Sync),
    alloc: Global,
    case: &Case<'_>,
) -> io::Result<()> {
    match case.kind {
        "crgc" => endings::tell_call(rt, alloc, case),
        "reads" => edges::tell_reads(rt, alloc, case),
        "writes" => edges::tell_writes(rt, alloc, case),
        "take" => bulletins::tell_taken(rt, alloc, case),
        "beginnings" => bulletins::tell_beginnings(rt, alloc, case),
        "changes" => bulletins::tell_changes(rt, alloc, case),
        "crashes" => crashes::tell_crashes(rt, alloc, case),
        _ => rt.println("no such kind"),
    }
}
