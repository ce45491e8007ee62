//! Plays the journals of the input, one after another. First it says after each event who is quiescent by the plain programs of
//! `quiet_check`, who was stopped, and of which nodes this is a quiet point. Then it plays the journals without their hands and
//! sweeps, once for each of three orders of handing: at the end of a journal all bulletins are handed to each node that is up,
//! and these nodes sweep.
#![tactic(auto)]

mod events;
mod orders;
mod telling;

use cluster_course::Course;
use event_lines::read_header;
use events::{event_of, is_of_collector};
use orders::{Order, end};
use std::alloc::Global;
use std::io::{self, BufRead, BufReader};
use telling::tell;

fn main(rt: HostRuntime) -> io::Result<()> {
    let mut lines = Vec::new(rt.alloc());
    for line in BufReader::new(rt.alloc(), rt.reader())?.lines(rt.alloc()) {
        lines.push(line?)?;
    }
    play_all(&rt, rt.alloc(), lines.as_slice(), Order::AsTold)?;
    rt.println("rising")?;
    play_all(&rt, rt.alloc(), lines.as_slice(), Order::Rising)?;
    rt.println("falling")?;
    play_all(&rt, rt.alloc(), lines.as_slice(), Order::Falling)?;
    rt.println("twice")?;
    play_all(&rt, rt.alloc(), lines.as_slice(), Order::Twice)
}

/// Plays each journal in this order of handing.
fn play_all(rt: &impl Print, alloc: Global, lines: &[String], order: Order) -> io::Result<()> {
    let mut course = None;
    for line in lines {
        if let Some((nodes, version)) = read_header(line.as_bytes()) {
            end(rt, alloc, &mut course, order)?;
            println!(rt; "{line}")?;
            course = Course::begin_recorded(alloc, nodes, version).ok();
        } else if let Some(course) = &mut course {
            go_on(rt, alloc, course, line, order)?;
        }
    }
    end(rt, alloc, &mut course, order)
}

/// The line's event happens, and is told where the hands and sweeps are those of the journal; else these are left out.
fn go_on(
    rt: &impl Print,
    alloc: Global,
    course: &mut Course,
    line: &str,
    order: Order,
) -> io::Result<()> {
    let Some(event) = event_of(alloc, line.as_bytes()) else {
        return rt.println("no event");
    };
    if order != Order::AsTold && is_of_collector(&event) {
        return Ok(());
    }
    if course.follow(event).is_err() {
        return rt.println("hindered");
    }
    if order == Order::AsTold {
        println!(rt; "{line}")?;
        tell(rt, alloc, course)?;
    }
    Ok(())
}
