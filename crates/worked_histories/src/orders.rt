//! The end of a journal: bulletins are handed in some order, and the nodes sweep.
use cluster_course::Course;
use crgc_ids::NodeId;
use event_lines::append_verdict;
use history_model::Event;
use std::alloc::Global;
use std::{io, str};

/// An order in which bulletins are handed to a node.
#[derive(Clone, Copy, PartialEq, Eq)]
pub enum Order {
    /// As the journal says.
    AsTold,
    /// By origins, and those of an origin by their numbers.
    Rising,
    /// The other way round.
    Falling,
    /// Rising, each twice.
    Twice,
}

/// At the end of a journal whose own hands and sweeps were left out, all bulletins are handed to each node that is up; then these
/// nodes sweep, and their verdicts are printed.
pub fn end(
    rt: &impl Print,
    alloc: Global,
    course: &mut Option<Course>,
    order: Order,
) -> io::Result<()> {
    let Some(course) = course else {
        return Ok(());
    };
    if order == Order::AsTold {
        return Ok(());
    }
    for number in 0..course.nodes() {
        hand_all(course, number, order);
    }
    for number in 0..course.nodes() {
        sweep(rt, alloc, course, number)?;
    }
    Ok(())
}

/// All bulletins are handed to the node, if it is up.
fn hand_all(course: &mut Course, number: u8, order: Order) {
    let Some(to) = NodeId::new(number) else {
        return;
    };
    if !course.world().is_up(to) {
        return;
    }
    let nodes = course.nodes();
    for i in 0..nodes {
        let place = if order == Order::Falling {
            nodes - 1 - i
        } else {
            i
        };
        if let Some(origin) = NodeId::new(place) {
            hand_stream(course, to, origin, order);
        }
    }
}

/// The bulletins of one origin are handed to the node.
fn hand_stream(course: &mut Course, to: NodeId, origin: NodeId, order: Order) {
    let len = course.world().stream_len(origin);
    for i in 0..len {
        let number = if order == Order::Falling {
            len - 1 - i
        } else {
            i
        };
        let _ = course.follow(Event::Hand { to, origin, number });
        if order == Order::Twice {
            let _ = course.follow(Event::Hand { to, origin, number });
        }
    }
}

/// The node sweeps, if it is up, and its verdict is printed.
fn sweep(rt: &impl Print, alloc: Global, course: &mut Course, number: u8) -> io::Result<()> {
    let Some(node) = NodeId::new(number) else {
        return Ok(());
    };
    if course.follow(Event::Sweep { node }).is_err() {
        return Ok(());
    }
    let mut text = Vec::new(alloc);
    if let Some(verdicts) = course.verdicts()
        && let Some(verdict) = verdicts.last()
        && append_verdict(course.nodes(), verdict, &mut text).is_err()
    {
        return rt.println("no memory");
    }
    match str::from_utf8(text.as_slice()) {
        Ok(text) => rt.print(text),
        Err(_) => rt.println("no text"),
    }
}
