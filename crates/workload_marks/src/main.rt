//! Marks in rounds beside plain marks, on the graphs of a generated workload. The script that `gen` makes is run by the fixed
//! schedule, and its report is followed as a journal. Then each node gets three collectors, to which the bulletins are handed that
//! the history hands to the node. None of them drops anybody, so that their graphs keep all garbage. One never sweeps: after each
//! hand its graph is marked, plainly and in rounds over 1, 2 and 7 parts. The two others sweep where the node does, one by marks
//! that it keeps, the other in rounds over 4 parts.
#![tactic(auto)]

mod collectors;
mod following;
mod history;
mod marking;
mod memory;
mod verdicts;
mod workload;

use cluster_course::Course;
use crgc_ids::NodeId;
use following::tell_node;
use history::course_of;
use std::alloc::Global;
use std::io;
use std::thread::Threads;
use workload::report_of;

const SEED: u64 = 7;

const SIZE: u32 = 100;

fn main(rt: HostRuntime) -> io::Result<()> {
    let report = report_of(rt.alloc(), SEED, SIZE)?;
    let course = course_of(rt.alloc(), report.as_slice())?;
    let events = course.len();
    let stopped = course.stopped();
    println!(rt; "events {events} stopped {stopped}")?;
    tell_nodes(&rt, rt.alloc(), &course)
}

/// What the collectors of each node tell.
fn tell_nodes<R: Print + Threads + Sync>(rt: &R, alloc: Global, course: &Course) -> io::Result<()> {
    for number in 0..course.nodes() {
        if let Some(node) = NodeId::new(number) {
            tell_node(rt, alloc, course.world(), node)?;
        }
    }
    Ok(())
}
