//! What is so after an event.
use cluster_course::Course;
use crgc_ids::{ActorId, NoMemory, NodeId};
use history_model::History;
use quiet_check::{is_quiescent, is_quiet_point};
use std::alloc::Global;
use std::io;

/// Who is quiescent, who was stopped, and of which nodes this is a quiet point.
pub fn tell(rt: &impl Print, alloc: Global, course: &Course) -> io::Result<()> {
    rt.print("  quiescent")?;
    for number in 0..course.nodes() {
        tell_actors(rt, alloc, course, number, true)?;
    }
    rt.print(" stopped")?;
    for number in 0..course.nodes() {
        tell_actors(rt, alloc, course, number, false)?;
    }
    rt.print(" quiet")?;
    for number in 0..course.nodes() {
        tell_node(rt, alloc, course, number)?;
    }
    rt.println("")
}

/// The actors of the node that are quiescent, or that were stopped.
fn tell_actors(
    rt: &impl Print,
    alloc: Global,
    course: &Course,
    number: u8,
    quiescent: bool,
) -> io::Result<()> {
    let Some(node) = NodeId::new(number) else {
        return Ok(());
    };
    for serial in 0..course.world().born(node) {
        let Some(actor) = ActorId::new(node, serial) else {
            return Ok(());
        };
        match is_so(alloc, course, actor, quiescent) {
            Ok(true) => print!(rt; " {number}.{serial}")?,
            Ok(false) => {}
            Err(NoMemory) => rt.print(" no memory")?,
        }
    }
    Ok(())
}

/// Whether the actor is quiescent, or else was stopped.
fn is_so(
    alloc: Global,
    course: &Course,
    actor: ActorId,
    quiescent: bool,
) -> Result<bool, NoMemory> {
    if quiescent {
        is_quiescent(alloc, record_of(course)?, actor)
    } else {
        Ok(course.world().is_stopped(actor))
    }
}

/// The node, where this is a quiet point of it.
fn tell_node(rt: &impl Print, alloc: Global, course: &Course, number: u8) -> io::Result<()> {
    let Some(node) = NodeId::new(number) else {
        return Ok(());
    };
    match is_quiet(alloc, course, node) {
        Ok(true) => print!(rt; " {number}"),
        Ok(false) => Ok(()),
        Err(NoMemory) => rt.print(" no memory"),
    }
}

/// Whether this is a quiet point of the node.
fn is_quiet(alloc: Global, course: &Course, node: NodeId) -> Result<bool, NoMemory> {
    is_quiet_point(alloc, record_of(course)?, node)
}

/// The record of the history, of which each course here keeps one.
fn record_of(course: &Course) -> Result<&History, NoMemory> {
    course.world().history().ok_or(NoMemory)
}
