//! A crash and a round after each first part of a journal.
ghost use Rattle.std.specs.Prelude.{◌≡◌, true, IfSome};
ghost use Rattle.true_config.specs.Applying.{CarriesFew};

use crate::cases::Case;
use cluster_course::Course;
use cluster_round::round;
use crgc_ids::{ActorId, NoMemory, NodeId};
use event_lines::{append_verdict, read, read_header};
use history_model::Event;
use journal_model::Line;
use quiet_check::is_quiescent;
use std::alloc::Global;
use std::{io, str};

/// After each first part of the case's journal, from none of its events to all, the node of the case crashes and one round
/// follows: then it is told how many events there are, which actors were stopped or are quiescent, and the last verdict.
pub fn tell_crashes(rt: &impl Print, alloc: Global, case: &Case<'_>) -> io::Result<()> {
    let name = case.name;
    let Ok(journal) = str::from_utf8(case.bytes.as_slice()) else {
        return rt.println("no text");
    };
    for events in 0..journal.lines().count() {
        print!(rt; "{name}, {events} events before:")?;
        match begin(alloc, journal) {
            Some(mut course) => tell_crash(rt, alloc, case, journal, events, &mut course)?,
            None => rt.println(" no header")?,
        }
    }
    Ok(())
}

/// The empty history of the cluster that the journal's header names.
fn begin(alloc: Global, journal: &str) -> Option<Course> {
    let (nodes, version) = read_header(journal.lines().next()?.as_bytes())?;
    Course::begin_recorded(alloc, nodes, version).ok()
}

fn tell_crash(
    rt: &impl Print,
    alloc: Global,
    case: &Case<'_>,
    journal: &str,
    events: usize,
    course: &mut Course,
) -> io::Result<()> {
    if follow(alloc, case, journal, events, course).is_none() {
        return rt.println(" hindered");
    }
    let len = course.len();
    print!(rt; " {len} events")?;
    tell_actors(rt, alloc, course)?;
    rt.println("")?;
    tell_verdict(rt, alloc, course)
}

/// The first events of the journal happen, then the crash, then the round; None where something hinders them.
fn follow(
    alloc: Global,
    case: &Case<'_>,
    journal: &str,
    events: usize,
    course: &mut Course,
) -> Option<()> {
    for line in journal.lines().skip(1).take(events) {
        course.follow(event_of(alloc, line.as_bytes())?).ok()?;
    }
    let node = NodeId::new(case.number(0)?)?;
    course.follow(Event::Crash { node }).ok()?;
    round(course).ok()
}

/// The event that the line spells; None where it spells none, or a message.
fn event_of(alloc: Global, line: &[u8]) -> Option<Event>
    ensures { IfSome result CarriesFew }
{
    match read(alloc, line) {
        Ok(Line::Event(event)) => few(event),
        _ => None,
    }
}

/// The event, if it carries at most 16 references.
fn few(event: Event) -> Option<Event>
    ensures { IfSome result CarriesFew }
{
    if carries_few(&event) {
        Some(event)
    } else {
        None
    }
}

fn carries_few(event: &Event) -> bool
    ensures { result ≡ true → CarriesFew event.now }
{
    match event {
        Event::Send { refs, .. } => refs.len() <= 16,
        _ => true,
    }
}

/// The actors that were stopped or are quiescent.
fn tell_actors(rt: &impl Print, alloc: Global, course: &Course) -> io::Result<()> {
    for number in 0..course.nodes() {
        if let Some(node) = NodeId::new(number) {
            tell_node(rt, alloc, course, node)?;
        }
    }
    Ok(())
}

fn tell_node(rt: &impl Print, alloc: Global, course: &Course, node: NodeId) -> io::Result<()> {
    for serial in 0..course.world().born(node) {
        if let Some(actor) = ActorId::new(node, serial) {
            tell_actor(rt, alloc, course, actor)?;
        }
    }
    Ok(())
}

fn tell_actor(rt: &impl Print, alloc: Global, course: &Course, actor: ActorId) -> io::Result<()> {
    let node = actor.node().get();
    let serial = actor.serial();
    let is_stopped = course.world().is_stopped(actor);
    match is_quiescent_in(alloc, course, actor) {
        Ok(true) if is_stopped => print!(rt; ", {node}.{serial} stopped and quiescent"),
        Ok(true) => print!(rt; ", {node}.{serial} quiescent"),
        Ok(false) if is_stopped => print!(rt; ", {node}.{serial} stopped"),
        Ok(false) => Ok(()),
        Err(NoMemory) => rt.print(", no memory"),
    }
}

/// Whether the actor is quiescent, by the record of the history.
fn is_quiescent_in(alloc: Global, course: &Course, actor: ActorId) -> Result<bool, NoMemory> {
    match course.world().history() {
        Some(history) => is_quiescent(alloc, history, actor),
        None => Err(NoMemory),
    }
}

/// The lines of the last verdict.
fn tell_verdict(rt: &impl Print, alloc: Global, course: &Course) -> io::Result<()> {
    let mut text = Vec::new(alloc);
    if let Some(verdicts) = course.verdicts()
        && let Some(verdict) = verdicts.last()
        && append_verdict(course.nodes(), verdict, &mut text).is_err()
    {
        return rt.println("no memory");
    }
    match str::from_utf8(text.as_slice()) {
        Ok(text) => rt.print(text),
        Err(_) => rt.println("no text"),
    }
}
