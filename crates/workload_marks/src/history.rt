//! The history that a report tells.
ghost use Rattle.std.specs.Prelude.{◌≡◌, true, IfSome};
ghost use Rattle.true_config.specs.Applying.{CarriesFew};

use crate::memory::made;
use cluster_course::Course;
use event_lines::{read, read_header};
use history_model::Event;
use journal_model::Line;
use std::alloc::Global;
use std::{io, str};

/// The course of the report's events, one after another; its other lines are left out.
pub fn course_of(alloc: Global, report: &[u8]) -> io::Result<Course> {
    let Ok(text) = str::from_utf8(report) else {
        return Err(io::ErrorKind::InvalidData.into());
    };
    let mut lines = text.lines();
    let mut course = begin(alloc, lines.next().unwrap_or(""))?;
    for line in lines {
        follow(alloc, &mut course, line)?;
    }
    Ok(course)
}

/// The empty history of the cluster that the header names.
fn begin(alloc: Global, header: &str) -> io::Result<Course> {
    let Some((nodes, version)) = read_header(header.as_bytes()) else {
        return Err(io::ErrorKind::InvalidData.into());
    };
    made(Course::begin_recorded(alloc, nodes, version))
}

/// The line's event happens, if it spells one.
fn follow(alloc: Global, course: &mut Course, line: &str) -> io::Result<()> {
    let Some(event) = event_of(alloc, line.as_bytes()) else {
        return Ok(());
    };
    match course.follow(event) {
        Ok(_) => Ok(()),
        Err(_) => Err(io::ErrorKind::InvalidData.into()),
    }
}

/// The event that the line spells; None where it spells none, or a message with more than 16 references.
fn event_of(alloc: Global, line: &[u8]) -> Option<Event>
    ensures { IfSome result CarriesFew }
{
    let Ok(Line::Event(event)) = read(alloc, line) else {
        return None;
    };
    if carries_few(&event) {
        Some(event)
    } else {
        None
    }
}

/// Whether the event, where it is a send, carries at most 16 references.
fn carries_few(event: &Event) -> bool
    ensures { result ≡ true → CarriesFew event.now }
{
    match event {
        Event::Send { refs, .. } => refs.len() <= 16,
        _ => true,
    }
}
