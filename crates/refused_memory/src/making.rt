//! Values that are made anew where the first call is refused.
ghost use Rattle.std.specs.Prelude.{◌≡◌, ◌<◌, true, length, IfOk, IfSome};
ghost use Rattle.history_model.specs.Streams.{stream};
ghost use Rattle.collector.specs.Collected.{IsSettled};
ghost use Rattle.true_config.specs.Applying.{CarriesFew};

use crate::pictures::Picture;
use crate::trial::Trial;
use bulletin_spelling::is_spellable;
use bulletin_streams::laws::bulletins_fit_the_wire;
use cluster_course::Course;
use collector::Collector;
use crgc_ids::{NoMemory, NodeId, Octets};
use event_lines::{LineRead, read, read_header};
use history_model::Event;
use journal_model::Line;
use std::alloc::Global;
use std::io;
use true_config::World;

/// The event that the line spells; None where it spells none, or a message with more than 16 references.
pub fn event_of(trial: &mut Trial, line: &str) -> Option<Event>
    ensures { IfSome result CarriesFew }
{
    let Some(Line::Event(event)) = line_of(trial, line) else {
        return None;
    };
    if carries_few(&event) {
        Some(event)
    } else {
        None
    }
}

/// What the line says; None where it says nothing.
fn line_of(trial: &mut Trial, line: &str) -> Option<Line> {
    match read(trial.alloc, line.as_bytes()) {
        Err(LineRead::NoMemory) => {
            trial.make_anew();
            read(trial.alloc, line.as_bytes()).ok()
        }
        said => said.ok(),
    }
}

/// Whether the event, where it is a send, carries at most 16 references.
fn carries_few(event: &Event) -> bool
    ensures { result ≡ true → CarriesFew event.now }
{
    match event {
        Event::Send { refs, .. } => refs.len() <= 16,
        _ => true,
    }
}

/// The empty history of the cluster that the journal's header names.
pub fn course_of(trial: &mut Trial, journal: &str) -> io::Result<Course> {
    let header = journal.lines().next().unwrap_or("");
    let Some((nodes, version)) = read_header(header.as_bytes()) else {
        return Err(io::ErrorKind::InvalidData.into());
    };
    if let Ok(course) = Course::begin_recorded(trial.alloc, nodes, version) {
        return Ok(course);
    }
    trial.make_anew();
    second(Course::begin_recorded(trial.alloc, nodes, version))
}

/// The report of the history.
pub fn report_of(trial: &mut Trial, course: &mut Course) -> io::Result<Vec<u8>> {
    if let Ok(report) = course.report(trial.alloc, false) {
        return Ok(report);
    }
    trial.make_anew();
    second(course.report(trial.alloc, false))
}

/// A new collector of the last node of a cluster.
pub fn collector_of(trial: &mut Trial, nodes: u8) -> io::Result<Collector>
    ensures { IfOk result IsSettled }
{
    let Some(node) = NodeId::new(nodes.saturating_sub(1)) else {
        return Err(io::ErrorKind::InvalidData.into());
    };
    if node.get() >= nodes || nodes > 16 {
        return Err(io::ErrorKind::InvalidData.into());
    }
    if let Ok(collector) = Collector::new(trial.alloc, node, nodes) {
        return Ok(collector);
    }
    trial.make_anew();
    match Collector::new(trial.alloc, node, nodes) {
        Ok(collector) => Ok(collector),
        Err(NoMemory) => Err(io::ErrorKind::OutOfMemory.into()),
    }
}

/// The bytes of the origin's bulletin with this number.
pub fn bytes_of(
    trial: &mut Trial,
    world: &World,
    origin: NodeId,
    number: u32,
) -> io::Result<Octets> {
    if origin.get() >= world.nodes() || number >= world.stream_len(origin) {
        return Err(io::ErrorKind::InvalidData.into());
    }
    if let Ok(bytes) = spelling_of(trial.alloc, world, origin, number) {
        return Ok(bytes);
    }
    trial.make_anew();
    second(spelling_of(trial.alloc, world, origin, number))
}

/// The bytes of the origin's bulletin with this number, which is in the stream.
fn spelling_of(
    alloc: Global,
    world: &World,
    origin: NodeId,
    number: u32,
) -> Result<Octets, NoMemory>
    requires origin { origin < world.now.cluster.nodes }
    requires number { number < length (stream world.now.cluster origin world.now.past) }
{
    world.is_lawful();
    bulletins_fit_the_wire();
    let Some(bulletin) = world.bulletin(origin, number) else {
        unreachable!()
    };
    is_spellable(bulletin);
    graph_wire::write(alloc, bulletin)
}

/// The picture of the course.
pub fn picture_of_course(trial: &mut Trial, course: &Course) -> io::Result<Picture> {
    if let Ok(picture) = Picture::of_course(trial.alloc, course) {
        return Ok(picture);
    }
    trial.make_anew();
    Ok(Picture::of_course(trial.alloc, course)?)
}

/// The picture of the collector.
pub fn picture_of_collector(trial: &mut Trial, collector: &Collector) -> io::Result<Picture> {
    if let Ok(picture) = Picture::of_collector(trial.alloc, collector) {
        return Ok(picture);
    }
    trial.make_anew();
    Ok(Picture::of_collector(trial.alloc, collector)?)
}

/// What the second call made.
fn second<T>(made: Result<T, NoMemory>) -> io::Result<T> {
    match made {
        Ok(value) => Ok(value),
        Err(NoMemory) => Err(io::ErrorKind::OutOfMemory.into()),
    }
}
