//! What readers of a course and its world show.
ghost use Rattle.std.specs.Prelude.{◌≢◌};

use cluster_course::Course;
use crgc_ids::{ActorId, NodeId};
use std::alloc::AllocError;
use std::fmt::Write;
use true_config::World;

/// Up to which number copies on a link are looked at.
const NUMBERS: u32 = 3;

/// What the course shows beside its world.
pub fn draw_course(text: &mut String, course: &Course) -> Result<(), AllocError> {
    let len = course.len();
    let stopped = course.stopped();
    let verdicts = course.verdicts();
    writeln!(text, "len {len} stopped {stopped} verdicts {verdicts:?}")
}

/// What the collectors of the nodes that are up want; nothing where they are given up.
pub fn draw_wanted(text: &mut String, course: &Course) -> Result<(), AllocError> {
    for to in 0..course.nodes() {
        for origin in 0..course.nodes() {
            if let Some(to) = NodeId::new(to)
                && let Some(origin) = NodeId::new(origin)
                && course.world().is_up(to)
                && let Ok(number) = course.wants(to, origin)
            {
                writeln!(text, "{to:?} wants {number} of {origin:?}")?;
            }
        }
    }
    Ok(())
}

/// What the world shows: its history first.
pub fn draw_world(text: &mut String, world: &World) -> Result<(), AllocError> {
    let history = world.history();
    writeln!(text, "{history:?}")?;
    let version = world.version();
    let live = world.live_count();
    let busy = world.busy_count();
    let ready = world.next_ready(None);
    writeln!(
        text,
        "version {version} live {live} busy {busy} ready {ready:?}"
    )?;
    for number in 0..world.nodes() {
        if let Some(node) = NodeId::new(number) {
            draw_node(text, world, node)?;
        }
    }
    Ok(())
}

fn draw_node(text: &mut String, world: &World, node: NodeId) -> Result<(), AllocError> {
    draw_counts(text, world, node)?;
    draw_next(text, world, node)?;
    for number in 0..=world.stream_len(node) {
        let bulletin = world.bulletin(node, number);
        writeln!(text, "{bulletin:?}")?;
    }
    for serial in 0..=world.born(node) {
        if let Some(actor) = ActorId::new(node, serial) {
            draw_actor(text, world, actor)?;
        }
    }
    for number in 0..world.nodes() {
        if let Some(at) = NodeId::new(number) {
            draw_link(text, world, node, at)?;
        }
    }
    Ok(())
}

fn draw_counts(text: &mut String, world: &World, node: NodeId) -> Result<(), AllocError> {
    let up = world.is_up(node);
    let born = world.born(node);
    let stopped = world.stopped(node);
    writeln!(text, "{node:?} up {up} born {born} stopped {stopped}")?;
    let stream = world.stream_len(node);
    let queue = world.queue_len(node);
    let waits = world.has_entries(node);
    writeln!(text, "{node:?} stream {stream} queue {queue} waits {waits}")
}

fn draw_next(text: &mut String, world: &World, node: NodeId) -> Result<(), AllocError> {
    let flush = world.next_flush(node, None);
    let window = world.next_window(node);
    let removal = world.next_removal(node);
    writeln!(
        text,
        "{node:?} flush {flush:?} window {window:?} removal {removal:?}"
    )
}

fn draw_actor(text: &mut String, world: &World, actor: ActorId) -> Result<(), AllocError> {
    let born = world.is_actor(actor);
    let busy = world.is_busy(actor);
    let root = world.is_root(actor);
    let stopped = world.is_stopped(actor);
    writeln!(
        text,
        "{actor:?} born {born} busy {busy} root {root} stopped {stopped}"
    )?;
    let mail = world.mail(actor);
    let some = world.has_mail(actor);
    let flush = world.can_flush(actor);
    writeln!(text, "{actor:?} mail {mail} {some} can flush {flush}")?;
    let ready = world.next_ready(Some(actor));
    let flush = world.next_flush(actor.node(), Some(actor));
    writeln!(text, "{actor:?} then ready {ready:?} then flush {flush:?}")?;
    for number in 0..world.nodes() {
        if let Some(node) = NodeId::new(number) {
            draw_pairs(text, world, actor, node)?;
        }
    }
    Ok(())
}

/// What the world shows of the actor and each actor of the node.
fn draw_pairs(
    text: &mut String,
    world: &World,
    owner: ActorId,
    node: NodeId,
) -> Result<(), AllocError> {
    for serial in 0..=world.born(node) {
        if let Some(target) = ActorId::new(node, serial) {
            let held = world.held(owner, target);
            let child = world.is_parent(owner, target);
            writeln!(text, "{owner:?} holds {held} of {target:?} child {child}")?;
        }
    }
    Ok(())
}

fn draw_link(text: &mut String, world: &World, from: NodeId, at: NodeId) -> Result<(), AllocError> {
    if from == at {
        return Ok(());
    }
    let head = world.link_head(from, at);
    let admitted = world.has_admitted(from, at);
    writeln!(
        text,
        "link {from:?} {at:?} head {head:?} admitted {admitted}"
    )?;
    if !world.is_up(at) {
        return Ok(());
    }
    let closed = world.is_closed(from, at);
    writeln!(text, "link {from:?} {at:?} closed {closed}")?;
    if closed {
        return Ok(());
    }
    for number in 0..NUMBERS {
        let copy = world.has_copy(from, at, number);
        writeln!(text, "link {from:?} {at:?} number {number} copy {copy}")?;
    }
    Ok(())
}
