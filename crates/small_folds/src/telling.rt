//! What bulletins say and what a collector shows, in words.
use crate::bulletins::{Kind, Row, Sheet, actor_at};
use collector::Collector;
use crgc_ids::{ActorId, NodeId};
use event_lines::append_verdict;
use history_model::Verdict;
use pseudoroot_trace::{Marks, mark};
use shadow_graph::ShadowGraph;
use std::alloc::Global;
use std::{io, str};

/// What the bulletin says.
pub fn tell_sheet(rt: &impl Print, nodes: u8, number: u8, sheet: &Sheet) -> io::Result<()> {
    let Sheet { node, from, .. } = sheet;
    match sheet.kind {
        Kind::Delta => print!(rt; "delta {node} {number}")?,
        Kind::Window => print!(rt; "window {node} {number} from {from}")?,
        Kind::Final => print!(rt; "final {node} {number} from {from}")?,
    }
    for row in &sheet.rows {
        tell_row(rt, nodes, *row)?;
    }
    rt.println("")
}

fn tell_row(rt: &impl Print, nodes: u8, row: Row) -> io::Result<()> {
    match row {
        Row::State {
            actor,
            received,
            busy,
            root,
        } => {
            rt.print(" state")?;
            tell_actor(rt, nodes, actor)?;
            print!(rt; " {received}")?;
            tell_flags(rt, Some((busy, root)))
        }
        Row::Messages { actor } => {
            rt.print(" messages")?;
            tell_actor(rt, nodes, actor)?;
            rt.print(" 1")
        }
        Row::References {
            owner,
            target,
            count,
        } => {
            rt.print(" references")?;
            tell_pair(rt, nodes, owner, target, count)
        }
        Row::Released { owner, target } => {
            rt.print(" released")?;
            tell_pair(rt, nodes, owner, target, 1)
        }
    }
}

fn tell_pair(rt: &impl Print, nodes: u8, owner: u8, target: u8, count: u8) -> io::Result<()> {
    tell_actor(rt, nodes, owner)?;
    tell_actor(rt, nodes, target)?;
    print!(rt; " {count}")
}

fn tell_actor(rt: &impl Print, nodes: u8, place: u8) -> io::Result<()> {
    let (node, serial) = actor_at(nodes, place);
    print!(rt; " {node}.{serial}")
}

fn tell_flags(rt: &impl Print, flags: Option<(bool, bool)>) -> io::Result<()> {
    rt.print(match flags {
        None => " none",
        Some((false, false)) => " idle",
        Some((true, false)) => " busy",
        Some((false, true)) => " root",
        Some((true, true)) => " busy-root",
    })
}

/// What readers show of the graph, with its marks, actor by actor.
pub fn tell_graph(
    rt: &impl Print,
    alloc: Global,
    nodes: u8,
    graph: &ShadowGraph,
) -> io::Result<()> {
    let mut marks = Marks::new(alloc);
    if marks.reserve(graph).is_err() {
        return rt.println("no memory");
    }
    mark(graph, &mut marks);
    let known = graph.known_count();
    println!(rt; "known {known}")?;
    for place in 0..4u8 {
        tell_shadow(rt, nodes, graph, &marks, place)?;
    }
    Ok(())
}

/// What readers show of the actor, if it was named.
fn tell_shadow(
    rt: &impl Print,
    nodes: u8,
    graph: &ShadowGraph,
    marks: &Marks,
    place: u8,
) -> io::Result<()> {
    let Some(actor) = actor_of(nodes, place) else {
        return Ok(());
    };
    if !graph.is_known(actor) && !graph.is_dropped(actor) {
        return Ok(());
    }
    let (node, serial) = actor_at(nodes, place);
    print!(rt; "{node}.{serial}")?;
    tell_numbers(rt, graph, actor)?;
    rt.print(" flags")?;
    tell_flags(rt, graph.flags(actor))?;
    if marks.is_marked(actor) {
        rt.print(" marked")?;
    }
    tell_edges(rt, nodes, graph, actor)?;
    rt.println("")
}

/// The actor at the place.
fn actor_of(nodes: u8, place: u8) -> Option<ActorId> {
    let (node, serial) = actor_at(nodes, place);
    ActorId::new(NodeId::new(node)?, u32::from(serial))
}

fn tell_numbers(rt: &impl Print, graph: &ShadowGraph, actor: ActorId) -> io::Result<()> {
    rt.print(if graph.is_known(actor) {
        " known"
    } else {
        " dropped"
    })?;
    let received = graph.received(actor);
    let told = graph.told(actor);
    let admitted = graph.admitted(actor);
    let balance = graph.balance(actor);
    print!(rt; " received {received} told {told} admitted {admitted} balance {balance}")
}

/// The edges to the actor that are not 0.
fn tell_edges(rt: &impl Print, nodes: u8, graph: &ShadowGraph, target: ActorId) -> io::Result<()> {
    for place in 0..4u8 {
        if let Some(owner) = actor_of(nodes, place) {
            let edge = graph.edge(owner, target);
            if edge != 0 {
                rt.print(" from")?;
                tell_actor(rt, nodes, place)?;
                print!(rt; " {edge}")?;
            }
        }
    }
    Ok(())
}

/// The lines of the verdict.
pub fn tell_verdict(
    rt: &impl Print,
    alloc: Global,
    collector: &Collector,
    verdict: &Verdict,
) -> io::Result<()> {
    let nodes = collector.nodes();
    let mut text = Vec::new(alloc);
    if nodes == 0 || nodes > 16 || append_verdict(nodes, verdict, &mut text).is_err() {
        return rt.println("no memory");
    }
    match str::from_utf8(text.as_slice()) {
        Ok(text) => rt.print(text),
        Err(_) => rt.println("no text"),
    }
}
