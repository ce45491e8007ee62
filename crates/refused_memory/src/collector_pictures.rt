//! What readers of a collector and its shadow graph show.
use collector::Collector;
use crgc_ids::{ActorId, NodeId};
use shadow_graph::ShadowGraph;
use std::alloc::AllocError;
use std::fmt::Write;

/// Up to which number bulletins are asked for.
const NUMBERS: u32 = 4;

/// Up to which serial actors are asked for.
const SERIALS: u32 = 3;

/// What the collector has taken, and wants.
pub fn draw_taken(text: &mut String, collector: &Collector) -> Result<(), AllocError> {
    for number in 0..collector.nodes() {
        if let Some(origin) = NodeId::new(number) {
            let wants = collector.wants(origin);
            writeln!(text, "wants {wants} of {origin:?}")?;
            for number in 0..NUMBERS {
                let taken = collector.has_taken(origin, number);
                writeln!(text, "{number} of {origin:?} taken {taken}")?;
            }
        }
    }
    Ok(())
}

/// What the collector has folded: the cut, and what its graph shows.
pub fn draw_folded(text: &mut String, collector: &Collector) -> Result<(), AllocError> {
    let node = collector.node();
    let nodes = collector.nodes();
    let cut = collector.cut();
    writeln!(text, "{node:?} of {nodes} {cut:?}")?;
    let graph = collector.graph();
    let lost = graph.lost();
    let known = graph.known_count();
    let places = graph.place_count();
    writeln!(text, "{lost:?} known {known} places {places}")?;
    for place in 0..=places {
        let actor = graph.actor_at(place);
        writeln!(text, "place {place} {actor:?}")?;
    }
    for place in 0..number_of_actors(nodes) {
        if let Some(actor) = actor_of(place) {
            draw_shadow(text, graph, actor, nodes)?;
        }
    }
    Ok(())
}

fn draw_shadow(
    text: &mut String,
    graph: &ShadowGraph,
    actor: ActorId,
    nodes: u8,
) -> Result<(), AllocError> {
    let place = graph.place_of(actor);
    let known = graph.is_known(actor);
    let dropped = graph.is_dropped(actor);
    let flags = graph.flags(actor);
    writeln!(
        text,
        "{actor:?} at {place:?} known {known} dropped {dropped} flags {flags:?}"
    )?;
    let received = graph.received(actor);
    let told = graph.told(actor);
    let admitted = graph.admitted(actor);
    let balance = graph.balance(actor);
    writeln!(
        text,
        "{actor:?} {received} - {told} - {admitted} = {balance}"
    )?;
    for place in 0..number_of_actors(nodes) {
        if let Some(owner) = actor_of(place) {
            let edge = graph.edge(owner, actor);
            writeln!(text, "{actor:?} of {owner:?} {edge}")?;
        }
    }
    Ok(())
}

/// How many actors are asked for in a cluster of so many nodes.
fn number_of_actors(nodes: u8) -> u32 {
    u32::from(nodes).saturating_mul(SERIALS)
}

/// The actor with this number.
fn actor_of(number: u32) -> Option<ActorId> {
    let node = u8::try_from(number / SERIALS).ok()?;
    ActorId::new(NodeId::new(node)?, number % SERIALS)
}
