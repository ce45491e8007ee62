//! Whom a sweep stops, with the evidence.
ghost use Rattle.std.specs.Prelude.{◌≡◌, ◌<◌, ℕ, true, false, Ok, IfOk, OnOk, length};
ghost use Rattle.std.specs.List.{AllByRecursion, filter};
ghost use Rattle.crgc_ids.specs.Nodes.{has_node};
ghost use Rattle.history_model.specs.Graph.{rising_actors};
ghost use Rattle.shadow_graph.specs.Graph.{lost_in};
ghost use Rattle.kept_marks.specs.Kept.{IsEmpty};
ghost use Rattle.kept_marks.specs.PlaceSet.{has_place};
ghost use Rattle.pseudoroot_trace.specs.Traced.{TakesFallen, is_marked_in};
ghost use Rattle.shadow_graph.specs.Places.{ArePlaced, actor_of};
ghost use Rattle.shadow_graph.specs.Seen.{is_dropped};
ghost use Rattle.collector.specs.Sweeping.{AreStopsOf, IsStopOf, falls, is_unmarked, stopped_actors};
ghost use Rattle.collector.specs.Traced.{FindsAt, HaveFallen, TakesSome};

use crate::stopped::is_set;
use crgc_ids::{ActorId, NoMemory, NodeId};
use history_model::{Stop, StopList};
use pseudoroot_trace::TracedGraph;
use shadow_graph::ShadowGraph;
use std::alloc::Global;

/// The actors that a sweep by the node stops, rising: those at fallen places that are its own, were not stopped before, and are
/// known, not lost and not marked. All fallen places are taken out, or after `NoMemory` some. Time in proportion to n log n for n
/// fallen places.
pub fn find_stopped(
    alloc: Global,
    graph: &mut TracedGraph,
    node: NodeId,
    stopped: &[bool],
) -> Result<Vec<ActorId>, NoMemory>
    requires { HaveFallen graph.old node stopped.now }
    ensures found { IfOk result (λ v. v.items ≡ rising_actors
        (filter (falls graph.old.graph (is_marked_in graph.old) node stopped.now) graph.old.graph.shadows.names)) }
    ensures takes { TakesSome graph.old graph.new }
    ensures placed { ArePlaced graph.old.graph }
{
    let _places = graph.graph().place_count();
    let mut found = Vec::new(alloc);
    while find_next(graph, node, stopped, &mut found)? {}
    Ok(sorted(found))
}

/// A fallen place is taken out, and the actor there comes last, if the sweep stops it. False where no place has fallen.
fn find_next(
    graph: &mut TracedGraph,
    node: NodeId,
    stopped: &[bool],
    found: &mut Vec<ActorId>,
) -> Result<bool, NoMemory>
    ensures takes { TakesSome graph.old graph.new }
    ensures next { result ≡ Ok true → (p : ℕ) × TakesFallen graph.old graph.new p × (has_place graph.old.kept.fallen p ≡ true)
        × FindsAt graph.old node stopped.now p found.old.items found.new.items }
    ensures none { result ≡ Ok false → IsEmpty graph.old.kept.fallen }
    ensures same { result ≡ Ok false → (graph.new ≡ graph.old) × (found.new.items ≡ found.old.items) }
{
    let Some(place) = graph.pop_fallen() else {
        return Ok(false);
    };
    push_if_falls(graph, node, stopped, place, found)?;
    Ok(true)
}

/// The actor at the place, if there is one, comes last, if the sweep stops it.
fn push_if_falls(
    graph: &TracedGraph,
    node: NodeId,
    stopped: &[bool],
    place: u32,
    found: &mut Vec<ActorId>,
) -> Result<(), NoMemory>
    ensures { OnOk result (FindsAt graph.now node stopped.now place found.old.items found.new.items) }
{
    let shadows = graph.graph();
    let places = shadows.place_count();
    if place >= places {
        return Ok(());
    }
    let actor = actor_at(shadows, place);
    if !falls(shadows, graph.is_marked(actor), node, stopped, actor) {
        return Ok(());
    }
    match found.push(actor) {
        Ok(()) => Ok(()),
        Err(_) => Err(NoMemory),
    }
}

/// The actor at the place.
pub fn actor_at(graph: &ShadowGraph, place: u32) -> ActorId
    requires { place < length graph.now.shadows.names }
    ensures { result ≡ actor_of graph.now place }
{
    graph.actor_at(place).unwrap()
}

/// Whether a sweep that leaves the actor so marked stops it. Constant time.
pub fn falls(
    graph: &ShadowGraph,
    is_marked: bool,
    node: NodeId,
    stopped: &[bool],
    actor: ActorId,
) -> bool
    ensures { result ≡ falls graph.now (λ a. is_marked) node stopped.now actor }
{
    actor.node() == node && !is_set(stopped, actor.serial()) && is_unmarked(graph, is_marked, actor)
}

/// Whether the actor is known, not on a lost node, and not so marked. Constant time.
fn is_unmarked(graph: &ShadowGraph, is_marked: bool, actor: ActorId) -> bool
    ensures { result ≡ is_unmarked graph.now (λ a. is_marked) actor }
{
    graph.is_known(actor) && !is_lost(graph, actor) && !is_marked
}

/// Whether the actor's node is lost.
fn is_lost(graph: &ShadowGraph, actor: ActorId) -> bool
    ensures { result ≡ has_node (lost_in graph.now) actor.node }
{
    graph.lost().contains(actor.node())
}

/// The actors, rising, each once. It takes no memory. Time in proportion to n log n.
pub fn sorted(actors: Vec<ActorId>) -> Vec<ActorId>
    ensures { result.items ≡ rising_actors actors.items }
{
    let mut rising = actors;
    rising.sort_unstable();
    rising.dedup();
    rising
}

/// The stops of the actors, none of which was dropped, in order.
pub fn stops_of(
    alloc: Global,
    graph: &ShadowGraph,
    actors: &[ActorId],
) -> Result<StopList, NoMemory>
    requires { AllByRecursion (λ a. is_dropped graph.now a ≡ false) actors.now }
    ensures stops { IfOk result (AreStopsOf graph.now actors.now) }
    ensures actors { IfOk result (λ stops. stopped_actors stops ≡ actors.now) }
{
    let mut stops = StopList::new(alloc);
    for actor in actors {
        stops.push(stop_of(graph, *actor)?)?;
    }
    Ok(stops)
}

/// The stop of the actor, which was not dropped.
fn stop_of(graph: &ShadowGraph, actor: ActorId) -> Result<Stop, NoMemory>
    requires { is_dropped graph.now actor ≡ false }
    ensures stop { IfOk result (IsStopOf graph.now actor) }
    ensures actor { IfOk result (λ stop. stop.actor ≡ actor) }
{
    Ok(Stop {
        actor,
        received: graph.received(actor),
        told: graph.told(actor),
        admitted: graph.admitted(actor),
        owners: graph.owners(actor)?,
    })
}
