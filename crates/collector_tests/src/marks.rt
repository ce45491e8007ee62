//! Marks over graphs of a few actors.
ghost use Rattle.std.specs.Prelude.{◌≡◌, ◌<◌, IfOk};
ghost use Rattle.history_model.specs.Tells.{origin_of};
ghost use Rattle.shadow_graph.specs.Taken.{IsLinked};

use crgc_ids::{ActorCounts, ActorId, NodeId, PairCount, PairCounts};
use history_model::{Bulletin, Delta, StateRow, StateRows, Window};
use pseudoroot_trace::{Marks, mark, mark_rounds};
use shadow_graph::ShadowGraph;
use std::alloc::Global;
use std::test::Fail;
use std::thread::Threads;

fn node(number: u8) -> Result<NodeId, Fail>
    ensures { IfOk result (λ n. n ≡ number) }
{
    let Some(node) = NodeId::new(number) else {
        return Err(Fail::from("a node of 16 or above"));
    };
    Ok(node)
}

fn actor(node: NodeId, serial: u32) -> Result<ActorId, Fail> {
    Ok(ActorId::new(node, serial).ok_or("a serial too large")?)
}

/// The references of the owner to the target, or none.
fn one_pair(
    alloc: Global,
    owner: ActorId,
    target: ActorId,
    count: u32,
) -> Result<PairCounts, Fail> {
    let mut pairs = PairCounts::new(alloc);
    if count > 0 {
        pairs.push(PairCount {
            owner,
            target,
            count,
        })?;
    }
    Ok(pairs)
}

/// The graph of two nodes where this is folded.
fn folded(alloc: Global, origin: NodeId, b: &Bulletin) -> Result<ShadowGraph, Fail>
    requires of_origin { origin_of b.now ≡ origin }
    requires in_range { origin < 2 }
    requires linked { IsLinked 2 b.now }
{
    let mut graph = ShadowGraph::new(alloc, 2);
    graph.fold(origin, b)?;
    Ok(graph)
}

/// Which of two actors are marked.
fn marked(
    alloc: Global,
    graph: &ShadowGraph,
    first: ActorId,
    second: ActorId,
) -> Result<(bool, bool), Fail> {
    let mut marks = Marks::new(alloc);
    marks.reserve(graph)?;
    mark(graph, &mut marks);
    Ok((marks.is_marked(first), marks.is_marked(second)))
}

/// The graph where the second actor of node 0 is idle, and the first, of which no entry tells, holds so many references to it.
fn graph_with(
    alloc: Global,
    first: ActorId,
    second: ActorId,
    count: u32,
) -> Result<ShadowGraph, Fail> {
    let node = node(0)?;
    let mut states = StateRows::new(alloc);
    states.push(StateRow {
        actor: second,
        received: 0,
        busy: false,
        root: false,
    })?;
    let created = one_pair(alloc, first, second, count)?;
    let delta = Delta {
        node,
        states,
        sent: ActorCounts::new(alloc),
        created,
        released: PairCounts::new(alloc),
    };
    folded(alloc, node, &Bulletin::Delta(delta))
}

/// Which of the two are marked.
fn marked_with(alloc: Global, count: u32) -> Result<(bool, bool), Fail> {
    let node = node(0)?;
    let (first, second) = (actor(node, 0)?, actor(node, 1)?);
    let graph = graph_with(alloc, first, second, count)?;
    marked(alloc, &graph, first, second)
}

/// How many actors are known, and how many own references to the actor.
fn counts(graph: &ShadowGraph, actor: ActorId) -> Result<(usize, usize), Fail> {
    let owners = graph.owners(actor)?;
    Ok((graph.known_count(), owners.len()))
}

#[test]
fn nobody_owns_an_actor_that_was_dropped(rt: HostRuntime) -> Result<(), Fail> {
    let node = node(0)?;
    let (first, second) = (actor(node, 0)?, actor(node, 1)?);
    let mut graph = graph_with(rt.alloc(), first, second, 1)?;
    assert_eq!(rt; counts(&graph, second)?, (2, 1));
    if graph.place_of(second).is_some() {
        graph.drop_actor(second);
    }
    assert_eq!(rt; counts(&graph, second)?, (1, 0));
    Ok(())
}

#[test]
fn who_is_held_by_a_pseudoroot_is_marked(rt: HostRuntime) -> Result<(), Fail> {
    assert_eq!(rt; marked_with(rt.alloc(), 1)?, (true, true));
    assert_eq!(rt; marked_with(rt.alloc(), 0)?, (false, false));
    Ok(())
}

#[test]
fn actors_of_lost_nodes_are_not_marked(rt: HostRuntime) -> Result<(), Fail> {
    let alloc = rt.alloc();
    let (at, from) = (node(0)?, node(1)?);
    let (owner, target) = (actor(from, 0)?, actor(at, 0)?);
    let carried = one_pair(alloc, owner, target, 1)?;
    let messages = ActorCounts::new(alloc);
    let window = Window {
        at,
        from,
        messages,
        carried,
    };
    let graph = folded(alloc, at, &Bulletin::Final(window))?;
    assert_eq!(rt; marked(alloc, &graph, owner, target)?, (false, true));
    Ok(())
}

/// Whether rounds over so many parts mark each of the actors if a plain mark does.
fn rounds_agree<R: Threads + Sync>(
    rt: &R,
    alloc: Global,
    graph: &ShadowGraph,
    parts: u32,
) -> Result<bool, Fail> {
    let (mut plain, mut rounds) = (Marks::new(alloc), Marks::new(alloc));
    plain.reserve(graph)?;
    rounds.reserve(graph)?;
    mark(graph, &mut plain);
    if parts < 1 || parts > 32 {
        return Err(Fail::from("no such number of parts"));
    }
    mark_rounds(rt, graph, &mut rounds, parts);
    for place in 0..graph.place_count() {
        let actor = graph.actor_at(place).ok_or("no actor")?;
        if plain.is_marked(actor) != rounds.is_marked(actor) {
            return Ok(false);
        }
    }
    Ok(true)
}

/// Whether rounds over 1, 2 and 7 parts mark what a plain mark does.
fn all_agree<R: Threads + Sync>(rt: &R, alloc: Global, graph: &ShadowGraph) -> Result<bool, Fail> {
    let one = rounds_agree(rt, alloc, graph, 1)?;
    let two = rounds_agree(rt, alloc, graph, 2)?;
    let seven = rounds_agree(rt, alloc, graph, 7)?;
    Ok(one && two && seven)
}

#[test]
fn rounds_mark_what_a_plain_mark_marks(rt: HostRuntime) -> Result<(), Fail> {
    let node = node(0)?;
    let (first, second) = (actor(node, 0)?, actor(node, 1)?);
    let held = graph_with(rt.alloc(), first, second, 1)?;
    let free = graph_with(rt.alloc(), first, second, 0)?;
    assert_eq!(rt; all_agree(&rt, rt.alloc(), &held)?, true);
    assert_eq!(rt; all_agree(&rt, rt.alloc(), &free)?, true);
    Ok(())
}
