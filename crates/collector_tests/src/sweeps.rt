//! Sweeps over random bulletins, each beside a full mark of the same graph.
ghost use Rattle.std.specs.Prelude.{◌≡◌, IfOk};
ghost use Rattle.collector.specs.Collected.{IsSettled};

use collector::Collector;
use crgc_ids::NodeId;
use history_model::Verdict;
use pseudoroot_trace::{Marks, mark};
use shadow_graph::ShadowGraph;
use std::alloc::{AllocError, Global};
use std::test::Fail;

/// A count of eight actors and the actors: four of node 0 and four of node 1.
const TABLE: [u8; 42] = [
    0, 8, 0, 0, 0, 0, 0, 0, 0, 0, 0, 1, 0, 0, 0, 0, 2, 0, 0, 0, 0, 3, 1, 0, 0, 0, 0, 1, 0, 0, 0, 1,
    1, 0, 0, 0, 2, 1, 0, 0, 0, 3,
];

/// The Final of the link from 1 to 0, which admitted no message, but a reference of 1.0 to 0.0.
const FINAL: [u8; 33] = [
    67, 82, 71, 49, 3, 0, 1, 0, 2, 0, 0, 0, 0, 0, 1, 0, 0, 0, 0, 0, 0, 0, 0, 0, 1, 0, 1, 0, 0, 0,
    0, 0, 1,
];

/// Numbers that look random, always the same.
#[derive(Drop)]
struct Dice {
    state: u64,
}

impl Dice {
    /// Whether a die with so many sides shows its first.
    fn shows(&mut self, sides: u64) -> bool {
        self.state = (self.state % 2_147_483_648 * 1_103_515_245 + 12_345) % 2_147_483_648;
        self.state / 65_536 % sides.max(1) == 0
    }
}

/// A state of each actor of the table, which took no message.
fn put_states(out: &mut Vec<u8>, dice: &mut Dice) -> Result<(), AllocError> {
    out.extend_from_slice(&[0, 8])?;
    for number in 0..8u8 {
        let busy = if dice.shows(9) { 1 } else { 0 };
        let root = if dice.shows(9) { 2 } else { 0 };
        out.extend_from_slice(&[0, number, 0, 0, 0, 0, busy | root])?;
    }
    Ok(())
}

/// Messages to some actors.
fn put_counts(alloc: Global, out: &mut Vec<u8>, dice: &mut Dice) -> Result<(), AllocError> {
    let mut rows = Vec::new(alloc);
    let mut count = 0u8;
    for number in 0..8u8 {
        if dice.shows(40) {
            count = count.saturating_add(1);
            rows.extend_from_slice(&[0, number, 0, 0, 0, 1])?;
        }
    }
    out.extend_from_slice(&[0, count])?;
    out.extend_from_slice(rows.as_slice())
}

/// References of some actors to some actors.
fn put_pairs(
    alloc: Global,
    out: &mut Vec<u8>,
    dice: &mut Dice,
    sides: u64,
) -> Result<(), AllocError> {
    let mut rows = Vec::new(alloc);
    let mut count = 0u8;
    for pair in 0..64u8 {
        if dice.shows(sides) {
            count = count.saturating_add(1);
            rows.extend_from_slice(&[0, pair / 8, 0, pair % 8, 0, 0, 0, 1])?;
        }
    }
    out.extend_from_slice(&[0, 0, 0, count])?;
    out.extend_from_slice(rows.as_slice())
}

/// A Delta of the node, or the Final.
fn bulletin(
    alloc: Global,
    node: u8,
    is_final: bool,
    dice: &mut Dice,
) -> Result<Vec<u8>, AllocError> {
    let mut out = Vec::new(alloc);
    if is_final {
        out.extend_from_slice(&FINAL)?;
        return Ok(out);
    }
    out.extend_from_slice(&[67, 82, 71, 49, 1, node])?;
    out.extend_from_slice(&TABLE)?;
    put_states(&mut out, dice)?;
    put_counts(alloc, &mut out, dice)?;
    put_pairs(alloc, &mut out, dice, 12)?;
    put_pairs(alloc, &mut out, dice, 14)?;
    Ok(out)
}

/// Node 0.
fn first_node() -> Result<NodeId, Fail>
    ensures { IfOk result (λ n. n ≡ 0) }
{
    let Some(node) = NodeId::new(0) else {
        return Err(Fail::from("node 0"));
    };
    Ok(node)
}

/// The marks of the whole graph.
fn full_marks(alloc: Global, graph: &ShadowGraph) -> Result<Marks, Fail> {
    let mut marks = Marks::new(alloc);
    marks.reserve(graph)?;
    mark(graph, &mut marks);
    Ok(marks)
}

/// Whether the verdict stops nobody who is marked.
fn stops_unmarked(verdict: &Verdict, marks: &Marks) -> bool {
    for stop in verdict.stops.as_slice() {
        if marks.is_marked(stop.actor) {
            return false;
        }
    }
    true
}

/// Whether the actor at the place may stand in the graph after all who were stopped were dropped.
fn may_stand(graph: &ShadowGraph, marks: &Marks, place: u32) -> bool {
    let Some(actor) = graph.actor_at(place) else {
        return true;
    };
    actor.node().get() != 0 || !graph.is_known(actor) || marks.is_marked(actor)
}

/// Whether nobody of node 0 is left who is not marked.
fn none_is_left(graph: &ShadowGraph, marks: &Marks) -> bool {
    for place in 0..graph.place_count() {
        if !may_stand(graph, marks, place) {
            return false;
        }
    }
    true
}

/// Whether a sweep of the collector stops whom a full mark leaves, and how many it stops. Now and then they are dropped.
fn agrees(alloc: Global, collector: &mut Collector, drops: bool) -> Result<(bool, usize), Fail>
    requires { IsSettled collector.old }
{
    let marks = full_marks(alloc, collector.graph())?;
    let verdict = collector.sweep()?;
    let count = verdict.stops.as_slice().len();
    if !stops_unmarked(&verdict, &marks) {
        return Ok((false, count));
    }
    if !drops {
        return Ok((true, count));
    }
    collector.compact();
    Ok((none_is_left(collector.graph(), &marks), count))
}

/// The bytes are taken, and then a sweep is compared with a full mark.
fn take_and_compare(
    alloc: Global,
    collector: &mut Collector,
    origin: NodeId,
    number: u32,
    bytes: &[u8],
) -> Result<(bool, usize), Fail> {
    if origin.get() >= collector.nodes() || number >= 1_000_000 {
        return Err(Fail::from("no such bulletin"));
    }
    match collector.take(origin, number, bytes) {
        Ok(_) => agrees(alloc, collector, number % 3 == 0),
        Err(_) => Err(Fail::from("a bulletin refused")),
    }
}

/// One round: a bulletin of one of two nodes in turn.
fn round(
    alloc: Global,
    collector: &mut Collector,
    dice: &mut Dice,
    round: u32,
) -> Result<(bool, usize), Fail> {
    let node = if round % 2 == 0 { 0 } else { 1 };
    let bytes = bulletin(alloc, node, round == 16, dice)?;
    let origin = NodeId::new(node).ok_or("a node of 16 or above")?;
    take_and_compare(alloc, collector, origin, round / 2, bytes.as_slice())
}

/// Bulletins of two nodes in turn, among them a Final: whether all sweeps agree with a full mark, and how many actors they stop.
fn play(alloc: Global, seed: u64) -> Result<(bool, usize), Fail> {
    let mut dice = Dice { state: seed };
    let mut collector = Collector::new(alloc, first_node()?, 2)?;
    let mut stopped = 0usize;
    for number in 0..24 {
        let (agrees, count) = round(alloc, &mut collector, &mut dice, number)?;
        stopped = stopped.saturating_add(count);
        if !agrees {
            return Ok((false, stopped));
        }
    }
    Ok((true, stopped))
}

#[test]
fn sweeps_stop_whom_a_full_mark_leaves(rt: HostRuntime) -> Result<(), Fail> {
    let mut stopped = 0usize;
    for seed in 0..200 {
        let (agrees, count) = play(rt.alloc(), seed * 7919)?;
        assert_eq!(rt; agrees, true);
        stopped = stopped.saturating_add(count);
    }
    assert_eq!(rt; stopped > 200, true);
    Ok(())
}
