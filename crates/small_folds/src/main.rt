//! A table of small folds. Dice make the bulletins of a cluster of two or three nodes, two a node, with rows on four actors, and hand
//! them to a collector: in any order, some twice, some never. Twice in each fold it is told what readers show of the shadow
//! graph, whether it is the same as one to which the folded bulletins came in order, and whom a sweep stops. In every other four
//! folds the actors that the first sweep stops are dropped before the rest is handed.
#![tactic(auto)]

ghost use Rattle.std.specs.Prelude.{◌≡◌, IfSome, OnOk};
ghost use Rattle.collector.specs.Collected.{IsSettled};

mod bulletins;
mod bytes;
mod dice;
mod telling;

use bulletins::make_sheet;
use bytes::bytes_of;
use collector::{Collector, Taken};
use crgc_ids::{Cut, NodeId};
use dice::Dice;
use std::alloc::Global;
use std::io;
use telling::{tell_graph, tell_sheet, tell_verdict};

const FOLDS: u64 = 200;

fn main(rt: HostRuntime) -> io::Result<()> {
    for number in 0..FOLDS {
        play(&rt, rt.alloc(), number)?;
    }
    Ok(())
}

/// The fold with this number.
fn play(rt: &impl Print, alloc: Global, number: u64) -> io::Result<()> {
    let mut dice = Dice::of(number.wrapping_mul(7_919).wrapping_add(17));
    let nodes = if number % 2 == 0 { 2 } else { 3 };
    let own = if number / 2 % 2 == 0 { 0 } else { 1 };
    let bulletins = make_all(rt, alloc, number, own, nodes, &mut dice)?;
    let Some(mut collector) = collector_of(alloc, own, nodes) else {
        return rt.println("no memory");
    };
    hand_and_tell(rt, alloc, &mut collector, bulletins.as_slice(), &mut dice)?;
    if number / 4 % 2 == 0 {
        collector.compact();
    }
    hand_and_tell(rt, alloc, &mut collector, bulletins.as_slice(), &mut dice)
}

/// The bytes of all bulletins, which are told: the two of node 0, the two of node 1, and so on.
fn make_all(
    rt: &impl Print,
    alloc: Global,
    number: u64,
    own: u8,
    nodes: u8,
    dice: &mut Dice,
) -> io::Result<Vec<Vec<u8>>> {
    println!(rt; "fold {number} by node {own} of {nodes}")?;
    let victim = if dice.shows(3) {
        0
    } else {
        nodes.saturating_sub(1)
    };
    let mut all = Vec::new(alloc);
    for node in 0..nodes {
        for place in 0..2u8 {
            let sheet = make_sheet(alloc, nodes, victim, node, place, dice)?;
            tell_sheet(rt, nodes, place, &sheet)?;
            all.push(bytes_of(alloc, nodes, &sheet)?)?;
        }
    }
    Ok(all)
}

/// A new collector of the node; None where there is no memory.
fn collector_of(alloc: Global, node: u8, nodes: u8) -> Option<Collector> {
    let node = NodeId::new(node)?;
    if node.get() >= nodes || nodes > 16 {
        return None;
    }
    Collector::new(alloc, node, nodes).ok()
}

/// Some bulletins are handed, and it is told what came of it.
fn hand_and_tell(
    rt: &impl Print,
    alloc: Global,
    collector: &mut Collector,
    bulletins: &[Vec<u8>],
    dice: &mut Dice,
) -> io::Result<()> {
    for _ in 1..bulletins.len() {
        hand(rt, collector, bulletins, dice)?;
    }
    hand(rt, collector, bulletins, dice)?;
    let nodes = collector.nodes();
    tell_graph(rt, alloc, nodes, collector.graph())?;
    tell_sameness(rt, alloc, collector, bulletins)?;
    match collector.sweep() {
        Ok(verdict) => tell_verdict(rt, alloc, collector, &verdict),
        Err(_) => rt.println("no memory"),
    }
}

/// One bulletin is handed, and the answer is told.
fn hand(
    rt: &impl Print,
    collector: &mut Collector,
    bulletins: &[Vec<u8>],
    dice: &mut Dice,
) -> io::Result<()>
    ensures { OnOk result (IsSettled collector.new) }
{
    let origin = pick(collector.nodes(), dice);
    let number = if dice.shows(2) { 1 } else { 0 };
    print!(rt; "hand {origin} {number} ")?;
    match take(collector, bulletins, origin, number) {
        Some(Taken::Folded(count)) => println!(rt; "folded {count}"),
        Some(Taken::Waiting) => rt.println("waiting"),
        Some(Taken::Old) => rt.println("old"),
        None => Err(io::ErrorKind::InvalidData.into()),
    }
}

/// A node, by dice.
fn pick(nodes: u8, dice: &mut Dice) -> u8 {
    let mut origin = 0;
    for node in 1..nodes {
        if dice.shows(u64::from(node) + 1) {
            origin = node;
        }
    }
    origin
}

/// The bulletin of the origin with this number is taken; None where there is none, or it is refused.
fn take(collector: &mut Collector, bulletins: &[Vec<u8>], origin: u8, number: u8) -> Option<Taken>
    ensures { IfSome result (λ _. IsSettled collector.new) }
{
    let bytes = bulletins.get(usize::from(origin) * 2 + usize::from(number))?;
    let origin = NodeId::new(origin)?;
    if origin.get() >= collector.nodes() {
        return None;
    }
    collector
        .take(origin, u32::from(number), bytes.as_slice())
        .ok()
}

/// Whether the graph is the same to readers as that of a collector that took what is folded in another order, and dropped nobody.
fn tell_sameness(
    rt: &impl Print,
    alloc: Global,
    collector: &Collector,
    bulletins: &[Vec<u8>],
) -> io::Result<()> {
    let nodes = collector.nodes();
    let Some(mut other) = collector_of(alloc, collector.node().get(), nodes) else {
        return rt.println("no memory");
    };
    for place in 0..nodes {
        take_first(&mut other, collector.cut(), bulletins, nodes - 1 - place);
    }
    rt.println(if collector.graph().same_as(other.graph()) {
        "same"
    } else {
        "other"
    })
}

/// The first bulletins of the node are taken, as many as the cut says.
fn take_first(collector: &mut Collector, cut: Cut, bulletins: &[Vec<u8>], node: u8) {
    let Some(origin) = NodeId::new(node) else {
        return;
    };
    for number in 0..2u8 {
        if u32::from(number) < cut.at(origin) {
            let _ = take(collector, bulletins, node, number);
        }
    }
}
