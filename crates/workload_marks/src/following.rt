//! The collectors of a node go with its history.
ghost use Rattle.std.specs.Prelude.{◌≡◌, ◌<◌, length, OnOk};
ghost use Rattle.history_model.specs.Streams.{stream};
ghost use Rattle.workload_marks.specs.Trio.{AreSettled};

use crate::collectors::{Collectors, Verdicts};
use crate::marking::tell_marks;
use crate::memory::made;
use crate::verdicts::is_same;
use bulletin_spelling::is_spellable;
use bulletin_streams::laws::bulletins_fit_the_wire;
use crgc_ids::{NoMemory, NodeId, Octets};
use history_model::Event;
use std::alloc::Global;
use std::io;
use std::thread::Threads;
use true_config::World;

/// After each hand to the node its graph's marks are told, and at the end what its sweeps came to: how many there were, at how many
/// the verdicts were equal, and how many actors were stopped.
pub fn tell_node<R: Print + Threads + Sync>(
    rt: &R,
    alloc: Global,
    world: &World,
    node: NodeId,
) -> io::Result<()> {
    let verdicts = verdicts_of(rt, alloc, world, node)?;
    let sweeps = verdicts.len();
    let equal = equal_count(alloc, world.nodes(), verdicts.as_slice())?;
    let stops = stop_count(verdicts.as_slice());
    let node = node.get();
    println!(rt; "node {node} sweeps {sweeps} equal {equal} stops {stops}")
}

/// What the collectors find at each sweep of the node.
fn verdicts_of<R: Print + Threads + Sync>(
    rt: &R,
    alloc: Global,
    world: &World,
    node: NodeId,
) -> io::Result<Vec<Verdicts>> {
    let mut collectors = Collectors::new(alloc, node, world.nodes())?;
    let mut found = Vec::new(alloc);
    follow_all(rt, alloc, world, &mut collectors, &mut found)?;
    Ok(found)
}

/// The events of the history happen; what the collectors find at the sweeps is put behind what was found.
fn follow_all<R: Print + Threads + Sync>(
    rt: &R,
    alloc: Global,
    world: &World,
    collectors: &mut Collectors,
    found: &mut Vec<Verdicts>,
) -> io::Result<()>
    requires { AreSettled collectors.old }
{
    let Some(history) = world.history() else {
        return Err(io::ErrorKind::InvalidData.into());
    };
    let events = made(history.to_vec(alloc))?;
    for (place, event) in events.as_slice().iter().enumerate() {
        follow(rt, alloc, world, collectors, place, event, found)?;
    }
    Ok(())
}

/// The event at this place happens, if it is a hand to the node or its sweep.
fn follow<R: Print + Threads + Sync>(
    rt: &R,
    alloc: Global,
    world: &World,
    collectors: &mut Collectors,
    place: usize,
    event: &Event,
    found: &mut Vec<Verdicts>,
) -> io::Result<()>
    requires { AreSettled collectors.old }
    ensures { OnOk result (AreSettled collectors.new) }
{
    let own = collectors.watched.node();
    match event {
        Event::Hand { to, origin, number } if *to == own => {
            hand_over(alloc, world, collectors, *origin, *number)?;
            tell_moment(rt, alloc, collectors, place)
        }
        Event::Sweep { node } if *node == own => sweep(rt, collectors, found),
        _ => Ok(()),
    }
}

/// The collectors take the origin's bulletin of this number.
fn hand_over(
    alloc: Global,
    world: &World,
    collectors: &mut Collectors,
    origin: NodeId,
    number: u32,
) -> io::Result<()>
    ensures { OnOk result (AreSettled collectors.new) }
{
    let bytes = bytes_of(alloc, world, origin, number)?;
    collectors.take(origin, number, bytes.as_slice())
}

/// The collectors sweep, and what they find is put behind what was found.
fn sweep<R: Threads + Sync>(
    rt: &R,
    collectors: &mut Collectors,
    found: &mut Vec<Verdicts>,
) -> io::Result<()>
    requires { AreSettled collectors.old }
    ensures { OnOk result (AreSettled collectors.new) }
{
    let verdicts = collectors.sweep(rt)?;
    found.push(verdicts)?;
    Ok(())
}

/// The marks of the first collector's graph, after the event at this place.
fn tell_moment<R: Print + Threads + Sync>(
    rt: &R,
    alloc: Global,
    collectors: &Collectors,
    place: usize,
) -> io::Result<()> {
    let after = place.saturating_add(1);
    let node = collectors.watched.node().get();
    print!(rt; "after {after} node {node} ")?;
    tell_marks(rt, alloc, collectors.watched.graph())
}

/// The bytes of the origin's bulletin with this number.
fn bytes_of(alloc: Global, world: &World, origin: NodeId, number: u32) -> io::Result<Octets> {
    if origin.get() >= world.nodes() || number >= world.stream_len(origin) {
        return Err(io::ErrorKind::InvalidInput.into());
    }
    made(spelling_of(alloc, world, origin, number))
}

/// The bytes of the origin's bulletin with this number, which is in the stream.
fn spelling_of(
    alloc: Global,
    world: &World,
    origin: NodeId,
    number: u32,
) -> Result<Octets, NoMemory>
    requires origin { origin < world.now.cluster.nodes }
    requires number { number < length (stream world.now.cluster origin world.now.past) }
{
    world.is_lawful();
    bulletins_fit_the_wire();
    let Some(bulletin) = world.bulletin(origin, number) else {
        unreachable!()
    };
    is_spellable(bulletin);
    graph_wire::write(alloc, bulletin)
}

/// At how many sweeps both verdicts are the same.
fn equal_count(alloc: Global, nodes: u8, found: &[Verdicts]) -> io::Result<usize> {
    let mut equal = 0usize;
    for verdicts in found {
        if is_same(alloc, nodes, &verdicts.plain, &verdicts.rounds)? {
            equal = equal.saturating_add(1);
        }
    }
    Ok(equal)
}

/// How many actors the sweeps by kept marks stop.
fn stop_count(found: &[Verdicts]) -> usize {
    let mut stops = 0usize;
    for verdicts in found {
        stops = stops.saturating_add(verdicts.plain.stops.len());
    }
    stops
}
