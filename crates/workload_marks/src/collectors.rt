//! Three collectors of one node.
ghost use Rattle.std.specs.Prelude.{◌≡◌, IfOk, OnOk};
ghost use Rattle.collector.specs.Collected.{IsNew, IsSettled};
ghost use Rattle.collector.specs.Taking.{IsTaken, Takes};
ghost use Rattle.workload_marks.specs.Trio.{AreNew, AreSettled, SweepBoth, TakeIn};

use crate::memory::made;
use collector::Collector;
use crgc_ids::{MOST_EVENTS, NodeId};
use history_model::Verdict;
use std::alloc::Global;
use std::io;
use std::thread::Threads;

/// Over how many parts the last collector marks.
const PARTS: u32 = 4;

/// Collectors of one node, which are given the same bulletins and drop nobody.
#[derive(Drop)]
pub struct Collectors {
    /// It never sweeps.
    pub watched: Collector,
    /// It sweeps by marks that it keeps.
    pub plain: Collector,
    /// It sweeps by marks in rounds.
    pub rounds: Collector,
}

/// What the last two find at a sweep.
#[derive(Drop)]
pub struct Verdicts {
    pub plain: Verdict,
    pub rounds: Verdict,
}

impl Collectors {
    /// The collectors of the node of a cluster of so many, which were given nothing.
    pub fn new(alloc: Global, node: NodeId, nodes: u8) -> io::Result<Collectors>
        ensures { IfOk result (AreNew node nodes) }
    {
        Ok(Collectors {
            watched: collector_of(alloc, node, nodes)?,
            plain: collector_of(alloc, node, nodes)?,
            rounds: collector_of(alloc, node, nodes)?,
        })
    }

    /// All take the bytes of the origin's bulletin of this number.
    pub fn take(&mut self, origin: NodeId, number: u32, bytes: &[u8]) -> io::Result<()>
        ensures { OnOk result (TakeIn origin number bytes.now self.old self.new) }
    {
        take(&mut self.watched, origin, number, bytes)?;
        take(&mut self.plain, origin, number, bytes)?;
        take(&mut self.rounds, origin, number, bytes)
    }

    /// The last two sweep.
    pub fn sweep<R: Threads + Sync>(&mut self, rt: &R) -> io::Result<Verdicts>
        requires { AreSettled self.old }
        ensures { IfOk result (SweepBoth self.old self.new) }
    {
        let plain = made(self.plain.sweep())?;
        let rounds = made(self.rounds.sweep_rounds(rt, PARTS))?;
        Ok(Verdicts { plain, rounds })
    }
}

/// A collector that was given nothing.
fn collector_of(alloc: Global, node: NodeId, nodes: u8) -> io::Result<Collector>
    ensures { IfOk result (IsNew node nodes) }
{
    if node.get() >= nodes || nodes > 16 {
        return Err(io::ErrorKind::InvalidInput.into());
    }
    made(Collector::new(alloc, node, nodes))
}

/// The collector takes the bytes of the origin's bulletin of this number.
fn take(collector: &mut Collector, origin: NodeId, number: u32, bytes: &[u8]) -> io::Result<()>
    ensures takes { OnOk result (Takes origin number bytes.now collector.old collector.new) }
    ensures taken { OnOk result (IsTaken origin number collector.new) }
{
    if origin.get() >= collector.nodes() || number >= MOST_EVENTS {
        return Err(io::ErrorKind::InvalidInput.into());
    }
    match collector.take(origin, number, bytes) {
        Ok(_) => Ok(()),
        Err(_) => Err(io::ErrorKind::InvalidData.into()),
    }
}
