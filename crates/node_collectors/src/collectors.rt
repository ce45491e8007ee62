//! The collectors.
ghost use Rattle.std.specs.Prelude.{◌≡◌, ◌∷◌, ◌<◌, ◌≤◌, [], List, Some, drop, length, slice_get, true, IfOk, OnErr, OnOk};
ghost use Rattle.history_model.specs.declared.events.Event.{Event};
ghost use Rattle.history_model.specs.declared.events.Event.TheVariants as events;
ghost use Rattle.history_model.specs.Cluster.{Cluster};
ghost use Rattle.history_model.specs.State.{is_up};
ghost use Rattle.history_model.specs.Sweeps.{IsVerdict};
ghost use Rattle.true_config.specs.Promises.{IsFoundBySweep};
ghost use Rattle.true_config.specs.Readings.{IsSpelledAt};
ghost use Rattle.collector.specs.declared.read.TakeFault.TheVariants as faults;
ghost use Rattle.collector.specs.Collected.{IsSettled};
ghost use Rattle.node_collectors.specs.Standing.{AreCollectorsAt, SweepsOut};
ghost use Rattle.node_collectors.specs.Wanted.{IsFirstUnhanded};

use collector::{Collector, TakeFault};
use crgc_ids::{NoMemory, NodeId};
use history_model::Verdict;
use std::alloc::Global;
use std::marker::Model;
use true_config::World;

/// The collectors of a cluster's nodes, one each. Contracts see the list of the collectors, by node.
#[derive(Drop)]
pub struct NodeCollectors {
    rows: Vec<Collector>,
}

impl Model for NodeCollectors {
    ghost use Rattle.std.specs.Prelude.{List};
    ghost use Rattle.collector.specs.Collected.{Collected};

    ghost Value = { List Collected };

    ghost view = { λ cs. cs.rows.items };
}

impl NodeCollectors {
    /// The collectors of so many nodes, which were given nothing and stopped nobody. Linear time in the number of nodes.
    pub fn new(alloc: Global, nodes: u8) -> Result<NodeCollectors, NoMemory>
        requires { nodes ≤ 16 }
        ensures { IfOk result (λ cs. (cl : Cluster) → cl.nodes ≡ nodes → AreCollectorsAt cl [] cs) }
    {
        let mut rows = Vec::new(alloc);
        for number in 0..nodes {
            let node = NodeId::new(number).unwrap();
            let collector = Collector::new(alloc, node, nodes)?;
            let Ok(()) = rows.push(collector) else {
                return Err(NoMemory);
            };
        }
        Ok(NodeCollectors::of(rows))
    }

    /// The collectors of a cluster's nodes, given in the order of the nodes. Constant time.
    pub fn of(rows: Vec<Collector>) -> NodeCollectors
        ensures { result ≡ rows.items }
    {
        NodeCollectors { rows }
    }

    /// A bulletin goes to the collector of a node, as the world's last event says, a hand to that node: where the collectors
    /// stood at the history before it, they stand at the history with it. After `NoMemory` they may stand at neither. Logarithmic
    /// time in the number of bulletins that wait there, where the bulletin was handed to the node before; else time in proportion
    /// to n log n for n rows of the bulletin, and to what is folded.
    pub fn hand(
        &mut self,
        world: &World,
        to: NodeId,
        origin: NodeId,
        number: u32,
    ) -> Result<(), NoMemory>
        requires last { slice_get world.now.past 0 ≡ Some (events.Hand to origin number) }
        requires stand { AreCollectorsAt world.now.cluster (drop 1 world.now.past) self.old }
        ensures { OnOk result (AreCollectorsAt world.now.cluster world.now.past self.new) }
    {
        world.is_lawful();
        let place = to.get() as usize;
        if self.rows[place].has_taken(origin, number) {
            return Ok(());
        }
        match world.spelling(origin, number) {
            Some(bytes) => self.take(world, to, origin, number, bytes.as_slice()),
            None => {
                let bytes = world.spell(origin, number)?;
                self.take(world, to, origin, number, bytes.as_slice())
            }
        }
    }

    /// The bulletin, which is spelled so, goes to the collector of a node, as `hand` says.
    fn take(
        &mut self,
        world: &World,
        to: NodeId,
        origin: NodeId,
        number: u32,
        bytes: &[u8],
    ) -> Result<(), NoMemory>
        requires last { slice_get world.now.past 0 ≡ Some (events.Hand to origin number) }
        requires stand { AreCollectorsAt world.now.cluster (drop 1 world.now.past) self.old }
        requires spelled { IsSpelledAt world.now.cluster world.now.past origin number bytes.now }
        ensures { OnOk result (AreCollectorsAt world.now.cluster world.now.past self.new) }
    {
        world.is_lawful();
        let place = to.get() as usize;
        match self.rows[place].take(origin, number, bytes) {
            Ok(_) => Ok(()),
            Err(fault) => Err(want_of(fault)),
        }
    }

    /// Whether another node's collector has not taken the bulletin yet. It tells what is worth keeping, so nothing is promised of
    /// it. For each node the time of a look-up among the bulletins that wait there.
    pub fn others_want(&self, to: NodeId, origin: NodeId, number: u32) -> bool {
        let own = to.get() as usize;
        for (place, row) in self.rows.iter().enumerate() {
            if place != own && !row.has_taken(origin, number) {
                return true;
            }
        }
        false
    }

    /// The verdict of a sweep by the node, which is up, in the world's history. Afterwards the collectors stand at the history
    /// with that sweep, and the collector has dropped whom it stopped. After `NoMemory` all is as before. Linear time in the
    /// collector's graph, and in proportion to n log n for n stops and their owners.
    pub fn sweep(&mut self, world: &World, node: NodeId) -> Result<Verdict, NoMemory>
        requires node { node < world.now.cluster.nodes }
        requires up { is_up node world.now.past ≡ true }
        requires stand { AreCollectorsAt world.now.cluster world.now.past self.old }
        ensures verdict { IfOk result (IsVerdict world.now.cluster node world.now.past) }
        ensures found { IfOk result (IsFoundBySweep world.now) }
        ensures ok { OnOk result (AreCollectorsAt world.now.cluster (events.Sweep node ∷ world.now.past) self.new) }
        ensures err { OnErr result (self.new ≡ self.old) }
    {
        world.is_lawful();
        sweep_out(&mut self.rows[node.get() as usize])
    }

    /// The first number, from 0 on, under which no bulletin of the origin was handed to the node, in each history at which the
    /// collectors stand and the node is up. Logarithmic time in the number of bulletins that wait there, for each that waits and
    /// may be folded next.
    pub fn wants(&self, to: NodeId, origin: NodeId) -> u32
        requires { to < length self.now }
        ensures { (cl : Cluster) (h : List Event) → AreCollectorsAt cl h self.now → origin < cl.nodes
            → is_up to h ≡ true → IsFirstUnhanded to origin h result }
    {
        self.rows[to.get() as usize].wants(origin)
    }
}

/// The collector sweeps, and drops whom it stopped.
fn sweep_out(collector: &mut Collector) -> Result<Verdict, NoMemory>
    requires { IsSettled collector.old }
    ensures ok { IfOk result (SweepsOut collector.old collector.new) }
    ensures err { OnErr result (collector.new ≡ collector.old) }
{
    let verdict = collector.sweep()?;
    collector.compact();
    Ok(verdict)
}

/// The one fault for which a collector refuses what a node told.
fn want_of(fault: TakeFault) -> NoMemory
    requires { fault ≡ faults.NoMemory }
{
    match fault {
        TakeFault::NoMemory => NoMemory,
        _ => unreachable!(),
    }
}
