//! The collectors that came back, by node.
ghost use Rattle.std.specs.Prelude.{◌≡◌, ◌++◌, ◌∷◌, [], IfOk, IfSome, OnErr, OnOk};
ghost use Rattle.std.specs.List.{AllByRecursion};
ghost use Rattle.node_collectors.specs.Standing.{AreCollectorsAt};
ghost use Rattle.script_workers.specs.Returned.{AreRowsAt, StandsIfUp};

use collector::Collector;
use crgc_ids::{NoMemory, NodeId};
use node_collectors::NodeCollectors;
use std::alloc::Global;
use true_config::World;

/// The collectors of all nodes: those that came back, by node, and a new one for each node that is down and has none. None where a
/// node that is up has none.
pub(crate) fn by_node(
    alloc: Global,
    world: &World,
    back: Vec<Collector>,
) -> Result<Option<NodeCollectors>, NoMemory>
    requires { AllByRecursion (StandsIfUp world.now.cluster world.now.past) back.items }
    ensures { IfOk result (λ o. IfSome o (AreCollectorsAt world.now.cluster world.now.past)) }
{
    let mut back = back;
    let mut rows = Vec::new(alloc);
    while !back.is_empty() {
        let collector = back.remove(0);
        if !add_new(alloc, world, &mut rows, collector.node().get())? {
            return Ok(None);
        }
        if rows.len() != collector.node().get() as usize {
            return Ok(None);
        }
        collector.is_lawful();
        push(&mut rows, collector)?;
    }
    if !add_new(alloc, world, &mut rows, world.nodes())? {
        return Ok(None);
    }
    Ok(rows_of(world, rows))
}

/// New collectors come last, for the nodes up to this number; whether all these are nodes that are down. After any other answer
/// some may be there.
fn add_new(
    alloc: Global,
    world: &World,
    rows: &mut Vec<Collector>,
    below: u8,
) -> Result<bool, NoMemory>
    requires { AreRowsAt world.now.cluster world.now.past rows.old.items }
    ensures { AreRowsAt world.now.cluster world.now.past rows.new.items }
{
    let nodes = world.nodes();
    while rows.len() < below as usize {
        let node = match NodeId::new(rows.len() as u8) {
            Some(node) if node.get() < nodes && !world.is_up(node) => node,
            _ => return Ok(false),
        };
        let collector = Collector::new(alloc, node, nodes)?;
        push(rows, collector)?;
    }
    Ok(true)
}

/// The collector comes last.
fn push(rows: &mut Vec<Collector>, collector: Collector) -> Result<(), NoMemory>
    ensures ok { OnOk result (rows.new.items ≡ rows.old.items ++ collector ∷ []) }
    ensures err { OnErr result (rows.new.items ≡ rows.old.items) }
{
    if rows.reserve(1).is_err() {
        return Err(NoMemory);
    }
    rows.push_reserved(collector);
    Ok(())
}

/// The collectors, if there is one for each node.
fn rows_of(world: &World, rows: Vec<Collector>) -> Option<NodeCollectors>
    requires { AreRowsAt world.now.cluster world.now.past rows.items }
    ensures { IfSome result (AreCollectorsAt world.now.cluster world.now.past) }
{
    if rows.len() == world.nodes() as usize {
        return Some(NodeCollectors::of(rows));
    }
    None
}
