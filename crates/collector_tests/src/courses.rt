//! A worked history, through the world and its collectors, with ample memory.
ghost use Rattle.std.specs.Prelude.{◌≡◌, false, OnOk};
ghost use Rattle.true_config.specs.Applying.{CarriesFew};
ghost use Rattle.node_collectors.specs.Standing.{AreCollectorsAt, is_of_collector};

use crgc_ids::{ActorId, NodeId};
use history_model::{Event, Verdict};
use node_collectors::NodeCollectors;
use node_collectors::laws::collectors_follow_events;
use std::alloc::Global;
use std::process::Abort;
use std::test::Fail;
use true_config::{Applied, World};

/// An event that is neither a hand nor a sweep happens, and the collectors go with it.
fn follow(world: &mut World, collectors: &NodeCollectors, event: &Event) -> Result<(), Fail>
    requires other { is_of_collector event.now ≡ false }
    requires few { CarriesFew event.now }
    requires stand { AreCollectorsAt world.old.cluster world.old.past collectors.now }
    ensures { OnOk result (AreCollectorsAt world.new.cluster world.new.past collectors.now) }
{
    let Applied::Done(_) = world.apply(event)? else {
        return Err(Fail::new("hindered"));
    };
    collectors_follow_events();
    Ok(())
}

/// The first bulletin of a node comes to the node itself.
fn hand(world: &mut World, collectors: &mut NodeCollectors, node: NodeId) -> Result<(), Fail>
    requires { AreCollectorsAt world.old.cluster world.old.past collectors.old }
    ensures { OnOk result (AreCollectorsAt world.new.cluster world.new.past collectors.new) }
{
    let event = Event::Hand {
        to: node,
        origin: node,
        number: 0,
    };
    let Applied::Done(_) = world.apply(&event)? else {
        return Err(Fail::new("hindered"));
    };
    collectors.hand(world, node, node, 0)?;
    Ok(())
}

/// The node sweeps, if it is up.
fn sweep(world: &mut World, collectors: &mut NodeCollectors, node: NodeId) -> Result<Verdict, Fail>
    requires { AreCollectorsAt world.old.cluster world.old.past collectors.old }
    ensures { OnOk result (AreCollectorsAt world.new.cluster world.new.past collectors.new) }
{
    if node.get() >= world.nodes() || !world.is_up(node) {
        return Err(Fail::new("no node that is up"));
    }
    let verdict = collectors.sweep(world, node)?;
    let Applied::Done(_) = world.sweep(&verdict)? else {
        return Err(Fail::new("hindered"));
    };
    Ok(verdict)
}

/// A parent of the node gives up the one reference to its child, and both tell it.
fn let_go(
    world: &mut World,
    collectors: &NodeCollectors,
    parent: ActorId,
    child: ActorId,
) -> Result<(), Fail>
    requires { AreCollectorsAt world.old.cluster world.old.past collectors.now }
    ensures { OnOk result (AreCollectorsAt world.new.cluster world.new.past collectors.now) }
{
    let node = parent.node();
    follow(world, collectors, &Event::Seed { node })?;
    follow(world, collectors, &Event::Wake { actor: parent })?;
    follow(world, collectors, &Event::Spawn { parent })?;
    let drop = Event::Drop {
        actor: parent,
        target: child,
    };
    follow(world, collectors, &drop)?;
    follow(world, collectors, &Event::Rest { actor: parent })?;
    follow(world, collectors, &Event::Flush { actor: parent })?;
    follow(world, collectors, &Event::Flush { actor: child })?;
    follow(world, collectors, &Event::Publish { node })
}

/// The verdict that stops the child, once the bulletin of its node is handed to the node.
fn verdict_of(alloc: Global, parent: ActorId, child: ActorId) -> Result<Verdict, Fail> {
    let mut world = World::new(alloc, 2, 1)?;
    let mut collectors = NodeCollectors::new(alloc, 2)?;
    let_go(&mut world, &collectors, parent, child)?;
    hand(&mut world, &mut collectors, parent.node())?;
    sweep(&mut world, &mut collectors, parent.node())
}

#[test]
fn a_child_without_a_reference_is_stopped(rt: HostRuntime) -> Result<(), Fail> {
    let node = NodeId::new(1).ok_or("node 1")?;
    let parent = ActorId::new(node, 0).ok_or("1.0")?;
    let child = ActorId::new(node, 1).ok_or("1.1")?;
    let verdict = verdict_of(rt.alloc(), parent, child)?;
    assert_eq!(rt; (verdict.cut.at(node), verdict.stops.len()), (1, 1));
    let stop = verdict.stops.get(0).ok_or("no stop")?;
    assert!(rt; stop.actor == child && stop.owners.as_slice() == [child].as_slice());
    Ok(())
}
