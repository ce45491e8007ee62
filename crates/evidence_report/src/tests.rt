//! Reports of worked histories, with the verdicts that their sweeps find.
ghost use Rattle.std.specs.Prelude.{◌≡◌, ◌≤◌, ◌<◌, [], ◌∷◌, replicate, reverse, IfOk};
ghost use Rattle.history_model.specs.declared.events.Event.TheVariants.{Crash as Crashes, Hand as Hands, Remove as Removes, Sweep as Sweeps};
ghost use Rattle.history_model.specs.Rows.{actor as numbered, cluster, dropped_child as child_dropped, two_nodes_crashed, two_nodes_lost_together};
ghost use Rattle.history_model.specs.Sweeps.{IsVerdict};

use crate::full_report;
use crgc_ids::{ActorId, ActorList, Cut, NodeId, NodeSet};
use history_model::{Event, History, Stop, StopList, Verdict};
use std::alloc::Global;
use std::test::Fail;

const DROPPED_CHILD: &str =
    "crgc 1 nodes 1\nseed 0\nwake 0.0\nspawn 0.0\ndrop 0.0 0.1\nrest 0.0\nflush 0.0\n\
     flush 0.1\npublish 0\nhand 0 0 0\nsweep 0\ncut 0 1 lost\n\
     stop 0.1 by 0 received 0 told 0 admitted 0 owners 0.1\nend events 10 stopped 1\n";

const TWO_NODES_LOST: &str =
    "crgc 1 nodes 4\nseed 0\ncrash 2\ncrash 3\nremove 0 2\nremove 0 3\nremove 1 2\n\
     remove 1 3\nhand 0 0 0\nhand 0 0 1\nhand 0 1 0\nsweep 0\ncut 0 2 1 0 0 lost\n\
     hand 0 1 1\nsweep 0\ncut 0 2 2 0 0 lost 2 3\nend events 13 stopped 0\n";

fn numbered_node(number: u8) -> Result<NodeId, Fail>
    ensures { IfOk result (λ n. n ≡ number) }
{
    Ok(NodeId::new(number).ok_or("a node")?)
}

fn numbered_actor(node: NodeId, serial: u32) -> Result<ActorId, Fail>
    ensures { IfOk result (λ a. a ≡ numbered node serial) }
{
    Ok(ActorId::new(node, serial).ok_or("an actor")?)
}

/// The history of the events, given in their order.
fn history_of(alloc: Global, nodes: u8, events: Vec<Event>) -> Result<History, Fail>
    requires some { 1 ≤ nodes }
    requires nodes { nodes ≤ 16 }
    ensures cluster { IfOk result (λ h. h.cluster ≡ cluster nodes 1) }
    ensures past { IfOk result (λ h. h.past ≡ reverse events.items) }
{
    let mut history = History::new(alloc, nodes, 1);
    for event in events {
        history.push(event)?;
    }
    Ok(history)
}

/// A parent drops its only child, and a sweep stops the child.
fn dropped_child(alloc: Global) -> Result<History, Fail>
    ensures cluster { IfOk result (λ h. h.cluster ≡ cluster 1 1) }
    ensures past { IfOk result (λ h. h.past ≡ Sweeps 0 ∷ child_dropped) }
{
    let node = numbered_node(0)?;
    let parent = numbered_actor(node, 0)?;
    let child = numbered_actor(node, 1)?;
    let events = vec![in alloc;
        Event::Seed { node },
        Event::Wake { actor: parent },
        Event::Spawn { parent },
        Event::Drop {
            actor: parent,
            target: child
        },
        Event::Rest { actor: parent },
        Event::Flush { actor: parent },
        Event::Flush { actor: child },
        Event::Publish { node },
        Event::Hand {
            to: node,
            origin: node,
            number: 0
        },
        Event::Sweep { node },
    ]?;
    history_of(alloc, 1, events)
}

/// What that sweep finds.
fn dropped_child_found(alloc: Global) -> Result<Verdict, Fail>
    ensures { IfOk result (λ v. IsVerdict (cluster 1 1) 0 child_dropped v) }
{
    let node = numbered_node(0)?;
    let child = numbered_actor(node, 1)?;
    let mut cut = Cut::zero();
    cut.raise(node);
    let mut owners = ActorList::new(alloc);
    owners.push(child)?;
    let mut stops = StopList::new(alloc);
    stops.push(Stop {
        actor: child,
        received: 0,
        told: 0,
        admitted: 0,
        owners,
    })?;
    Ok(Verdict {
        node,
        cut,
        lost: NodeSet::empty(),
        stops,
    })
}

#[test]
fn a_dropped_child_is_reported(rt: HostRuntime) -> Result<(), Fail> {
    let history = dropped_child(rt.alloc())?;
    let verdicts = [dropped_child_found(rt.alloc())?];
    let full = full_report(rt.alloc(), &history, &verdicts)?;
    assert_eq!(rt; full.as_slice(), DROPPED_CHILD.as_bytes());
    Ok(())
}

/// A hand of the numbered bulletin of node 0 or 1 to node 0.
fn hand_to_0(origin: u8, number: u32) -> Result<Event, Fail>
    requires { origin < 16 }
    ensures { IfOk result (λ e. e ≡ Hands 0 origin number) }
{
    Ok(Event::Hand {
        to: numbered_node(0)?,
        origin: numbered_node(origin)?,
        number,
    })
}

fn removal(at: u8, gone: u8) -> Result<Event, Fail>
    ensures { IfOk result (λ e. e ≡ Removes at gone) }
{
    Ok(Event::Remove {
        at: numbered_node(at)?,
        gone: numbered_node(gone)?,
    })
}

fn crash(number: u8) -> Result<Event, Fail>
    ensures { IfOk result (λ e. e ≡ Crashes number) }
{
    Ok(Event::Crash {
        node: numbered_node(number)?,
    })
}

/// Two nodes crash and are removed. One Final of them comes after the first sweep, and the second finds both lost.
fn two_lost(alloc: Global) -> Result<History, Fail>
    ensures cluster { IfOk result (λ h. h.cluster ≡ cluster 4 1) }
    ensures past { IfOk result (λ h. h.past ≡ Sweeps 0 ∷ two_nodes_lost_together) }
{
    let node = numbered_node(0)?;
    let events = vec![in alloc;
        Event::Seed { node },
        crash(2)?,
        crash(3)?,
        removal(0, 2)?,
        removal(0, 3)?,
        removal(1, 2)?,
        removal(1, 3)?,
        hand_to_0(0, 0)?,
        hand_to_0(0, 1)?,
        hand_to_0(1, 0)?,
        Event::Sweep { node },
        hand_to_0(1, 1)?,
        Event::Sweep { node },
    ]?;
    history_of(alloc, 4, events)
}

/// The cut of two bulletins of node 0 and one of node 1.
fn two_and_one() -> Result<Cut, Fail>
    ensures { IfOk result (λ c. c ≡ 2 ∷ 1 ∷ replicate 14 0) }
{
    let node = numbered_node(0)?;
    let mut cut = Cut::zero();
    cut.raise(node);
    cut.raise(node);
    cut.raise(numbered_node(1)?);
    Ok(cut)
}

/// What the first sweep finds.
fn none_lost_found(alloc: Global) -> Result<Verdict, Fail>
    ensures { IfOk result (λ v. IsVerdict (cluster 4 1) 0 two_nodes_crashed v) }
{
    Ok(Verdict {
        node: numbered_node(0)?,
        cut: two_and_one()?,
        lost: NodeSet::empty(),
        stops: StopList::new(alloc),
    })
}

/// What the second one finds.
fn two_lost_found(alloc: Global) -> Result<Verdict, Fail>
    ensures { IfOk result (λ v. IsVerdict (cluster 4 1) 0 two_nodes_lost_together v) }
{
    let mut cut = two_and_one()?;
    cut.raise(numbered_node(1)?);
    let lost = NodeSet::empty().with(numbered_node(2)?);
    Ok(Verdict {
        node: numbered_node(0)?,
        cut,
        lost: lost.with(numbered_node(3)?),
        stops: StopList::new(alloc),
    })
}

#[test]
fn two_lost_nodes_are_reported(rt: HostRuntime) -> Result<(), Fail> {
    let history = two_lost(rt.alloc())?;
    let verdicts = [none_lost_found(rt.alloc())?, two_lost_found(rt.alloc())?];
    let full = full_report(rt.alloc(), &history, &verdicts)?;
    assert_eq!(rt; full.as_slice(), TWO_NODES_LOST.as_bytes());
    Ok(())
}
