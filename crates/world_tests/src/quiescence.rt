//! Worked histories, with ample memory.
use crgc_ids::{ActorId, NodeId, RefList};
use history_model::{Event, History};
use quiet_check::{is_quiescent, is_quiet_point};
use std::alloc::Global;
use std::test::Fail;

fn node(number: u8) -> Result<NodeId, Fail> {
    Ok(NodeId::new(number).ok_or("a node")?)
}

fn actor(number: u8, serial: u32) -> Result<ActorId, Fail> {
    Ok(ActorId::new(node(number)?, serial).ok_or("an actor")?)
}

fn add(history: &mut History, events: Vec<Event>) -> Result<(), Fail> {
    for event in events {
        history.push(event)?;
    }
    Ok(())
}

/// A parent drops its only child, and both are told and published.
fn dropped_child(alloc: Global) -> Result<History, Fail> {
    let here = node(0)?;
    let parent = actor(0, 0)?;
    let child = actor(0, 1)?;
    let mut history = History::new(alloc, 1, 1);
    let events = vec![in alloc;
        Event::Seed { node: here },
        Event::Wake { actor: parent },
        Event::Spawn { parent },
        Event::Drop {
            actor: parent,
            target: child
        },
        Event::Rest { actor: parent },
        Event::Flush { actor: parent },
        Event::Flush { actor: child },
        Event::Publish { node: here },
    ]?;
    add(&mut history, events)?;
    Ok(history)
}

#[test]
fn all_is_told_once_the_last_bulletin_is_handed(rt: HostRuntime) -> Result<(), Fail> {
    let here = node(0)?;
    let mut history = dropped_child(rt.alloc())?;
    assert!(rt; !is_quiet_point(rt.alloc(), &history, here)?);
    history.push(Event::Hand {
        to: here,
        origin: here,
        number: 0,
    })?;
    assert!(rt; is_quiet_point(rt.alloc(), &history, here)?);
    Ok(())
}

/// Nobody holds 1.1 any more, but a message to it is on the link.
fn message_on_link(alloc: Global) -> Result<History, Fail> {
    let root = actor(0, 0)?;
    let parent = actor(1, 0)?;
    let child = actor(1, 1)?;
    let mut refs = RefList::new(alloc);
    refs.push(child)?;
    let mut history = History::new(alloc, 2, 1);
    let events = vec![in alloc;
        Event::Seed { node: node(0)? },
        Event::Seed { node: node(1)? },
        Event::Tie {
            owner: parent,
            target: root
        },
        Event::Wake { actor: parent },
        Event::Spawn { parent },
        Event::Send {
            from: parent,
            to: root,
            refs
        },
        Event::Drop {
            actor: parent,
            target: child
        },
        Event::Rest { actor: parent },
        Event::Admit {
            from: node(1)?,
            at: node(0)?,
            number: 0
        },
        Event::Take { actor: root },
        Event::Send {
            from: root,
            to: child,
            refs: RefList::new(alloc)
        },
        Event::Drop {
            actor: root,
            target: child
        },
        Event::Rest { actor: root },
    ]?;
    add(&mut history, events)?;
    Ok(history)
}

#[test]
fn a_dropped_child_is_quiescent_and_its_parent_is_not(rt: HostRuntime) -> Result<(), Fail> {
    let history = dropped_child(rt.alloc())?;
    assert!(rt; is_quiescent(rt.alloc(), &history, actor(0, 1)?)?);
    assert!(rt; !is_quiescent(rt.alloc(), &history, actor(0, 0)?)?);
    assert!(rt; !is_quiescent(rt.alloc(), &history, actor(0, 2)?)?);
    Ok(())
}

#[test]
fn a_message_on_a_link_keeps_its_recipient(rt: HostRuntime) -> Result<(), Fail> {
    let child = actor(1, 1)?;
    let mut history = message_on_link(rt.alloc())?;
    assert!(rt; !is_quiescent(rt.alloc(), &history, child)?);
    let events = vec![in rt.alloc();
        Event::Admit {
            from: node(0)?,
            at: node(1)?,
            number: 0
        },
        Event::Take { actor: child },
    ]?;
    add(&mut history, events)?;
    assert!(rt; !is_quiescent(rt.alloc(), &history, child)?);
    history.push(Event::Rest { actor: child })?;
    assert!(rt; is_quiescent(rt.alloc(), &history, child)?);
    Ok(())
}
