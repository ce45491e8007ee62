//! A history that has an event of each form.
use crate::{Event, History};
use crgc_ids::{ActorId, NodeId, RefList};
use std::alloc::{AllocError, Global};
use std::fmt::Write;
use std::test::Fail;

fn node(number: u8) -> Result<NodeId, Fail> {
    Ok(NodeId::new(number).ok_or("a node")?)
}

fn actor(number: u8, serial: u32) -> Result<ActorId, Fail> {
    Ok(ActorId::new(node(number)?, serial).ok_or("an actor")?)
}

fn message(alloc: Global, refs: &[ActorId]) -> Result<Event, Fail> {
    let mut carried = RefList::new(alloc);
    for target in refs {
        carried.push(*target)?;
    }
    Ok(Event::Send {
        from: actor(0, 7)?,
        to: actor(15, 262_143)?,
        refs: carried,
    })
}

/// An event of each form, and messages with no reference, with one and with three.
fn one_of_each(alloc: Global) -> Result<Vec<Event>, Fail> {
    let (zero, one) = (node(0)?, node(1)?);
    let (a, b, c) = (actor(0, 1)?, actor(1, 2)?, actor(1, 3)?);
    let events = vec![in alloc;
        Event::Seed { node: zero },
        Event::Tie {
            owner: a,
            target: b
        },
        Event::Wake { actor: a },
        Event::Take { actor: b },
        Event::Spawn { parent: b },
        message(alloc, &[])?,
        message(alloc, &[c])?,
        message(alloc, &[c, a, c])?,
        Event::Drop {
            actor: c,
            target: a
        },
        Event::Retire { actor: a },
        Event::Rest { actor: b },
        Event::Flush { actor: c },
        Event::Publish { node: one },
        Event::Window {
            at: one,
            from: zero
        },
        Event::Admit {
            from: zero,
            at: one,
            number: 4_294_967_295
        },
        Event::Lose {
            from: one,
            at: zero,
            number: 1
        },
        Event::Repeat {
            from: zero,
            at: one,
            number: 2
        },
        Event::Crash { node: one },
        Event::Remove {
            at: zero,
            gone: one
        },
        Event::Hand {
            to: zero,
            origin: one,
            number: 3
        },
        Event::Sweep { node: zero },
    ]?;
    Ok(events)
}

fn shown(alloc: Global, events: &[Event]) -> Result<String, AllocError> {
    let mut text = String::new(alloc);
    for event in events {
        writeln!(text, "{event:?}")?;
    }
    Ok(text)
}

#[test]
fn each_form_is_read_as_it_was_put(rt: HostRuntime) -> Result<(), Fail> {
    let alloc = rt.alloc();
    let put = one_of_each(alloc)?;
    let mut history = History::new(alloc, 2, 1);
    for event in one_of_each(alloc)? {
        history.push(event)?;
    }
    let read = history.to_vec(alloc)?;
    assert_eq!(rt;
        shown(alloc, read.as_slice())?,
        shown(alloc, put.as_slice())?
    );
    for left in (0..put.len()).rev() {
        history.take_back();
        let read = history.to_vec(alloc)?;
        assert_eq!(rt;
            shown(alloc, read.as_slice())?,
            shown(alloc, &put.as_slice()[..left])?
        );
    }
    assert_eq!(rt; history.len(), 0);
    Ok(())
}
