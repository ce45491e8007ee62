//! Worked histories through the world, with ample memory: what each event tells, and what is read after it.
ghost use Rattle.std.specs.Prelude.{◌≡◌, false, true};
ghost use Rattle.true_config.specs.Applying.{CarriesFew, is_sweep};

use crgc_ids::{ActorId, NodeId};
use event_lines::{Line, read};
use history_model::{Event, Rule};
use std::alloc::Global;
use std::process::Abort;
use std::test::Fail;
use true_config::{Applied, Told, World};

/// The event that the line spells.
fn event_of(alloc: Global, line: &str) -> Result<Event, Fail> {
    match read(alloc, line.as_bytes()) {
        Ok(Line::Event(event)) => Ok(event),
        _ => Err(Fail::new("no event")),
    }
}

/// Whether the event is no sweep, and sends at most 16 references.
fn may_apply(event: &Event) -> bool
    ensures no_sweep { result ≡ true → is_sweep event.now ≡ false }
    ensures few { result ≡ true → CarriesFew event.now }
{
    match event {
        Event::Sweep { .. } => false,
        Event::Send { refs, .. } => refs.len() <= 16,
        _ => true,
    }
}

/// What the event tells: who was born, how many references were taken, the number on the link.
fn words_of(alloc: Global, told: &Told) -> Result<String, Fail> {
    Ok(match told {
        Told::Plain => String::from_str(alloc, "plain")?,
        Told::Born(actor) => format!(in alloc; "born {}", actor.serial())?,
        Told::Taken(refs) => format!(in alloc; "taken {}", refs.len())?,
        Told::Number(number) => format!(in alloc; "number {number}")?,
        Told::Local => String::from_str(alloc, "local")?,
        Told::Admitted => String::from_str(alloc, "admitted")?,
        Told::Discarded => String::from_str(alloc, "discarded")?,
    })
}

/// The event happens that the line spells, which nothing hinders, and tells this.
fn follow(alloc: Global, world: &mut World, line: &str) -> Result<String, Fail> {
    let event = event_of(alloc, line)?;
    if !may_apply(&event) {
        return Err(Fail::new("another form"));
    }
    match world.apply(&event)? {
        Applied::Done(told) => words_of(alloc, &told),
        _ => Err(Fail::new("hindered")),
    }
}

/// The serial of the actor, or -1 where there is none.
fn serial_of(actor: Option<ActorId>) -> i64 {
    match actor {
        Some(actor) => i64::from(actor.serial()),
        None => -1,
    }
}

/// How many actors were born on the node, how many are busy in the cluster, the lengths of the node's queue and stream, and the
/// first actor of the node that may be flushed.
fn glance(alloc: Global, world: &World, node: NodeId) -> Result<String, Fail> {
    let (born, busy) = (world.born(node), world.busy_count());
    let (queue, stream) = (world.queue_len(node), world.stream_len(node));
    let flush = serial_of(world.next_flush(node, None));
    Ok(format!(in alloc; "{born} {busy} {queue} {stream} {flush}")?)
}

const ONE_NODE: [(&str, &str); 13] = [
    ("seed 0", "1 0 0 0 0"),
    ("seed 0", "2 0 0 0 0"),
    ("tie 0.0 0.1", "2 0 0 0 0"),
    ("wake 0.0", "2 1 0 0 0"),
    ("flush 0.0", "2 1 1 0 1"),
    ("spawn 0.0", "3 1 1 0 0"),
    ("drop 0.0 0.2", "3 1 1 0 0"),
    ("retire 0.0", "3 1 1 0 0"),
    ("rest 0.0", "3 0 1 0 0"),
    ("flush 0.0", "3 0 2 0 1"),
    ("publish 0", "3 0 0 1 1"),
    ("hand 0 0 0", "3 0 0 1 1"),
    ("crash 0", "3 0 0 1 -1"),
];

/// The world of one node after these events, of which each leaves what is read after it.
fn one_node(alloc: Global, node: NodeId) -> Result<World, Fail> {
    let mut world = World::new(alloc, 1, 2)?;
    for (line, seen) in ONE_NODE {
        follow(alloc, &mut world, line)?;
        if glance(alloc, &world, node)?.as_str() != seen {
            return Err(Fail::new(line));
        }
    }
    Ok(world)
}

#[test]
fn one_node_works_tells_and_crashes(rt: HostRuntime) -> Result<(), Fail> {
    let node = NodeId::new(0).ok_or("node 0")?;
    let first = ActorId::new(node, 0).ok_or("0.0")?;
    let second = ActorId::new(node, 1).ok_or("0.1")?;
    let child = ActorId::new(node, 2).ok_or("0.2")?;
    let world = one_node(rt.alloc(), node)?;
    assert_eq!(rt;
        (
            world.held(first, second),
            world.held(first, child),
            world.held(child, first)
        ),
        (1, 0, 1)
    );
    assert_eq!(rt;
        (
            world.is_parent(first, child),
            world.is_root(first),
            world.is_root(second)
        ),
        (true, false, true)
    );
    assert!(rt; world.bulletin(node, 0).is_some());
    assert!(rt; world.bulletin(node, 1).is_none());
    let down = world.refusal(&Event::Wake { actor: second });
    assert_eq!(rt; (down, world.len()), (Some(Rule::Down), 13));
    Ok(())
}

#[test]
fn a_crashed_node_is_removed(rt: HostRuntime) -> Result<(), Fail> {
    let gone = NodeId::new(0).ok_or("node 0")?;
    let at = NodeId::new(1).ok_or("node 1")?;
    if gone == at {
        return Err(Fail::new("one node"));
    }
    let steps = [
        ("seed 0", (true, 0, None)),
        ("crash 0", (false, 0, Some(gone))),
        ("remove 1 0", (false, 1, None)),
        ("hand 1 1 0", (false, 1, None)),
    ];
    let mut world = World::new(rt.alloc(), 2, 2)?;
    for (line, seen) in steps {
        follow(rt.alloc(), &mut world, line)?;
        let removal = world.next_removal(at);
        assert_eq!(rt; (world.is_up(gone), world.stream_len(at), removal), seen);
    }
    assert_eq!(rt;
        (world.next_window(at), world.link_head(gone, at)),
        (None, None)
    );
    let again = Event::Remove { at, gone };
    assert_eq!(rt; world.refusal(&again), Some(Rule::Removed));
    Ok(())
}

#[test]
fn a_message_on_a_link_is_admitted_once(rt: HostRuntime) -> Result<(), Fail> {
    let at = NodeId::new(1).ok_or("node 1")?;
    let steps = [
        ("seed 0", "born 0"),
        ("seed 1", "born 0"),
        ("tie 0.0 1.0", "plain"),
        ("wake 0.0", "plain"),
        ("spawn 0.0", "born 1"),
        ("send 0.0 0.1", "local"),
        ("send 0.0 1.0 0.1", "number 0"),
        ("repeat 0 1 0", "plain"),
        ("admit 0 1 0", "admitted"),
        ("admit 0 1 0", "discarded"),
        ("take 1.0", "taken 1"),
        ("window 1 0", "plain"),
    ];
    let mut world = World::new(rt.alloc(), 2, 2)?;
    for (line, told) in steps {
        assert_eq!(rt; follow(rt.alloc(), &mut world, line)?.as_str(), told);
    }
    assert_eq!(rt; (world.stream_len(at), world.len()), (1, 12));
    Ok(())
}

/// A world of one node and one root, of which a bulletin tells.
fn told_of_a_root(alloc: Global, actor: ActorId) -> Result<World, Fail> {
    let mut world = World::new(alloc, 1, 2)?;
    let node = actor.node();
    follow(alloc, &mut world, "seed 0")?;
    match world.apply_both(&Event::Flush { actor }, &Event::Publish { node })? {
        Applied::Done(Told::Plain) => Ok(world),
        _ => Err(Fail::new("not told")),
    }
}

#[test]
fn two_events_follow_at_once(rt: HostRuntime) -> Result<(), Fail> {
    let node = NodeId::new(0).ok_or("node 0")?;
    let actor = ActorId::new(node, 0).ok_or("0.0")?;
    let mut world = told_of_a_root(rt.alloc(), actor)?;
    assert_eq!(rt; (world.queue_len(node), world.stream_len(node)), (0, 1));
    let idle = world.apply_both(&Event::Rest { actor }, &Event::Crash { node })?;
    assert!(rt; matches!(idle, Applied::Illegal(Rule::Idle)));
    follow(rt.alloc(), &mut world, "wake 0.0")?;
    let done = world.apply_both(&Event::Rest { actor }, &Event::Crash { node })?;
    assert!(rt; matches!(done, Applied::Done(Told::Plain)));
    assert_eq!(rt; (world.is_up(node), world.len()), (false, 6));
    Ok(())
}
