//! The streams of small histories.
ghost use Rattle.std.specs.Prelude.{◌≡◌, []};

use crate::BulletinStreams;
use crgc_ids::{ActorCounts, ActorId, NodeId, PairCounts};
use history_model::{Bulletin, Entry, Window};
use std::alloc::Global;
use std::test::Fail;

fn actor(node: u8) -> Result<ActorId, Fail> {
    let node = NodeId::new(node).ok_or("a node of 16 or above")?;
    Ok(ActorId::new(node, 0).ok_or("a serial too large")?)
}

// An entry that tells of two messages that the actor took.
fn entry_of(alloc: Global, actor: ActorId) -> Entry
    ensures actor { result.actor ≡ actor }
    ensures received { result.received ≡ 2 }
    ensures sent { result.sent ≡ [] }
    ensures created { result.created ≡ [] }
    ensures released { result.released ≡ [] }
{
    Entry {
        actor,
        received: 2,
        busy: false,
        root: true,
        created: PairCounts::new(alloc),
        sent: ActorCounts::new(alloc),
        released: ActorCounts::new(alloc),
    }
}

fn window_of(alloc: Global, at: NodeId, from: NodeId) -> Window
    ensures at { result.at ≡ at }
{
    Window {
        at,
        from,
        messages: ActorCounts::new(alloc),
        carried: PairCounts::new(alloc),
    }
}

// The word for the kind of a bulletin.
fn kind(bulletin: Option<&Bulletin>) -> &'static str {
    match bulletin {
        None => "none",
        Some(Bulletin::Delta(_)) => "delta",
        Some(Bulletin::Window(_)) => "window",
        Some(Bulletin::Final(_)) => "final",
    }
}

#[test]
fn a_publish_empties_the_queue(rt: HostRuntime) -> Result<(), Fail> {
    let actor = actor(3)?;
    let node = actor.node();
    let mut streams = BulletinStreams::new(rt.alloc())?;
    streams.reserve_entry(node)?;
    streams.enqueue(entry_of(rt.alloc(), actor));
    assert_eq!(rt;
        (streams.queue_len(node), streams.has_entries(node)),
        (1, true)
    );
    assert_eq!(rt; streams.names_too_many(node)?, false);
    streams.publish(node)?;
    assert_eq!(rt; (streams.queue_len(node), streams.stream_len(node)), (0, 1));
    assert_eq!(rt; kind(streams.bulletin(node, 0)), "delta");
    Ok(())
}

#[test]
fn bulletins_of_links_come_in_order(rt: HostRuntime) -> Result<(), Fail> {
    let at = actor(15)?.node();
    let from = actor(0)?.node();
    let mut streams = BulletinStreams::new(rt.alloc())?;
    streams.reserve_bulletin(at)?;
    streams.append_window(window_of(rt.alloc(), at, from));
    streams.reserve_bulletin(at)?;
    streams.append_final(window_of(rt.alloc(), at, from));
    assert_eq!(rt; kind(streams.bulletin(at, 0)), "window");
    assert_eq!(rt; kind(streams.bulletin(at, 1)), "final");
    assert_eq!(rt; kind(streams.bulletin(from, 0)), "none");
    Ok(())
}

#[test]
fn an_entry_is_taken_back(rt: HostRuntime) -> Result<(), Fail> {
    let actor = actor(0)?;
    let mut streams = BulletinStreams::new(rt.alloc())?;
    streams.reserve_entry(actor.node())?;
    streams.enqueue(entry_of(rt.alloc(), actor));
    streams.take_back(actor.node());
    assert_eq!(rt; streams.has_entries(actor.node()), false);
    Ok(())
}
