//! The entries of worked histories.
use crgc_ids::{ActorCount, ActorId, NodeId, PairCount};
use entry_records::ActorLog;
use std::test::Fail;

fn actor(node: u8, serial: u32) -> Result<ActorId, Fail> {
    let node = NodeId::new(node).ok_or("a node of 16 or above")?;
    Ok(ActorId::new(node, serial).ok_or("a serial too large")?)
}

fn once(actor: ActorId) -> ActorCount {
    ActorCount { actor, count: 1 }
}

fn one_pair(owner: ActorId, target: ActorId) -> PairCount {
    PairCount {
        owner,
        target,
        count: 1,
    }
}

// A seed that made a child and gave up its reference to it.
#[test]
fn a_parent_tells_what_it_gave_up(rt: HostRuntime) -> Result<(), Fail> {
    let parent = actor(0, 0)?;
    let child = actor(0, 1)?;
    let mut log = ActorLog::newborn(rt.alloc(), parent, None)?;
    log.note_released(child)?;
    assert!(rt; log.can_flush(false, true));
    let entry = log.take_entry(false, true);
    assert_eq!(rt; (entry.actor, entry.received), (parent, 0));
    assert_eq!(rt; (entry.busy, entry.root), (false, true));
    assert_eq!(rt; entry.created.get(0), Some(&one_pair(parent, parent)));
    assert_eq!(rt; entry.released.get(0), Some(&once(child)));
    assert_eq!(rt; log.can_flush(false, true), false);
    Ok(())
}

// Its child.
#[test]
fn a_child_tells_both_references_of_its_birth(rt: HostRuntime) -> Result<(), Fail> {
    let parent = actor(0, 0)?;
    let child = actor(0, 1)?;
    let mut log = ActorLog::newborn(rt.alloc(), child, Some(parent))?;
    assert!(rt; log.can_flush(false, false));
    let entry = log.take_entry(false, false);
    let created = [one_pair(parent, child), one_pair(child, child)];
    assert_eq!(rt; entry.created.as_slice(), created.as_slice());
    assert_eq!(rt;
        (log.can_flush(false, false), log.can_flush(true, false)),
        (false, true)
    );
    Ok(())
}

// A cycle over two nodes: an owner takes a message that carries a reference to the other owner's child, sends that child a
// reference to its own one, and gives up what it held. One more message is taken back.
#[test]
fn an_owner_of_a_cycle_tells_what_it_sent(rt: HostRuntime) -> Result<(), Fail> {
    let child = actor(0, 1)?;
    let owner = actor(1, 0)?;
    let other = actor(1, 1)?;
    let mut log = ActorLog::newborn(rt.alloc(), owner, None)?;
    log.note_created(child, owner)?;
    log.note_received();
    log.note_sent(child, [other, other].as_slice())?;
    log.note_sent(other, [child].as_slice())?;
    log.take_back_sent(1);
    assert!(rt; log.can_flush(false, true));
    let entry = log.copy_entry(false, true)?;
    assert_eq!(rt;
        (entry.received, entry.sent.get(0)),
        (1, Some(&once(child)))
    );
    let count = 2;
    let carried = PairCount {
        owner: child,
        target: other,
        count,
    };
    let created = [one_pair(child, owner), carried, one_pair(owner, owner)];
    assert_eq!(rt; entry.created.as_slice(), created.as_slice());
    Ok(())
}
