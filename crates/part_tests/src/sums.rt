//! Sums of small lists of entries.
ghost use Rattle.std.specs.Prelude.{◌≡◌, []};

use crgc_ids::{ActorCount, ActorCounts, ActorId, NodeId, PairCount, PairCounts};
use delta_graph::delta_of;
use history_model::{Entry, StateRow};
use std::alloc::Global;
use std::test::Fail;

fn actor(serial: u32) -> Result<ActorId, Fail> {
    let node = NodeId::new(0).ok_or("node 0")?;
    Ok(ActorId::new(node, serial).ok_or("a serial too large")?)
}

// An entry that tells what was received and the flags alone.
fn state_of(alloc: Global, actor: ActorId, received: u32, busy: bool) -> Entry
    ensures received { result.received ≡ received }
    ensures sent { result.sent ≡ [] }
    ensures created { result.created ≡ [] }
    ensures released { result.released ≡ [] }
{
    Entry {
        actor,
        received,
        busy,
        root: true,
        created: PairCounts::new(alloc),
        sent: ActorCounts::new(alloc),
        released: ActorCounts::new(alloc),
    }
}

#[test]
fn no_entries_give_a_delta_without_rows(rt: HostRuntime) -> Result<(), Fail> {
    let node = actor(0)?.node();
    let delta = delta_of(rt.alloc(), node, &[])?;
    assert_eq!(rt; (delta.node, delta.states.len()), (node, 0));
    assert_eq!(rt;
        (delta.sent.len(), delta.created.len(), delta.released.len()),
        (0, 0, 0)
    );
    Ok(())
}

#[test]
fn of_an_actors_flags_the_last_stand(rt: HostRuntime) -> Result<(), Fail> {
    let low = actor(1)?;
    let high = actor(2)?;
    let alloc = rt.alloc();
    let first = state_of(alloc, high, 2, true);
    let other = state_of(alloc, low, 0, true);
    let last = state_of(alloc, high, 3, false);
    let entries = [first, other, last];
    let delta = delta_of(alloc, low.node(), &entries)?;
    let (received, busy, root) = (5, false, true);
    let sum = StateRow {
        actor: high,
        received,
        busy,
        root,
    };
    assert_eq!(rt; (delta.states.len(), delta.states.get(1)), (2, Some(&sum)));
    Ok(())
}

// A parent made a reference to its child twice, and gave both up, in two entries.
#[test]
fn what_two_entries_count_adds_up(rt: HostRuntime) -> Result<(), Fail> {
    let owner = actor(0)?;
    let target = actor(1)?;
    let alloc = rt.alloc();
    let mut first = state_of(alloc, owner, 0, false);
    let mut last = state_of(alloc, owner, 0, false);
    let count = 1;
    first.released.push(ActorCount {
        actor: target,
        count,
    })?;
    last.released.push(ActorCount {
        actor: target,
        count,
    })?;
    let entries = [first, last];
    let delta = delta_of(alloc, owner.node(), &entries)?;
    let count = 2;
    let sum = PairCount {
        owner,
        target,
        count,
    };
    assert_eq!(rt; (delta.states.len(), delta.released.len()), (1, 1));
    assert_eq!(rt; delta.released.get(0), Some(&sum));
    Ok(())
}
