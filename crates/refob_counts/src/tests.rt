//! Each call once, with ample memory, and many against a plain list.
use crate::{NotHeld, RefCounts};
use crgc_ids::{ActorId, NodeId};
use std::test::Fail;

#[test]
fn references_are_counted_by_target(rt: HostRuntime) -> Result<(), Fail> {
    let node = NodeId::new(0).ok_or("node 0")?;
    let first = ActorId::new(node, 0).ok_or("actor 0.0")?;
    let second = ActorId::new(node, 1).ok_or("actor 0.1")?;
    let third = ActorId::new(node, 2).ok_or("actor 0.2")?;
    let mut counts = RefCounts::new(rt.alloc());
    if counts.held(first) == 0 {
        counts.add(first, 2)?;
    }
    assert_eq!(rt; (counts.held(first), counts.held(second)), (2, 0));
    assert_eq!(rt; counts.release(first), Ok(()));
    assert_eq!(rt; counts.release(first), Ok(()));
    assert_eq!(rt; counts.release(first), Err(NotHeld));
    assert_eq!(rt; counts.held(first), 0);
    counts.add_all([second, first, second].as_slice())?;
    assert_eq!(rt; (counts.held(first), counts.held(second)), (1, 2));
    counts.add_all([third, second].as_slice())?;
    assert_eq!(rt; (counts.held(second), counts.held(third)), (3, 1));
    assert_eq!(rt; counts.release(third), Ok(()));
    assert_eq!(rt; (counts.held(second), counts.held(third)), (3, 0));
    Ok(())
}

#[test]
fn counts_are_those_of_a_plain_list(rt: HostRuntime) -> Result<(), Fail> {
    let mut counts = RefCounts::new(rt.alloc());
    let mut plain = vec![in rt.alloc(); 0; 128]?;
    for step in 0..384 {
        add_to_both(&mut counts, &mut plain, added_at(step))?;
        if step % 4 != 0 {
            let same = release_of_both(&mut counts, &mut plain, released_at(step))?;
            assert_eq!(rt; (step, same), (step, true));
        }
        if step % 64 == 63 {
            assert_eq!(rt; (step, are_same(&counts, &plain)?), (step, true));
        }
    }
    Ok(())
}

/// Targets that rise at first, then fall, and then come in any order.
fn added_at(step: u32) -> u32 {
    match step / 128 {
        0 => step,
        1 => 127 - step % 128,
        _ => step % 128 * 37 % 128,
    }
}

/// The target that came last, and at the end any.
fn released_at(step: u32) -> u32 {
    match step / 128 {
        2 => step % 128 * 53 % 128,
        _ => added_at(step.saturating_sub(1)),
    }
}

fn actor(serial: u32) -> Result<ActorId, Fail> {
    let node = NodeId::new(0).ok_or("node 0")?;
    Ok(ActorId::new(node, serial).ok_or("a serial too large")?)
}

fn add_to_both(counts: &mut RefCounts, plain: &mut [u32], serial: u32) -> Result<(), Fail> {
    let target = actor(serial)?;
    let held = plain.get_mut(serial as usize).ok_or("a serial too large")?;
    if counts.held(target) < 100 && *held < 100 {
        counts.add(target, 1)?;
        *held += 1;
    }
    Ok(())
}

/// Whether both had a reference to release, or neither had.
fn release_of_both(counts: &mut RefCounts, plain: &mut [u32], serial: u32) -> Result<bool, Fail> {
    let target = actor(serial)?;
    let held = plain.get_mut(serial as usize).ok_or("a serial too large")?;
    let same = counts.release(target).is_ok() == (0 < *held);
    *held = held.saturating_sub(1);
    Ok(same)
}

fn are_same(counts: &RefCounts, plain: &[u32]) -> Result<bool, Fail> {
    for serial in 0..128 {
        let held = plain.get(serial as usize).ok_or("a serial too large")?;
        if counts.held(actor(serial)?) != *held {
            return Ok(false);
        }
    }
    Ok(true)
}
