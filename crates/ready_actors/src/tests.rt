//! Each call once, with ample memory, and many calls against a plain list.
use crate::ReadyActors;
use crgc_ids::{ActorId, NodeId};
use std::test::Fail;

fn actor(node: u8, serial: u32) -> Result<ActorId, Fail> {
    let node = NodeId::new(node).ok_or("a node of 16 or above")?;
    Ok(ActorId::new(node, serial).ok_or("a serial too large")?)
}

#[test]
fn actors_come_in_order(rt: HostRuntime) -> Result<(), Fail> {
    let low = actor(0, 5)?;
    let high = actor(1, 0)?;
    let mut ready = ReadyActors::new(rt.alloc());
    assert_eq!(rt;
        (ready.put(high)?, ready.put(low)?, ready.put(low)?),
        (true, true, false)
    );
    assert_eq!(rt; ready.next(None), Some(low));
    assert_eq!(rt; ready.next(Some(low)), Some(high));
    assert_eq!(rt; ready.next(Some(high)), None);
    ready.take_out(high);
    assert_eq!(rt; (ready.contains(low), ready.contains(high)), (true, false));
    ready.leave(low.node());
    assert_eq!(rt; ready.next(None), None);
    Ok(())
}

/// The lowest of the list above the actor.
fn lowest_above(list: &[ActorId], after: Option<ActorId>) -> Option<ActorId> {
    let mut lowest = None;
    for actor in list {
        let above = match after {
            Some(after) => after < *actor,
            None => true,
        };
        let below = match lowest {
            Some(lowest) => *actor < lowest,
            None => true,
        };
        if above && below {
            lowest = Some(*actor);
        }
    }
    lowest
}

#[test]
fn it_is_as_a_list(rt: HostRuntime) -> Result<(), Fail> {
    let serials = [
        0, 1, 31, 32, 62, 63, 64, 65, 127, 128, 1023, 1024, 4095, 4096, 4097, 8191, 8192, 65535,
        65536, 131071, 262080, 262143,
    ];
    let mut ready = ReadyActors::new(rt.alloc());
    let mut list: Vec<ActorId> = Vec::new(rt.alloc());
    let mut random = 12345u32;
    for round in 0..1500u32 {
        random = random.wrapping_mul(1_664_525).wrapping_add(1_013_904_223);
        let serial = serials[(random >> 8) as usize % 22];
        let node = if random >> 20 & 1 == 0 { 3 } else { 15 };
        let one = actor(node, serial)?;
        let here = list.iter().position(|other| *other == one);
        assert_eq!(rt; ready.contains(one), here.is_some());
        if random >> 24 & 3 < 2 {
            assert_eq!(rt; ready.put(one)?, here.is_none());
            if here.is_none() {
                list.push(one)?;
            }
        } else {
            ready.take_out(one);
            if let Some(index) = here {
                list.swap_remove(index);
            }
        }
        if round % 400 == 399 {
            ready.leave(one.node());
            list.retain(|other| other.node() != one.node());
        }
        assert_eq!(rt; ready.next(None), lowest_above(&list, None));
        assert_eq!(rt; ready.next(Some(one)), lowest_above(&list, Some(one)));
        let next = actor(node, serials[(random >> 12) as usize % 22])?;
        assert_eq!(rt; ready.next(Some(next)), lowest_above(&list, Some(next)));
    }
    Ok(())
}
