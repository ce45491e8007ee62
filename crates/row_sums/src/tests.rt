//! Each call, with rows that come twice and out of order.
ghost use Rattle.std.specs.Prelude.{◌≡◌, IfOk};

use crate::{sum_of_counts, sum_of_pairs};
use crgc_ids::{ActorCount, ActorId, NodeId, PairCount};
use std::test::Fail;

fn actor(serial: u32) -> Result<ActorId, Fail> {
    let node = NodeId::new(0).ok_or("node 0")?;
    Ok(ActorId::new(node, serial).ok_or("a serial too large")?)
}

fn counted(serial: u32, count: u32) -> Result<ActorCount, Fail>
    ensures { IfOk result (λ r. r.count ≡ count) }
{
    let actor = actor(serial)?;
    Ok(ActorCount { actor, count })
}

fn carried(owner: u32, target: u32, count: u32) -> Result<PairCount, Fail>
    ensures { IfOk result (λ r. r.count ≡ count) }
{
    let owner = actor(owner)?;
    let target = actor(target)?;
    Ok(PairCount {
        owner,
        target,
        count,
    })
}

#[test]
fn rows_of_one_actor_become_one(rt: HostRuntime) -> Result<(), Fail> {
    let one = counted(1, 5)?;
    let rows = vec![in rt.alloc(); counted(2, 1)?, one, counted(2, 3)?]?;
    let sum = sum_of_counts(rows);
    assert_eq!(rt; sum.as_slice(), [one, counted(2, 4)?].as_slice());
    Ok(())
}

#[test]
fn rows_of_one_pair_become_one(rt: HostRuntime) -> Result<(), Fail> {
    let low = carried(1, 7, 5)?;
    let rows = vec![in rt.alloc(); carried(1, 9, 1)?, low, carried(1, 9, 3)?]?;
    let sum = sum_of_pairs(rows);
    assert_eq!(rt; sum.as_slice(), [low, carried(1, 9, 4)?].as_slice());
    Ok(())
}
