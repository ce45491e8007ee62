//! What a node told, beside what was admitted from it.
ghost use Rattle.std.specs.Prelude.{◌<◌, ◌^◌, IfOk};
ghost use Rattle.crgc_ids.specs.Actor.{Actor};
ghost use Rattle.row_sums.specs.Totals.{actor_total, pair_total};

use crgc_ids::{ActorCount, ActorCounts, ActorId, NodeId, PairCount, PairCounts};
use std::alloc::Global;
use std::test::Fail;
use undo_log::{Correction, Side, UndoLog};

fn actor(serial: u32) -> Result<ActorId, Fail> {
    let node = NodeId::new(1).ok_or("node 1")?;
    Ok(ActorId::new(node, serial).ok_or("a serial too large")?)
}

/// Messages to one actor.
fn messages(alloc: Global, actor: ActorId, count: u32) -> Result<ActorCounts, Fail>
    requires { 0 < count }
    ensures { IfOk result (λ rows. (a : Actor) → actor_total a rows < 2 ^ 32) }
{
    let mut rows = ActorCounts::new(alloc);
    rows.push(ActorCount { actor, count })?;
    Ok(rows)
}

/// One pair.
fn pairs(alloc: Global, owner: ActorId, target: ActorId, count: u32) -> Result<PairCounts, Fail>
    requires { 0 < count }
    ensures { IfOk result (λ rows. (b a : Actor) → pair_total b a rows < 2 ^ 32) }
{
    let mut rows = PairCounts::new(alloc);
    rows.push(PairCount {
        owner,
        target,
        count,
    })?;
    Ok(rows)
}

#[test]
fn what_a_node_told_stands_beside_what_was_admitted(rt: HostRuntime) -> Result<(), Fail> {
    let (low, high) = (actor(3)?, actor(7)?);
    let node = NodeId::new(0).ok_or("node 0")?;
    let other = NodeId::new(2).ok_or("node 2")?;
    let mut log = UndoLog::new(rt.alloc());
    let sent = messages(rt.alloc(), high, 5)?;
    let created = pairs(rt.alloc(), high, low, 2)?;
    log.note_told(node, &sent, &created)?;
    let admitted = messages(rt.alloc(), high, 4)?;
    let carried = pairs(rt.alloc(), low, high, 1)?;
    log.note_admitted(node, &admitted, &carried)?;
    let corrections = log.settle(node)?;
    let sends = Correction {
        owner: None,
        target: high,
        told: 5,
        admitted: 4,
    };
    let put_in = Correction {
        owner: Some(low),
        target: high,
        told: 0,
        admitted: 1,
    };
    let taken_back = Correction {
        owner: Some(high),
        target: low,
        told: 2,
        admitted: 0,
    };
    assert_eq!(rt;
        corrections.as_slice(),
        [sends, put_in, taken_back].as_slice()
    );
    assert_eq!(rt; log.settle(other)?.len(), 0);
    assert_eq!(rt; log.pairs(node, Side::Told).len(), 1);
    assert_eq!(rt; log.messages(other, Side::Told).len(), 0);
    Ok(())
}
