//! Bulletins of two origins, offered out of order.
ghost use Rattle.std.specs.Prelude.{◌≡◌, ◌≤◌, IfOk};

use crate::{GossipCore, Offer};
use crgc_ids::{ActorCounts, NodeId, PairCounts};
use history_model::{Bulletin, Delta, StateRows};
use std::alloc::Global;
use std::test::Fail;

fn node(number: u8) -> Result<NodeId, Fail>
    ensures { IfOk result (λ n. n ≡ number) }
{
    let Some(node) = NodeId::new(number) else {
        return Err(Fail::from("a node of 16 or above"));
    };
    Ok(node)
}

fn delta(alloc: Global, node: NodeId) -> Bulletin {
    Bulletin::Delta(Delta {
        node,
        states: StateRows::new(alloc),
        sent: ActorCounts::new(alloc),
        created: PairCounts::new(alloc),
        released: PairCounts::new(alloc),
    })
}

/// The node that a Delta tells of.
fn teller(b: &Bulletin) -> Option<NodeId> {
    match b {
        Bulletin::Delta(delta) => Some(delta.node),
        _ => None,
    }
}

/// The origin and the node of the first Delta that is ready, which is given up.
fn take(core: &mut GossipCore) -> Option<(NodeId, NodeId)>
    ensures { core.new.nodes ≡ core.old.nodes }
{
    let (origin, b) = match core.first_ready() {
        Some(pair) => pair,
        None => return None,
    };
    let node = teller(b)?;
    core.advance(origin);
    Some((origin, node))
}

#[test]
fn each_origin_comes_in_order(rt: HostRuntime) -> Result<(), Fail> {
    let (low, high) = (node(0)?, node(1)?);
    let mut core = GossipCore::new(rt.alloc(), 2)?;
    assert_eq!(rt;
        core.offer(high, 1, delta(rt.alloc(), low))?,
        Offer::Waiting
    );
    assert_eq!(rt; (take(&mut core), core.wants(high)), (None, 0));
    assert_eq!(rt; core.offer(high, 0, delta(rt.alloc(), high))?, Offer::Ready);
    assert_eq!(rt; core.wants(high), 2);
    assert_eq!(rt;
        (core.was_offered(high, 1), core.was_offered(high, 2)),
        (true, false)
    );
    assert_eq!(rt; core.offer(low, 0, delta(rt.alloc(), low))?, Offer::Ready);
    assert_eq!(rt; take(&mut core), Some((low, low)));
    assert_eq!(rt; take(&mut core), Some((high, high)));
    assert_eq!(rt; take(&mut core), Some((high, low)));
    assert_eq!(rt; take(&mut core), None);
    assert_eq!(rt; (core.cut().at(low), core.cut().at(high)), (1, 2));
    assert_eq!(rt; core.offer(high, 1, delta(rt.alloc(), low))?, Offer::Old);
    Ok(())
}

#[test]
fn the_first_of_one_number_is_kept(rt: HostRuntime) -> Result<(), Fail> {
    let (first, second) = (node(0)?, node(1)?);
    let mut core = GossipCore::new(rt.alloc(), 2)?;
    assert_eq!(rt;
        core.offer(first, 0, delta(rt.alloc(), first))?,
        Offer::Ready
    );
    assert_eq!(rt;
        core.offer(first, 0, delta(rt.alloc(), second))?,
        Offer::Ready
    );
    assert_eq!(rt; take(&mut core), Some((first, first)));
    assert_eq!(rt; take(&mut core), None);
    Ok(())
}

#[test]
fn one_that_is_not_kept_passes(rt: HostRuntime) -> Result<(), Fail> {
    let (low, high) = (node(0)?, node(1)?);
    let mut core = GossipCore::new(rt.alloc(), 2)?;
    core.pass(high);
    assert_eq!(rt; (core.cut().at(low), core.cut().at(high)), (0, 1));
    assert_eq!(rt; core.was_offered(high, 0), true);
    assert_eq!(rt; core.offer(high, 0, delta(rt.alloc(), high))?, Offer::Old);
    assert_eq!(rt; core.offer(high, 1, delta(rt.alloc(), low))?, Offer::Ready);
    assert_eq!(rt; take(&mut core), Some((high, low)));
    Ok(())
}
