//! What is on a link, call by call, with ample memory.
ghost use Rattle.std.specs.Prelude.{IfOk};
ghost use Rattle.link_table.specs.LinkState.{IsNewLink};

use crgc_ids::{ActorId, NodeId, RefList};
use link_table::{Link, LinkTable};
use std::alloc::Global;
use std::test::Fail;

fn actor(node: u8) -> Result<ActorId, Fail> {
    let node = NodeId::new(node).ok_or("a node of 16 or above")?;
    Ok(ActorId::new(node, 0).ok_or("a serial too large")?)
}

fn opened(alloc: Global, from: NodeId, at: NodeId) -> Result<Link, Fail>
    ensures { IfOk result (λ l. IsNewLink l from at) }
{
    if from == at {
        return Err(Fail::new("one node"));
    }
    Ok(Link::new(alloc, from, at))
}

#[test]
fn a_message_is_admitted_once(rt: HostRuntime) -> Result<(), Fail> {
    let to = actor(1)?;
    let mut link = opened(rt.alloc(), actor(0)?.node(), to.node())?;
    assert_eq!(rt; link.send(to, RefList::new(rt.alloc()))?, 0);
    assert_eq!(rt; link.admit(0)?.is_some(), true);
    assert_eq!(rt; (link.copies(0), link.named()), (0, 1));
    Ok(())
}

#[test]
fn a_number_without_a_copy_is_gone(rt: HostRuntime) -> Result<(), Fail> {
    let to = actor(1)?;
    let mut link = opened(rt.alloc(), actor(0)?.node(), to.node())?;
    link.send(to, RefList::new(rt.alloc()))?;
    link.repeat(0);
    assert_eq!(rt; (link.copies(0), link.under_way()), (2, 1));
    link.lose(0);
    assert_eq!(rt; (link.head(), link.message(0).is_some()), (Some(0), true));
    Ok(())
}

#[test]
fn a_link_keeps_nothing_once_its_end_crashed(rt: HostRuntime) -> Result<(), Fail> {
    let at = actor(15)?.node();
    let from = actor(3)?.node();
    if from == at {
        return Err(Fail::new("one node"));
    }
    let mut table = LinkTable::new(rt.alloc())?;
    table.crash(at);
    assert_eq!(rt; table.link(from, at).is_open(), false);
    assert_eq!(rt; table.link(at, from).is_open(), true);
    Ok(())
}
