//! Each call, with ample memory.
use crate::Mailboxes;
use crgc_ids::{ActorId, NodeId, RefList};
use std::alloc::Global;
use std::test::Fail;

fn actor(serial: u32) -> Result<ActorId, Fail> {
    let node = NodeId::new(0).ok_or("node 0")?;
    Ok(ActorId::new(node, serial).ok_or("a serial too large")?)
}

fn carrying(alloc: Global, actor: ActorId) -> Result<RefList, Fail> {
    let mut refs = RefList::new(alloc);
    refs.push(actor)?;
    Ok(refs)
}

#[test]
fn messages_come_out_as_they_went_in(rt: HostRuntime) -> Result<(), Fail> {
    let to = actor(0)?;
    let mut mailboxes = Mailboxes::new(rt.alloc());
    mailboxes.put(to, carrying(rt.alloc(), to)?)?;
    mailboxes.put(to, RefList::new(rt.alloc()))?;
    assert_eq!(rt; mailboxes.waiting(to), 2);
    assert_eq!(rt; mailboxes.first(to).ok_or("the first")?.len(), 1);
    assert_eq!(rt; mailboxes.pop(to).ok_or("the first")?.len(), 1);
    assert_eq!(rt; mailboxes.pop(to).ok_or("the second")?.len(), 0);
    assert_eq!(rt; mailboxes.pop(to).is_none(), true);
    Ok(())
}

#[test]
fn room_is_reserved_for_one_actor(rt: HostRuntime) -> Result<(), Fail> {
    let to = actor(0)?;
    let mut mailboxes = Mailboxes::new(rt.alloc());
    mailboxes.reserve(to)?;
    assert_eq!(rt; mailboxes.waiting(to), 0);
    mailboxes.put(to, RefList::new(rt.alloc()))?;
    assert_eq!(rt;
        (mailboxes.waiting(to), mailboxes.waiting(actor(1)?)),
        (1, 0)
    );
    Ok(())
}
