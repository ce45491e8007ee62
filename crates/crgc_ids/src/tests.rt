//! Each call once, with ample memory.
use crate::{
    ActorCount, ActorCounts, ActorId, Cut, NodeId, NodeSet, Octets, PairCount, PairCounts, RefList,
};
use std::test::Fail;

fn actor(node: u8, serial: u32) -> Option<ActorId> {
    ActorId::new(NodeId::new(node)?, serial)
}

#[test]
fn names_are_in_range(rt: HostRuntime) -> Result<(), Fail> {
    let last = NodeId::new(15).ok_or("node 15")?;
    assert_eq!(rt; last.get(), 15);
    assert_eq!(rt; NodeId::new(16), None);
    let a = ActorId::new(last, 262_143).ok_or("the last serial")?;
    assert_eq!(rt; (a.node(), a.serial()), (last, 262_143));
    assert_eq!(rt; a.number(), 4_194_303);
    assert_eq!(rt; ActorId::new(last, 262_144), None);
    assert!(rt;
        actor(0, 7) < actor(1, 3),
        "actors are ordered by node first"
    );
    Ok(())
}

#[test]
fn lists_keep_their_items(rt: HostRuntime) -> Result<(), Fail> {
    let mut bytes = Octets::new(rt.alloc());
    bytes.push(7)?;
    bytes.push(5)?;
    let same = bytes.copy()?;
    assert_eq!(rt; (same.len(), same.get(1), same.get(2)), (2, Some(&5), None));
    assert_eq!(rt; same.iter().count(), 2);
    assert_eq!(rt; bytes.as_slice(), same.as_slice());
    assert_eq!(rt; Octets::from_vec(same.into_vec()).get(0), Some(&7));
    Ok(())
}

#[test]
fn references_keep_their_order(rt: HostRuntime) -> Result<(), Fail> {
    let first = actor(0, 1).ok_or("an actor")?;
    let second = actor(1, 0).ok_or("another actor")?;
    let mut refs = RefList::new(rt.alloc());
    assert_eq!(rt; (refs.len(), refs.get(0)), (0, None));
    refs.push(first)?;
    refs.push(second)?;
    let same = refs.copy()?;
    assert_eq!(rt;
        (same.len(), same.get(1), same.get(2)),
        (2, Some(&second), None)
    );
    assert_eq!(rt; same.iter().count(), 2);
    assert_eq!(rt; refs.as_slice(), same.as_slice());
    Ok(())
}

#[test]
fn rising_lists_keep_their_rows(rt: HostRuntime) -> Result<(), Fail> {
    let a = actor(0, 1).ok_or("an actor")?;
    let mut counts = ActorCounts::new(rt.alloc());
    counts.push(ActorCount { actor: a, count: 3 })?;
    let same = counts.copy()?;
    assert_eq!(rt; (same.len(), same.get(1)), (1, None));
    assert_eq!(rt; same.iter().count(), 1);
    assert_eq!(rt; counts.as_slice(), same.as_slice());
    let mut pairs = PairCounts::new(rt.alloc());
    pairs.push(PairCount {
        owner: a,
        target: a,
        count: 2,
    })?;
    assert_eq!(rt;
        pairs.get(0),
        Some(&PairCount {
            owner: a,
            target: a,
            count: 2
        })
    );
    Ok(())
}

#[test]
fn a_set_has_what_was_added(rt: HostRuntime) -> Result<(), Fail> {
    let two = NodeId::new(2).ok_or("node 2")?;
    let nine = NodeId::new(9).ok_or("node 9")?;
    let set = NodeSet::empty().with(nine).with(two);
    assert_eq!(rt; set, NodeSet::empty().with(two).with(nine));
    assert_eq!(rt; (set.contains(two), set.contains(nine)), (true, true));
    assert!(rt; !NodeSet::empty().with(nine).contains(two));
    Ok(())
}

#[test]
fn a_cut_counts_by_node(rt: HostRuntime) -> Result<(), Fail> {
    let two = NodeId::new(2).ok_or("node 2")?;
    let nine = NodeId::new(9).ok_or("node 9")?;
    let mut cut = Cut::zero();
    if cut.at(two) == 0 {
        cut.raise(two);
    }
    assert_eq!(rt; (cut.at(two), cut.at(nine)), (1, 0));
    Ok(())
}
