//! What one end of a link admits, counts and refuses.
ghost use Rattle.std.specs.Prelude.{◌≡◌, [], false, IfOk};

use crgc_ids::{ActorId, NodeId, PairCount};
use ingress_gateway::{Admit, Ingress};
use std::alloc::Global;
use std::test::Fail;

fn actor(node: u8) -> Result<ActorId, Fail> {
    let node = NodeId::new(node).ok_or("a node of 16 or above")?;
    Ok(ActorId::new(node, 0).ok_or("a serial too large")?)
}

fn opened(alloc: Global) -> Result<Ingress, Fail>
    ensures open { IfOk result (λ g. g.is_closed ≡ false) }
    ensures messages { IfOk result (λ g. g.messages ≡ []) }
    ensures carried { IfOk result (λ g. g.carried ≡ []) }
{
    let from = actor(1)?.node();
    let at = actor(0)?.node();
    if from == at {
        return Err(Fail::new("one node"));
    }
    Ok(Ingress::new(alloc, from, at))
}

#[test]
fn a_reference_carried_twice_counts_twice(rt: HostRuntime) -> Result<(), Fail> {
    let owner = actor(0)?;
    let target = actor(1)?;
    let mut ingress = opened(rt.alloc())?;
    let answer = ingress.admit(0, owner, [target, target].as_slice())?;
    assert_eq!(rt; (answer, ingress.named()), (Admit::Admitted, 2));
    let window = ingress.cut_window().ok_or("a window")?;
    let count = 2;
    let twice = PairCount {
        owner,
        target,
        count,
    };
    assert_eq!(rt;
        (window.carried.len(), window.carried.get(0)),
        (1, Some(&twice))
    );
    assert_eq!(rt; ingress.named(), 0);
    Ok(())
}

#[test]
fn a_number_that_was_admitted_is_discarded(rt: HostRuntime) -> Result<(), Fail> {
    let to = actor(0)?;
    let mut ingress = opened(rt.alloc())?;
    assert_eq!(rt; ingress.admit(7, to, [to].as_slice())?, Admit::Admitted);
    assert_eq!(rt; ingress.cut_window().ok_or("a window")?.messages.len(), 1);
    assert_eq!(rt; ingress.admit(7, to, [to].as_slice())?, Admit::Discarded);
    assert_eq!(rt; ingress.cut_window().is_none(), true);
    Ok(())
}

#[test]
fn numbers_come_in_any_order(rt: HostRuntime) -> Result<(), Fail> {
    let to = actor(0)?;
    let mut ingress = opened(rt.alloc())?;
    assert_eq!(rt; ingress.admit(8, to, [to].as_slice())?, Admit::Admitted);
    assert_eq!(rt; ingress.cut_window().ok_or("a window")?.messages.len(), 1);
    assert_eq!(rt; ingress.admit(6, to, [to].as_slice())?, Admit::Admitted);
    assert_eq!(rt; ingress.cut_window().ok_or("a window")?.messages.len(), 1);
    assert_eq!(rt; ingress.admit(7, to, [to].as_slice())?, Admit::Admitted);
    assert_eq!(rt; ingress.admit(8, to, [to].as_slice())?, Admit::Discarded);
    Ok(())
}

#[test]
fn nothing_is_admitted_once_closed(rt: HostRuntime) -> Result<(), Fail> {
    let to = actor(0)?;
    let mut ingress = opened(rt.alloc())?;
    assert_eq!(rt; ingress.close().messages.len(), 0);
    assert_eq!(rt; ingress.admit(0, to, [to].as_slice())?, Admit::Closed);
    Ok(())
}
