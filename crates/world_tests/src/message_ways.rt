//! The way of a message, call by call, with ample memory.
ghost use Rattle.std.specs.Prelude.{◌≡◌, IfOk};
ghost use Rattle.traffic.specs.Changes.{IsNewTraffic};

use crgc_ids::{ActorId, NodeId, RefList};
use std::alloc::Global;
use std::test::Fail;
use traffic::Traffic;

fn actor(node: u8, serial: u32) -> Result<ActorId, Fail>
    ensures { IfOk result (λ a. a.node ≡ node) }
{
    let node = NodeId::new(node).ok_or("a node of 16 or above")?;
    Ok(ActorId::new(node, serial).ok_or("a serial too large")?)
}

fn of_two_nodes(alloc: Global) -> Result<Traffic, Fail>
    ensures { IfOk result (λ t. IsNewTraffic t 2) }
{
    Ok(Traffic::new(alloc, 2)?)
}

#[test]
fn a_message_within_a_node_waits_at_once(rt: HostRuntime) -> Result<(), Fail> {
    let sender = actor(0, 0)?;
    let recipient = actor(0, 1)?;
    let mut traffic = of_two_nodes(rt.alloc())?;
    let number = traffic.send(sender, recipient, RefList::new(rt.alloc()), true)?;
    assert_eq!(rt; (number, traffic.next_ready(None)), (None, Some(recipient)));
    if traffic.mail(recipient) == 0 {
        return Err(Fail::new("no message"));
    }
    assert_eq!(rt; traffic.first(recipient).ok_or("a message")?.len(), 0);
    assert_eq!(rt; traffic.take(recipient).len(), 0);
    assert_eq!(rt; (traffic.next_ready(None), traffic.live_count()), (None, 0));
    traffic.rest(recipient)?;
    traffic.wake(recipient);
    assert_eq!(rt; traffic.mail(recipient), 0);
    Ok(())
}

#[test]
fn a_message_on_a_link_is_lost_with_its_last_copy(rt: HostRuntime) -> Result<(), Fail> {
    let sender = actor(0, 0)?;
    let recipient = actor(1, 0)?;
    let (from, at) = (sender.node(), recipient.node());
    if from == at {
        return Err(Fail::new("one node"));
    }
    let mut traffic = of_two_nodes(rt.alloc())?;
    let number = traffic.send(sender, recipient, RefList::new(rt.alloc()), true)?;
    assert_eq!(rt; (number, traffic.head(from, at)), (Some(0), Some(0)));
    assert_eq!(rt; traffic.recipient(from, at, 0), Some(recipient));
    assert_eq!(rt; (traffic.sent(from, at), traffic.live_count()), (1, 1));
    if traffic.copies(from, at, 0) == 0 {
        return Err(Fail::new("no copy"));
    }
    traffic.lose(from, at, 0);
    assert_eq!(rt; (traffic.copies(from, at, 0), traffic.live_count()), (0, 0));
    Ok(())
}

#[test]
fn a_crashed_node_is_removed_next(rt: HostRuntime) -> Result<(), Fail> {
    let gone = actor(0, 0)?.node();
    let at = actor(1, 0)?.node();
    if gone == at {
        return Err(Fail::new("one node"));
    }
    let mut traffic = of_two_nodes(rt.alloc())?;
    traffic.crash(gone);
    assert_eq!(rt;
        (traffic.is_up(gone), traffic.next_removal(at)),
        (false, Some(gone))
    );
    if traffic.is_open(gone, at) {
        assert_eq!(rt; traffic.close(at, gone).messages.len(), 0);
    }
    assert_eq!(rt;
        (traffic.is_open(gone, at), traffic.next_removal(at)),
        (false, None)
    );
    Ok(())
}
