//! The nodes after a list of events, the oldest first. Each function is linear in the events.
ghost use Rattle.std.specs.Prelude.{◌≡◌, ◌≤◌, reverse};
ghost use Rattle.std.specs.List.{list_any};
ghost use Rattle.history_model.specs.Messages.{is_closed, is_removal};
ghost use Rattle.history_model.specs.State.{is_crash, is_up};
ghost use Rattle.quiet_check.specs.Plain.{all_below, closes, closes_all};

use history_model::Event;

fn is_crash_of(event: &Event, node: u8) -> bool
    ensures { result ≡ is_crash node event.now }
{
    match event {
        Event::Crash { node: n } => n.get() == node,
        _ => false,
    }
}

fn has_crashed(events: &[Event], node: u8) -> bool
    ensures { result ≡ list_any (is_crash node) (reverse events.now) }
{
    let mut crashed = false;
    for event in events {
        crashed = is_crash_of(event, node) || crashed;
    }
    crashed
}

/// Whether the node has not crashed.
pub fn is_node_up(events: &[Event], node: u8) -> bool
    ensures { result ≡ is_up node (reverse events.now) }
{
    !has_crashed(events, node)
}

fn is_removal_by(event: &Event, from: u8, at: u8) -> bool
    ensures { result ≡ is_removal from at event.now }
{
    match event {
        Event::Remove { at: y, gone: x } => x.get() == from && y.get() == at,
        _ => false,
    }
}

/// Whether `at` has removed the other node.
pub fn is_link_closed(events: &[Event], from: u8, at: u8) -> bool
    ensures { result ≡ is_closed from at (reverse events.now) }
{
    let mut closed = false;
    for event in events {
        closed = is_removal_by(event, from, at) || closed;
    }
    closed
}

/// Whether `at` has removed the other node, if that has crashed and `at` has not.
fn is_closed_if_crashed(events: &[Event], from: u8, at: u8) -> bool
    ensures { result ≡ closes (reverse events.now) from at }
{
    is_node_up(events, from) || !is_node_up(events, at) || is_link_closed(events, from, at)
}

fn are_links_closed_from(events: &[Event], nodes: u8, from: u8) -> bool
    ensures { result ≡ closes_all nodes (reverse events.now) from }
{
    let mut closed = true;
    for at in 0..nodes {
        closed = closed && is_closed_if_crashed(events, from, at);
    }
    closed
}

/// Whether each node that is up has removed each node that has crashed.
pub fn are_links_closed(events: &[Event], nodes: u8) -> bool
    ensures { result ≡ all_below (closes_all nodes (reverse events.now)) nodes }
{
    let mut closed = true;
    for from in 0..nodes {
        closed = closed && are_links_closed_from(events, nodes, from);
    }
    closed
}
