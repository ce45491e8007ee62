//! The queues and streams of nodes after a list of events, the oldest first, and what was handed of the streams.
ghost use Rattle.std.specs.Prelude.{◌≡◌, ◌≤◌, ◌+◌, ◌∷◌, not, length, reverse};
ghost use Rattle.std.specs.List.{list_any};
ghost use Rattle.history_model.specs.Cluster.{Cluster};
ghost use Rattle.history_model.specs.Folds.{is_hand, was_handed};
ghost use Rattle.history_model.specs.Streams.{is_blank, queue, stream};
ghost use Rattle.history_model.specs.Tally.{tally};
ghost use Rattle.quiet_check.specs.Plain.{all_below, is_folded, is_handed_whole, is_told_by, leaves_entry};

use crate::constants::Constants;
use crate::nodes::is_node_up;
use history_model::Event;

fn queued_after(
    cluster: Constants,
    event: &Event,
    earlier: &[Event],
    node: u8,
    before: bool,
) -> bool
    requires { before ≡ not (is_blank (queue cluster node (reverse earlier.now))) }
    ensures { result ≡ not (is_blank (queue cluster node (event.now ∷ reverse earlier.now))) }
{
    let _cluster = cluster;
    match event {
        Event::Flush { actor } => actor.node().get() == node || before,
        Event::Publish { node: n } => n.get() != node && before,
        _ => before,
    }
}

/// Whether an actor of the node was flushed since the node's last publish.
fn has_queue(cluster: Constants, events: &[Event], node: u8) -> bool
    ensures { result ≡ not (is_blank (queue cluster node (reverse events.now))) }
{
    let mut queued = false;
    for (i, event) in events.iter().enumerate() {
        queued = queued_after(cluster, event, &events[..i], node, queued);
    }
    queued
}

/// Whether the event is a flush on a node that is up, whose queue is not empty.
fn is_left_in_queue(cluster: Constants, events: &[Event], event: &Event) -> bool
    ensures { result ≡ leaves_entry cluster (reverse events.now) event.now }
{
    match event {
        Event::Flush { actor } => {
            let node = actor.node().get();
            is_node_up(events, node) && has_queue(cluster, events, node)
        }
        _ => false,
    }
}

/// Whether some node that is up has entries that it did not publish. Quadratic time.
pub fn has_entries(cluster: Constants, events: &[Event]) -> bool
    ensures { result ≡ list_any (leaves_entry cluster (reverse events.now)) (reverse events.now) }
{
    let mut left = false;
    for event in events {
        left = is_left_in_queue(cluster, events, event) || left;
    }
    left
}

fn tells(event: &Event, node: u8) -> bool
    ensures { result ≡ is_told_by node event.now }
{
    match event {
        Event::Publish { node: n } => n.get() == node,
        Event::Window { at, .. } | Event::Remove { at, .. } => at.get() == node,
        _ => false,
    }
}

/// How many bulletins the node's stream has.
fn told_by(events: &[Event], node: u8) -> usize
    ensures value { result ≡ tally (is_told_by node) (reverse events.now) }
    ensures bound { result ≤ length events.now }
{
    let mut told = 0;
    for event in events {
        if tells(event, node) {
            told += 1;
        }
    }
    told
}

fn is_handed(event: &Event, to: u8, origin: u8, number: usize) -> bool
    ensures { result ≡ is_hand to origin number event.now }
{
    match event {
        Event::Hand {
            to: t,
            origin: o,
            number: k,
        } => t.get() == to && o.get() == origin && *k as usize == number,
        _ => false,
    }
}

fn was_handed_to(events: &[Event], to: u8, origin: u8, number: usize) -> bool
    ensures { result ≡ was_handed to origin number (reverse events.now) }
{
    let mut handed = false;
    for event in events {
        handed = is_handed(event, to, origin, number) || handed;
    }
    handed
}

/// Whether each bulletin of the origin was handed to the node. Quadratic time.
fn was_all_handed(events: &[Event], to: u8, origin: u8) -> bool
    ensures { result ≡ is_handed_whole to (reverse events.now) origin }
{
    let mut handed = true;
    for number in 0..told_by(events, origin) {
        handed = handed && was_handed_to(events, to, origin, number);
    }
    handed
}

/// Whether each bulletin of each node that is up was handed to the node. Quadratic time.
pub fn are_streams_folded(events: &[Event], nodes: u8, to: u8) -> bool
    ensures { result ≡ all_below (is_folded to (reverse events.now)) nodes }
{
    let mut folded = true;
    for origin in 0..nodes {
        folded = folded && (!is_node_up(events, origin) || was_all_handed(events, to, origin));
    }
    folded
}
