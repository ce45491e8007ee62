//! The references that actors hold after a list of events, the oldest first. Each function is quadratic in the events, unless it says
//! more.
ghost use Rattle.std.specs.Prelude.{◌≡◌, ◌+◌, ◌*◌, ◌≤◌, ◌∷◌, ◌&&◌, ◌==◌, nat_lt, take, if◌then◌else◌, length, reverse};
ghost use Rattle.history_model.specs.declared.events.Event.TheVariants.{Spawn};
ghost use Rattle.history_model.specs.Cluster.{same_actor, newborn};
ghost use Rattle.history_model.specs.Facts.{notes};
ghost use Rattle.history_model.specs.Held.{carried, gave, gifts, held, is_drop_of, is_note_of};
ghost use Rattle.history_model.specs.Messages.{mail, taken};
ghost use Rattle.history_model.specs.Tally.{tally};
ghost use Rattle.quiet_check.specs.Plain.{brings, carrying};

use crate::actors::is_next_born;
use crate::constants::{Constants, is_same};
use crate::messages::{Carrying, admitted_message, mail_to, takes_by};
use crgc_ids::{ActorId, NodeId};
use history_model::Event;

fn count_if(test: bool) -> u128
    ensures { result ≡ (if test then 1 else 0) }
{
    if test { 1 } else { 0 }
}

/// Whether the next birth on the node gives an actor that is both.
fn is_own_birth(earlier: &[Event], node: NodeId, owner: ActorId, target: ActorId) -> bool
    ensures { result ≡ (same_actor (newborn node (reverse earlier.now)) owner && same_actor (newborn node (reverse earlier.now)) target) }
{
    is_next_born(earlier, node, owner) && is_next_born(earlier, node, target)
}

/// Whether the next birth by the spawner is the child of the parent.
fn is_birth_by(spawner: ActorId, earlier: &[Event], parent: ActorId, child: ActorId) -> bool
    ensures { result ≡ (same_actor spawner parent && same_actor (newborn spawner.node (reverse earlier.now)) child) }
{
    is_same(spawner, parent) && is_next_born(earlier, spawner.node(), child)
}

/// Whether the next birth by the spawner makes a reference from the child to the parent: in version 2 it does.
fn is_supervised_birth(
    cluster: Constants,
    spawner: ActorId,
    earlier: &[Event],
    child: ActorId,
    parent: ActorId,
) -> bool
    ensures { result ≡ ((cluster.version == 2) && (same_actor (newborn spawner.node (reverse earlier.now)) child && same_actor spawner parent)) }
{
    cluster.version() == 2
        && is_next_born(earlier, spawner.node(), child)
        && is_same(spawner, parent)
}

/// How many references to the target the birth by spawn gives the owner.
fn spawn_gifts(
    cluster: Constants,
    parent: ActorId,
    earlier: &[Event],
    owner: ActorId,
    target: ActorId,
) -> u128
    ensures value { result ≡ tally (is_note_of owner target) (notes cluster (Spawn parent) (reverse earlier.now)) }
    ensures bound { result ≤ 3 }
{
    count_if(is_own_birth(earlier, parent.node(), owner, target))
        + count_if(is_birth_by(parent, earlier, owner, target))
        + count_if(is_supervised_birth(cluster, parent, earlier, owner, target))
}

fn is_pair(from: ActorId, to: ActorId, owner: ActorId, target: ActorId) -> bool
    ensures { result ≡ (same_actor from owner && same_actor to target) }
{
    is_same(from, owner) && is_same(to, target)
}

/// How many references to the target the events gave the owner, where `before` were given by the earlier ones.
fn gifts_after(
    cluster: Constants,
    event: &Event,
    earlier: &[Event],
    owner: ActorId,
    target: ActorId,
    before: u128,
) -> u128
    requires before { before ≡ gifts cluster owner target (reverse earlier.now) }
    requires bound { before ≤ 3 * length earlier.now }
    ensures value { result ≡ gifts cluster owner target (event.now ∷ reverse earlier.now) }
    ensures bound { result ≤ before + 3 }
{
    match event {
        Event::Seed { node } => before + count_if(is_own_birth(earlier, *node, owner, target)),
        Event::Spawn { parent } => before + spawn_gifts(cluster, *parent, earlier, owner, target),
        Event::Tie {
            owner: o,
            target: t,
        } => before + count_if(is_pair(*o, *t, owner, target)),
        _ => before,
    }
}

fn gifts_to(cluster: Constants, events: &[Event], owner: ActorId, target: ActorId) -> u128
    ensures { result ≡ gifts cluster owner target (reverse events.now) }
{
    let mut given = 0;
    for (i, event) in events.iter().enumerate() {
        given = gifts_after(cluster, event, &events[..i], owner, target, given);
    }
    given
}

fn is_release(event: &Event, owner: ActorId, target: ActorId) -> bool
    ensures { result ≡ is_drop_of owner target event.now }
{
    match event {
        Event::Drop {
            actor,
            target: dropped,
        } => is_pair(*actor, *dropped, owner, target),
        _ => false,
    }
}

fn drops_by(events: &[Event], owner: ActorId, target: ActorId) -> usize
    ensures { result ≡ gave owner target (reverse events.now) }
{
    let mut dropped = 0;
    for event in events {
        if is_release(event, owner, target) {
            dropped += 1;
        }
    }
    dropped
}

/// How many references a take of the message gives the owner, which takes `limit` messages, where it is admitted after the
/// earlier events.
fn references_brought(
    message: Option<Carrying>,
    owner: ActorId,
    earlier: &[Event],
    limit: usize,
) -> usize
    ensures { result ≡ brings owner (length (mail owner (reverse earlier.now))) limit message }
{
    match message {
        Some(found) => {
            if is_same(found.to, owner) && mail_to(earlier, owner) < limit {
                found.refs
            } else {
                0
            }
        }
        None => 0,
    }
}

/// How many references to the target the first `limit` messages to the owner carry, where `before` were in those admitted
/// earlier.
fn carried_after(
    event: &Event,
    earlier: &[Event],
    owner: ActorId,
    target: ActorId,
    limit: usize,
    before: u128,
) -> u128
    requires before { before ≡ carried target (take limit (mail owner (reverse earlier.now))) }
    requires bound { before ≤ 18446744073709551616 * length earlier.now }
    ensures value { result ≡ carried target (take limit (mail owner (event.now ∷ reverse earlier.now))) }
    ensures bound { result ≤ before + 18446744073709551616 }
{
    let message = admitted_message(event, earlier, target);
    before + references_brought(message, owner, earlier, limit) as u128
}

/// How many references to the target came to the owner in the messages that it took.
fn carried_to(events: &[Event], owner: ActorId, target: ActorId) -> u128
    ensures { result ≡ carried target (taken owner (reverse events.now)) }
{
    let limit = takes_by(events, owner);
    let mut brought = 0;
    for (i, event) in events.iter().enumerate() {
        brought = carried_after(event, &events[..i], owner, target, limit, brought);
    }
    brought
}

/// Whether the owner holds a reference to the target. The fourth power of the number of events at worst.
pub fn is_held_by(cluster: Constants, events: &[Event], owner: ActorId, target: ActorId) -> bool
    ensures { result ≡ nat_lt 0 (held cluster owner target (reverse events.now)) }
{
    let given = gifts_to(cluster, events, owner, target);
    let dropped = drops_by(events, owner, target) as u128;
    if dropped < given {
        return true;
    }
    dropped - given < carried_to(events, owner, target)
}
