//! The actors after a list of events, the oldest first. Each function is linear in the events, and quadratic where births are
//! among them.
ghost use Rattle.std.specs.Prelude.{◌≡◌, ◌≤◌, [], ◌∷◌, ◌++◌, length, reverse, IfOk, OnOk};
ghost use Rattle.history_model.specs.Cluster.{births, is_birth_on, is_born, newborn, same_actor};
ghost use Rattle.history_model.specs.State.{is_busy, is_root};
ghost use Rattle.quiet_check.specs.Plain.{owners, owners_by};

use crate::constants::is_same;
use crgc_ids::{ActorId, MOST_ACTORS, NodeId};
use history_model::Event;
use std::alloc::{AllocError, Global};

fn is_birth(event: &Event, node: NodeId) -> bool
    ensures { result ≡ is_birth_on node event.now }
{
    match event {
        Event::Seed { node: n } => n.get() == node.get(),
        Event::Spawn { parent } => parent.node().get() == node.get(),
        _ => false,
    }
}

/// How many actors were born on the node.
fn births_on(events: &[Event], node: NodeId) -> usize
    ensures value { result ≡ births node (reverse events.now) }
    ensures bound { result ≤ length events.now }
{
    let mut born = 0;
    for event in events {
        if is_birth(event, node) {
            born += 1;
        }
    }
    born
}

/// Whether the actor was born.
pub fn was_born(events: &[Event], actor: ActorId) -> bool
    ensures { result ≡ is_born actor (reverse events.now) }
{
    (actor.serial() as usize) < births_on(events, actor.node())
}

/// Whether the next birth on the node gives the actor.
pub fn is_next_born(events: &[Event], node: NodeId, actor: ActorId) -> bool
    ensures { result ≡ same_actor (newborn node (reverse events.now)) actor }
{
    node.get() == actor.node().get() && births_on(events, node) == actor.serial() as usize
}

/// The actor that the next birth on the node gives. Past the greatest serial, which no history within its limits
/// reaches, there is none to keep.
fn next_born(events: &[Event], node: NodeId) -> Result<ActorId, AllocError>
    ensures { IfOk result (λ a. a ≡ newborn node (reverse events.now)) }
{
    let serial = births_on(events, node);
    if serial >= MOST_ACTORS as usize {
        return Err(AllocError);
    }
    ActorId::new(node, serial as u32).ok_or(AllocError)
}

fn busy_after(event: &Event, earlier: &[Event], actor: ActorId, before: bool) -> bool
    requires { before ≡ is_busy actor (reverse earlier.now) }
    ensures { result ≡ is_busy actor (event.now ∷ reverse earlier.now) }
{
    match event {
        Event::Wake { actor: a } | Event::Take { actor: a } => is_same(*a, actor) || before,
        Event::Rest { actor: a } => !is_same(*a, actor) && before,
        _ => before,
    }
}

/// Whether the actor is busy.
pub fn is_busy_now(events: &[Event], actor: ActorId) -> bool
    ensures { result ≡ is_busy actor (reverse events.now) }
{
    let mut busy = false;
    for (i, event) in events.iter().enumerate() {
        busy = busy_after(event, &events[..i], actor, busy);
    }
    busy
}

fn root_after(event: &Event, earlier: &[Event], actor: ActorId, before: bool) -> bool
    requires { before ≡ is_root actor (reverse earlier.now) }
    ensures { result ≡ is_root actor (event.now ∷ reverse earlier.now) }
{
    match event {
        Event::Seed { node } => is_next_born(earlier, *node, actor) || before,
        Event::Retire { actor: a } => !is_same(*a, actor) && before,
        _ => before,
    }
}

/// Whether the actor is a root.
pub fn is_root_now(events: &[Event], actor: ActorId) -> bool
    ensures { result ≡ is_root actor (reverse events.now) }
{
    let mut root = false;
    for (i, event) in events.iter().enumerate() {
        root = root_after(event, &events[..i], actor, root);
    }
    root
}

fn put(actors: &mut Vec<ActorId>, actor: ActorId) -> Result<(), AllocError>
    ensures { OnOk result (actors.new.items ≡ actors.old.items ++ actor ∷ []) }
{
    actors.push(actor)?;
    Ok(())
}

fn put_both(actors: &mut Vec<ActorId>, first: ActorId, second: ActorId) -> Result<(), AllocError>
    ensures { OnOk result (actors.new.items ≡ actors.old.items ++ first ∷ second ∷ []) }
{
    put(actors, first)?;
    put(actors, second)
}

/// Adds the actors that the event brings into being, gives a reference or lets take a message.
fn add_owners(actors: &mut Vec<ActorId>, event: &Event, earlier: &[Event]) -> Result<(), AllocError>
    ensures { OnOk result (actors.new.items ≡ actors.old.items ++ owners_by event.now (reverse earlier.now)) }
{
    match event {
        Event::Seed { node } => put(actors, next_born(earlier, *node)?),
        Event::Tie { owner: actor, .. } | Event::Take { actor } => put(actors, *actor),
        Event::Spawn { parent } => put_both(actors, *parent, next_born(earlier, parent.node())?),
        _ => Ok(()),
    }
}

/// All actors that were ever born, and all that were ever given a reference, with repetitions.
pub fn owners_of(alloc: Global, events: &[Event]) -> Result<Vec<ActorId>, AllocError>
    ensures { IfOk result (λ v. v.items ≡ owners (reverse events.now)) }
{
    let mut actors = Vec::new(alloc);
    for (i, event) in events.iter().enumerate() {
        add_owners(&mut actors, event, &events[..i])?;
    }
    Ok(actors)
}
