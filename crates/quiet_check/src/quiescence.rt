//! Quiescence.
ghost use Rattle.std.specs.Prelude.{◌≡◌, ◌↔◌, true, reverse, IfOk};
ghost use Rattle.std.specs.List.{filter};
ghost use Rattle.history_model.specs.Graph.{holds_actor};
ghost use Rattle.history_model.specs.Quiescent.{IsQuiescent};
ghost use Rattle.quiet_check.specs.Plain.{is_candidate, is_held_within, is_holder, owners, plain_quiescent};

use crate::actors::{is_busy_now, is_root_now, owners_of, was_born};
use crate::constants::{Constants, is_same};
use crate::held::is_held_by;
use crate::messages::is_in_live_message;
use crate::nodes::is_node_up;
use crgc_ids::{ActorId, NoMemory};
use history_model::{Event, History};
use std::alloc::{AllocError, Global};

/// Whether the actor is one of the list.
fn is_in(actors: &[ActorId], actor: ActorId) -> bool
    ensures { result ≡ holds_actor actors.now actor }
{
    actors.iter().any(|a| is_same(*a, actor))
}

/// Whether the actor was born, is idle and no root, and no live message goes to it or carries it.
fn may_be_quiescent(events: &[Event], actor: ActorId) -> bool
    ensures { result ≡ is_candidate (reverse events.now) actor }
{
    was_born(events, actor)
        && !is_busy_now(events, actor)
        && !is_root_now(events, actor)
        && !is_in_live_message(events, actor)
}

/// Whether the owner, on a node that is up, holds the actor.
fn is_holding(cluster: Constants, events: &[Event], actor: ActorId, owner: ActorId) -> bool
    ensures { result ≡ is_holder cluster (reverse events.now) actor owner }
{
    is_node_up(events, owner.node().get()) && is_held_by(cluster, events, owner, actor)
}

/// Whether all that hold the actor on nodes that are up are in the list.
fn is_within(
    cluster: Constants,
    events: &[Event],
    everyone: &[ActorId],
    among: &[ActorId],
    actor: ActorId,
) -> bool
    requires { everyone.now ≡ owners (reverse events.now) }
    ensures { result ≡ is_held_within cluster (reverse events.now) among.now actor }
{
    everyone.iter().all(|b| is_in(among, *b) || !is_holding(cluster, events, actor, *b))
}

fn candidates_of(
    alloc: Global,
    events: &[Event],
    everyone: &[ActorId],
) -> Result<Vec<ActorId>, AllocError>
    requires { everyone.now ≡ owners (reverse events.now) }
    ensures { IfOk result (λ v. v.items ≡ filter (is_candidate (reverse events.now)) (owners (reverse events.now))) }
{
    everyone
        .iter()
        .copied()
        .filter(|a| may_be_quiescent(events, *a))
        .collect(alloc)
}

fn prune_once(
    alloc: Global,
    cluster: Constants,
    events: &[Event],
    everyone: &[ActorId],
    among: &[ActorId],
) -> Result<Vec<ActorId>, AllocError>
    requires { everyone.now ≡ owners (reverse events.now) }
    ensures { IfOk result (λ v. v.items ≡ filter (is_held_within cluster (reverse events.now) among.now) among.now) }
{
    among
        .iter()
        .copied()
        .filter(|a| is_within(cluster, events, everyone, among, *a))
        .collect(alloc)
}

/// The quiescent actors, with repetitions: of those that nobody outside and no message uses, the greatest part that nobody
/// outside the part holds.
fn quiescent_actors(
    alloc: Global,
    cluster: Constants,
    events: &[Event],
) -> Result<Vec<ActorId>, AllocError>
    ensures { IfOk result (λ v. v.items ≡ plain_quiescent cluster (reverse events.now)) }
{
    let everyone = owners_of(alloc, events)?;
    let mut left = candidates_of(alloc, events, everyone.as_slice())?;
    let mut turns = left.len();
    while turns > 0 {
        let pruned = prune_once(alloc, cluster, events, everyone.as_slice(), left.as_slice())?;
        turns = if pruned.len() == left.len() {
            0
        } else {
            turns - 1
        };
        left = pruned;
    }
    Ok(left)
}

fn is_in_quiet_set(
    alloc: Global,
    cluster: Constants,
    events: &[Event],
    actor: ActorId,
) -> Result<bool, AllocError>
    ensures { IfOk result (λ b. b ≡ holds_actor (plain_quiescent cluster (reverse events.now)) actor) }
{
    let quiescent = quiescent_actors(alloc, cluster, events)?;
    Ok(is_in(quiescent.as_slice(), actor))
}

/// Whether the actor is quiescent: some set of actors has it that nobody outside can use, and no member of which acts of
/// itself. The seventh power of the number of events at worst, so for short histories. The answer is `NoMemory` too where
/// the history is past its limits: more actors on a node than serials.
pub fn is_quiescent(alloc: Global, history: &History, actor: ActorId) -> Result<bool, NoMemory>
    ensures { IfOk result (λ b. (b ≡ true) ↔ IsQuiescent history.now.cluster history.now.past actor) }
{
    let events = history.to_vec(alloc)?;
    match is_in_quiet_set(alloc, Constants::of(history), events.as_slice(), actor) {
        Ok(quiescent) => Ok(quiescent),
        Err(_) => Err(NoMemory),
    }
}
