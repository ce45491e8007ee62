//! What actors have still to tell after a list of events, the oldest first.
ghost use Rattle.std.specs.Prelude.{◌≡◌, ◌==◌, ◌&&◌, ◌||◌, ◌∷◌, not, reverse};
ghost use Rattle.history_model.specs.Cluster.{newborn, same_actor};
ghost use Rattle.history_model.specs.Facts.{notes};
ghost use Rattle.history_model.specs.Streams.{are_flags, can_flush, facts_by, flushed_flags, is_blank, is_flush_of, log};

use crate::actors::{is_busy_now, is_next_born, is_root_now};
use crate::constants::{Constants, is_same};
use crgc_ids::ActorId;
use history_model::Event;

/// Whether a spawn notes anything in the actor's log: in the child's, and in version 2 in the parent's.
fn is_noted_at_spawn(cluster: Constants, parent: ActorId, earlier: &[Event], actor: ActorId) -> bool
    ensures { result ≡ (same_actor (newborn parent.node (reverse earlier.now)) actor || ((cluster.version == 2) && same_actor parent actor)) }
{
    is_next_born(earlier, parent.node(), actor)
        || (cluster.version() == 2 && is_same(parent, actor))
}

/// Whether the event notes anything in the actor's log.
fn is_noted(cluster: Constants, event: &Event, earlier: &[Event], actor: ActorId) -> bool
    ensures { result ≡ not (is_blank (facts_by actor (notes cluster event.now (reverse earlier.now)))) }
{
    match event {
        Event::Seed { node } => is_next_born(earlier, *node, actor),
        Event::Tie { target, .. } => is_same(*target, actor),
        Event::Take { actor: a } | Event::Drop { actor: a, .. } => is_same(*a, actor),
        Event::Send { from, .. } => is_same(*from, actor),
        Event::Spawn { parent } => is_noted_at_spawn(cluster, *parent, earlier, actor),
        _ => false,
    }
}

fn is_flush(event: &Event, actor: ActorId) -> bool
    ensures { result ≡ is_flush_of actor event.now }
{
    match event {
        Event::Flush { actor: a } => is_same(*a, actor),
        _ => false,
    }
}

fn logged_after(
    cluster: Constants,
    event: &Event,
    earlier: &[Event],
    actor: ActorId,
    before: bool,
) -> bool
    requires { before ≡ not (is_blank (log cluster actor (reverse earlier.now))) }
    ensures { result ≡ not (is_blank (log cluster actor (event.now ∷ reverse earlier.now))) }
{
    !is_flush(event, actor) && (is_noted(cluster, event, earlier, actor) || before)
}

/// Whether the actor noted anything since its last flush. Quadratic time.
fn has_log(cluster: Constants, events: &[Event], actor: ActorId) -> bool
    ensures { result ≡ not (is_blank (log cluster actor (reverse events.now))) }
{
    let mut logged = false;
    for (i, event) in events.iter().enumerate() {
        logged = logged_after(cluster, event, &events[..i], actor, logged);
    }
    logged
}

fn flushed_after(
    event: &Event,
    earlier: &[Event],
    actor: ActorId,
    busy: bool,
    root: bool,
    before: bool,
) -> bool
    requires { before ≡ are_flags (flushed_flags actor (reverse earlier.now)) (record { busy = busy; root = root }) }
    ensures { result ≡ are_flags (flushed_flags actor (event.now ∷ reverse earlier.now)) (record { busy = busy; root = root }) }
{
    if is_flush(event, actor) {
        is_busy_now(earlier, actor) == busy && is_root_now(earlier, actor) == root
    } else {
        before
    }
}

/// Whether the actor was flushed, the last time with these flags. Cubic time.
fn was_flushed_as(events: &[Event], actor: ActorId, busy: bool, root: bool) -> bool
    ensures { result ≡ are_flags (flushed_flags actor (reverse events.now)) (record { busy = busy; root = root }) }
{
    let mut same = false;
    for (i, event) in events.iter().enumerate() {
        same = flushed_after(event, &events[..i], actor, busy, root, same);
    }
    same
}

/// Whether the actor can be flushed. Cubic time.
pub fn may_flush(cluster: Constants, events: &[Event], actor: ActorId) -> bool
    ensures { result ≡ can_flush cluster actor (reverse events.now) }
{
    let busy = is_busy_now(events, actor);
    let root = is_root_now(events, actor);
    has_log(cluster, events, actor) || !was_flushed_as(events, actor, busy, root)
}
