//! Quiet points.
ghost use Rattle.std.specs.Prelude.{◌≡◌, ◌↔◌, true, not, reverse, IfOk};
ghost use Rattle.std.specs.List.{list_any};
ghost use Rattle.history_model.specs.Quiescent.{IsQuietPoint};
ghost use Rattle.quiet_check.specs.Plain.{is_plain_quiet_point, is_unflushed, owners};

use crate::actors::{owners_of, was_born};
use crate::constants::Constants;
use crate::links::are_messages_missing;
use crate::logs::may_flush;
use crate::nodes::{are_links_closed, is_node_up};
use crate::streams::{are_streams_folded, has_entries};
use crgc_ids::{ActorId, NoMemory, NodeId};
use history_model::{Event, History};
use std::alloc::{AllocError, Global};

/// Whether the actor was born, on a node that is up, and can be flushed.
fn is_actor_unflushed(cluster: Constants, events: &[Event], actor: ActorId) -> bool
    ensures { result ≡ is_unflushed cluster (reverse events.now) actor }
{
    was_born(events, actor)
        && is_node_up(events, actor.node().get())
        && may_flush(cluster, events, actor)
}

fn are_actors_unflushed(
    alloc: Global,
    cluster: Constants,
    events: &[Event],
) -> Result<bool, AllocError>
    ensures { IfOk result (λ b. b ≡ list_any (is_unflushed cluster (reverse events.now)) (owners (reverse events.now))) }
{
    let owners = owners_of(alloc, events)?;
    Ok(
        owners
            .iter()
            .any(|a| is_actor_unflushed(cluster, events, *a)),
    )
}

fn is_quiet(
    alloc: Global,
    cluster: Constants,
    events: &[Event],
    node: u8,
) -> Result<bool, AllocError>
    ensures { IfOk result (λ b. b ≡ is_plain_quiet_point cluster node (reverse events.now)) }
{
    let unflushed = are_actors_unflushed(alloc, cluster, events)?;
    Ok(
        is_node_up(events, node)
            && are_links_closed(events, cluster.nodes())
            && !unflushed
            && !has_entries(cluster, events)
            && are_streams_folded(events, cluster.nodes(), node)
            && !are_messages_missing(events),
    )
}

/// Whether nothing is left to tell at the node: the moment is a quiet point of it. The fourth power of the number of events.
/// The answer is `NoMemory` too where the history is past its limits: more actors on a node than serials.
pub fn is_quiet_point(alloc: Global, history: &History, node: NodeId) -> Result<bool, NoMemory>
    ensures { IfOk result (λ b. (b ≡ true) ↔ IsQuietPoint history.now.cluster node history.now.past) }
{
    let events = history.to_vec(alloc)?;
    match is_quiet(alloc, Constants::of(history), events.as_slice(), node.get()) {
        Ok(quiet) => Ok(quiet),
        Err(_) => Err(NoMemory),
    }
}
