//! The flushes of a round.
ghost use Rattle.std.specs.Prelude.{◌≡◌, ◌+◌, ◌∷◌, ℕ, None, IfErr, OnOk};
ghost use Rattle.history_model.specs.declared.events.Event.TheVariants as events;
ghost use Rattle.history_model.specs.Cluster.{births};
ghost use Rattle.history_model.specs.Legal.{refusal};
ghost use Rattle.run_model.specs.Round.{flushed, flushed_on, flushes, flushes_on, published};
ghost use Rattle.cluster_round.specs.Halting.{IsRoundHalt};
ghost use Rattle.cluster_round.specs.Steps.{actors_flushed};

use crate::halt::RoundHalt;
use crate::trying::{node, try_event};
use cluster_course::Course;
use crgc_ids::{ActorId, NodeId};
use history_model::Event;
use run_model::round_laws::FLUSHES_PER_PUBLISH;

/// Each node that is up flushes its actors that have something to tell, publishes after each 32nd flush, and then what is left. In
/// the time of these events, and logarithmic time in the number of a node's actors for each.
pub(crate) fn flush_all(course: &mut Course) -> Result<(), RoundHalt>
    ensures cluster { course.new.cluster ≡ course.old.cluster }
    ensures ok { OnOk result (course.new.past ≡ flushes course.old.cluster course.old.past) }
    ensures halt { IfErr result (λ h. IsRoundHalt h course.old.cluster (flushes course.old.cluster course.old.past) course.new.past) }
{
    for number in 0..course.nodes() {
        match flush_node(course, node(number)) {
            Ok(()) => {}
            Err(halt) => return Err(halt),
        }
    }
    Ok(())
}

/// One node flushes its actors and publishes what is left.
fn flush_node(course: &mut Course, node: NodeId) -> Result<(), RoundHalt>
    ensures cluster { course.new.cluster ≡ course.old.cluster }
    ensures ok { OnOk result (course.new.past ≡ flushed_on course.old.cluster node course.old.past) }
    ensures halt { IfErr result (λ h. IsRoundHalt h course.old.cluster (flushed_on course.old.cluster node course.old.past) course.new.past) }
{
    match flush_actors(course, node) {
        Ok(()) => {}
        Err(halt) => return Err(halt),
    }
    try_event(course, Event::Publish { node })
}

/// The actors of a node are flushed that have something to tell, in their order. It walks from one such actor to the next.
fn flush_actors(course: &mut Course, node: NodeId) -> Result<(), RoundHalt>
    ensures cluster { course.new.cluster ≡ course.old.cluster }
    ensures ok { OnOk result (course.new.past ≡ actors_flushed course.old.cluster node course.old.past) }
    ensures halt { IfErr result (λ h. IsRoundHalt h course.old.cluster (actors_flushed course.old.cluster node course.old.past) course.new.past) }
{
    let mut after = None;
    let mut count = 0;
    while let Some(actor) = course.world().next_flush(node, after) {
        // As many were flushed as have a lower serial, at most.
        let _serial = actor.serial();
        count += 1;
        match flush(course, actor, count) {
            Ok(()) => {}
            Err(halt) => return Err(halt),
        }
        after = Some(actor);
    }
    Ok(())
}

/// An actor is flushed, the so-manieth of its node in this round; after each 32nd the node publishes.
fn flush(course: &mut Course, actor: ActorId, count: usize) -> Result<(), RoundHalt>
    requires { refusal course.old.cluster (events.Flush actor) course.old.past ≡ None }
    ensures cluster { course.new.cluster ≡ course.old.cluster }
    ensures ok { OnOk result ((past : ℕ) → flushes_on actor.node (events.Flush actor ∷ course.old.past) ≡ past + count
        → course.new.past ≡ flushed course.old.cluster actor.node past actor.serial course.old.past) }
    ensures halt { IfErr result (λ h. (past : ℕ) → flushes_on actor.node (events.Flush actor ∷ course.old.past) ≡ past + count
        → IsRoundHalt h course.old.cluster (flushed course.old.cluster actor.node past actor.serial course.old.past) course.new.past) }
{
    match try_event(course, Event::Flush { actor }) {
        Ok(()) => {}
        Err(halt) => return Err(halt),
    }
    publish_if_due(course, actor.node(), count)
}

/// The node publishes if its flushes in this round are so many that a publish is due.
fn publish_if_due(course: &mut Course, node: NodeId, count: usize) -> Result<(), RoundHalt>
    ensures cluster { course.new.cluster ≡ course.old.cluster }
    ensures ok { OnOk result ((past : ℕ) → flushes_on node course.old.past ≡ past + count
        → course.new.past ≡ published course.old.cluster node past course.old.past) }
    ensures halt { IfErr result (λ h. (past : ℕ) → flushes_on node course.old.past ≡ past + count
        → IsRoundHalt h course.old.cluster (published course.old.cluster node past course.old.past) course.new.past) }
{
    let due = count % FLUSHES_PER_PUBLISH == 0;
    if due {
        return try_event(course, Event::Publish { node });
    }
    Ok(())
}
