//! The rules of a send, which names as many actors as it carries references.
ghost use Rattle.std.specs.Prelude.{◌≡◌, ◌++◌, ◌∷◌, []};
ghost use Rattle.history_model.specs.declared.events.Event.TheVariants.{Send};
ghost use Rattle.history_model.specs.declared.events.Rule.TheVariants.{Idle};
ghost use Rattle.history_model.specs.Legal.{born_all, check, first_broken, held_all, node_up, refusal};
ghost use Rattle.history_model.specs.State.{is_busy};

use crate::actors::{is_held, is_node_up};
use crate::moment::Moment;
use crgc_ids::{ActorId, RefList};
use history_model::Rule;

/// The first rule that the actors break by not being born.
fn of_unborn<M: Moment>(moment: &M, actors: &[ActorId]) -> Option<Rule>
    ensures { result ≡ first_broken (born_all actors.now (M.story moment.now).past) }
{
    for actor in actors {
        if !moment.is_actor(*actor) {
            return Some(Rule::NoActor);
        }
    }
    None
}

/// The first rule that the actors break by not being held by the owner.
fn of_not_held<M: Moment>(moment: &M, owner: ActorId, actors: &[ActorId]) -> Option<Rule>
    ensures { result ≡ first_broken (held_all (M.story moment.now).cluster owner actors.now (M.story moment.now).past) }
{
    for actor in actors {
        if !is_held(moment, owner, *actor) {
            return Some(Rule::NotHeld);
        }
    }
    None
}

/// What a send asks once its actors were born: the sender's node is up, it is busy, and it holds all that it names.
fn of_sender<M: Moment>(moment: &M, from: ActorId, to: ActorId, refs: &[ActorId]) -> Option<Rule>
    ensures { result ≡ first_broken (
        node_up from.node (M.story moment.now).past ∷ check Idle (is_busy from (M.story moment.now).past)
        ∷ held_all (M.story moment.now).cluster from (to ∷ refs.now) (M.story moment.now).past) }
{
    if !is_node_up(moment, from) {
        return Some(Rule::Down);
    }
    if !moment.is_busy(from) {
        return Some(Rule::Idle);
    }
    if !is_held(moment, from, to) {
        return Some(Rule::NotHeld);
    }
    of_not_held(moment, from, refs)
}

/// The rules of a send. Time in proportion to the references.
pub fn of_send<M: Moment>(moment: &M, from: ActorId, to: ActorId, refs: &RefList) -> Option<Rule>
    ensures { result ≡ refusal (M.story moment.now).cluster (Send from to refs.now) (M.story moment.now).past }
{
    if !moment.is_actor(from) {
        return Some(Rule::NoActor);
    }
    if !moment.is_actor(to) {
        return Some(Rule::NoActor);
    }
    if let Some(rule) = of_unborn(moment, refs.as_slice()) {
        return Some(rule);
    }
    of_sender(moment, from, to, refs.as_slice())
}
