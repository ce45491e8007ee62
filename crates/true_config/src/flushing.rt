//! A flush with the publish of its node.
ghost use Rattle.std.specs.Prelude.{◌≡◌, ◌∷◌, IfNone, IfOk, IfSome, IsTrue, OnErr, OnOk};
ghost use Rattle.history_model.specs.declared.events.Event.TheVariants as events;
ghost use Rattle.history_model.specs.Ledgers.{entries_ledger};
ghost use Rattle.delta_graph.specs.Sums.{CountsFit};
ghost use Rattle.actor_states.specs.State.{has_news};
ghost use Rattle.roster.specs.Table.{IsHere, state_at};
ghost use Rattle.bulletin_streams.specs.StreamState.{AreAlike, ChangesAt, Publishes, stream_at};
ghost use Rattle.true_config.specs.Applying.{OnDone, UnlessDone, after, answer_to, answer_to_both};
ghost use Rattle.true_config.specs.Pairs.{PassesAsFlushed, QueuesCopy};
ghost use Rattle.true_config.specs.Steps.{Adds, MayFollow};

use crate::World;
use crate::applied::{Applied, Told};
use crate::both::{push_both, take_back_both};
use crate::track::Track;
use bulletin_streams::BulletinStreams;
use crgc_ids::{ActorId, MOST_EVENTS, NoMemory, Which};
use history_model::Event;
use roster::Roster;

impl World {
    /// A flush and the publish of its node, or what hinders them.
    pub(crate) fn flush_and_publish(&mut self, actor: ActorId) -> Result<Applied, NoMemory>
        ensures answer { IfOk result (λ x. x ≡ answer_to_both self.old.cluster (events.Flush actor) (events.Publish actor.node) self.old.past) }
        ensures done { OnDone result (Adds (events.Publish actor.node) (after (events.Flush actor) self.old) self.new) }
        ensures unless { UnlessDone result (self.new ≡ self.old) }
    {
        let Ok(hindrance) = self.hindrance(&Event::Flush { actor }) else {
            return Err(NoMemory);
        };
        if let Some(answer) = hindrance {
            return Ok(answer);
        }
        self.publish_flushed(actor)
    }

    /// The log of an actor joins the queue of its node, and the queue becomes a bulletin; or the answer is what hinders that.
    fn publish_flushed(&mut self, actor: ActorId) -> Result<Applied, NoMemory>
        requires { MayFollow (events.Flush actor) self.old }
        ensures answer { IfOk result (λ x. x ≡ answer_to self.old.cluster (events.Publish actor.node) (events.Flush actor ∷ self.old.past)) }
        ensures done { OnDone result (Adds (events.Publish actor.node) (after (events.Flush actor) self.old) self.new) }
        ensures unless { UnlessDone result (self.new ≡ self.old) }
    {
        let Ok(()) = enqueue_copy(&mut self.streams, &self.roster, actor) else {
            return Err(NoMemory);
        };
        match publish_queue(&mut self.streams, &mut self.history, actor) {
            Ok(None) => {
                self.roster.flush(actor);
                Ok(Applied::Done(Told::Plain))
            }
            Ok(Some(which)) => {
                self.streams.take_back(actor.node());
                Ok(Applied::Limit(which))
            }
            Err(_) => {
                self.streams.take_back(actor.node());
                Err(NoMemory)
            }
        }
    }
}

/// The entry that the flush of the actor would give comes last into the queue of its node, and stays in the actor's log. After
/// `NoMemory` all is as before.
fn enqueue_copy(
    streams: &mut BulletinStreams,
    roster: &Roster,
    actor: ActorId,
) -> Result<(), NoMemory>
    requires here { IsHere roster.now actor }
    requires due { IsTrue (has_news (state_at roster.now actor)) }
    requires whose { (state_at roster.now actor).log.actor ≡ actor }
    ensures ok { OnOk result (QueuesCopy streams.old streams.new (state_at roster.now actor)) }
    ensures err { OnErr result (AreAlike streams.old streams.new) }
{
    let Ok(()) = streams.reserve_entry(actor.node()) else {
        return Err(NoMemory);
    };
    let Ok(entry) = roster.copy_entry(actor) else {
        return Err(NoMemory);
    };
    streams.enqueue(entry);
    Ok(())
}

/// The queue of the actor's node, in which its entry is last, becomes a bulletin, and the history has both events; or the answer
/// is the limit that this would pass. After any answer but None, and after `NoMemory`, all is as before.
fn publish_queue(
    streams: &mut BulletinStreams,
    history: &mut Track,
    actor: ActorId,
) -> Result<Option<Which>, NoMemory>
    requires fits { CountsFit (entries_ledger (stream_at streams.old actor.node).entries) }
    ensures cluster { history.new.cluster ≡ history.old.cluster }
    ensures limit { IfOk result (PassesAsFlushed streams.old history.old.past actor) }
    ensures done { IfOk result (λ x. IfNone x (ChangesAt streams.old streams.new actor.node (Publishes actor.node))) }
    ensures past { IfOk result (λ x. IfNone x (history.new.past ≡ events.Publish actor.node ∷ events.Flush actor ∷ history.old.past)) }
    ensures over { IfOk result (λ x. IfSome x (λ _. AreAlike streams.old streams.new × (history.new.past ≡ history.old.past))) }
    ensures err { OnErr result (AreAlike streams.old streams.new × (history.new.past ≡ history.old.past)) }
{
    let node = actor.node();
    let Ok(over) = streams.names_too_many(node) else {
        return Err(NoMemory);
    };
    if over {
        return Ok(Some(Which::Delta));
    }
    if history.len() >= MOST_EVENTS as usize - 1 {
        return Ok(Some(Which::Events));
    }
    let Ok(()) = push_both(history, Event::Flush { actor }, Event::Publish { node }) else {
        return Err(NoMemory);
    };
    match streams.publish(node) {
        Ok(()) => Ok(None),
        Err(_) => {
            take_back_both(history);
            Err(NoMemory)
        }
    }
}
