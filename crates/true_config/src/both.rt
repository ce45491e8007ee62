//! Two events at once.
ghost use Rattle.std.specs.Prelude.{◌≡◌, ◌∷◌, drop, IfOk, OnErr, OnOk};
ghost use Rattle.history_model.specs.declared.events.Event.TheVariants as events;
ghost use Rattle.true_config.specs.Applying.{OnDone, UnlessDone, after, answer_to_both};
ghost use Rattle.true_config.specs.Pairs.{ArePaired};
ghost use Rattle.true_config.specs.Promises.{StoppedAreQuiescent};
ghost use Rattle.true_config.specs.Steps.{Adds, MayFollow};

use crate::World;
use crate::applied::{Applied, Told};
use crate::track::Track;
use crgc_ids::{ActorId, MOST_EVENTS, NoMemory, Which};
use history_model::Event;

impl World {
    /// A rest and the crash of its node, or a flush and the publish of its node: both happen, or the answer is what hinders the
    /// first, or else what hinders the second after the first. Every stopped actor stays quiescent. After any answer but `Done`,
    /// and after `NoMemory`, all is as before. In the time of both by `apply`.
    pub fn apply_both(&mut self, first: &Event, second: &Event) -> Result<Applied, NoMemory>
        requires { ArePaired first.now second.now }
        ensures answer { IfOk result (λ x. x ≡ answer_to_both self.old.cluster first.now second.now self.old.past) }
        ensures done { OnDone result (Adds second.now (after first.now self.old) self.new) }
        ensures unless { UnlessDone result (self.new ≡ self.old) }
        ensures stable { StoppedAreQuiescent self.new }
    {
        let result = self.both_if_possible(first, second);
        self.is_lawful();
        result
    }

    /// The two events, or what hinders them.
    fn both_if_possible(&mut self, first: &Event, second: &Event) -> Result<Applied, NoMemory>
        requires { ArePaired first.now second.now }
        ensures answer { IfOk result (λ x. x ≡ answer_to_both self.old.cluster first.now second.now self.old.past) }
        ensures done { OnDone result (Adds second.now (after first.now self.old) self.new) }
        ensures unless { UnlessDone result (self.new ≡ self.old) }
    {
        match (first, second) {
            (Event::Rest { actor }, Event::Crash { .. }) => self.rest_and_crash(*actor),
            (Event::Flush { actor }, Event::Publish { .. }) => self.flush_and_publish(*actor),
            _ => unreachable!(),
        }
    }

    /// A rest and the crash of its node, or what hinders them.
    fn rest_and_crash(&mut self, actor: ActorId) -> Result<Applied, NoMemory>
        ensures answer { IfOk result (λ x. x ≡ answer_to_both self.old.cluster (events.Rest actor) (events.Crash actor.node) self.old.past) }
        ensures done { OnDone result (Adds (events.Crash actor.node) (after (events.Rest actor) self.old) self.new) }
        ensures unless { UnlessDone result (self.new ≡ self.old) }
    {
        let Ok(hindrance) = self.hindrance(&Event::Rest { actor }) else {
            return Err(NoMemory);
        };
        if let Some(answer) = hindrance {
            return Ok(answer);
        }
        if self.history.len() >= MOST_EVENTS as usize - 1 {
            return Ok(Applied::Limit(Which::Events));
        }
        match self.crash_at_rest(actor) {
            Ok(()) => Ok(Applied::Done(Told::Plain)),
            Err(_) => Err(NoMemory),
        }
    }

    /// A busy actor becomes idle, and then its node stops for good. After `NoMemory` all is as before.
    fn crash_at_rest(&mut self, actor: ActorId) -> Result<(), NoMemory>
        requires rest { MayFollow (events.Rest actor) self.old }
        requires crash { MayFollow (events.Crash actor.node) (after (events.Rest actor) self.old) }
        ensures ok { OnOk result (Adds (events.Crash actor.node) (after (events.Rest actor) self.old) self.new) }
        ensures err { OnErr result (self.new ≡ self.old) }
    {
        let node = actor.node();
        let Ok(()) = push_both(
            &mut self.history,
            Event::Rest { actor },
            Event::Crash { node },
        ) else {
            return Err(NoMemory);
        };
        let Ok(()) = self.traffic.rest(actor) else {
            take_back_both(&mut self.history);
            return Err(NoMemory);
        };
        let Ok(()) = self.roster.rest(actor) else {
            self.traffic.wake(actor);
            take_back_both(&mut self.history);
            return Err(NoMemory);
        };
        self.traffic.crash(node);
        self.roster.crash(node);
        Ok(())
    }
}

/// Puts two events last, or, after `NoMemory`, none of them.
pub(crate) fn push_both(history: &mut Track, first: Event, second: Event) -> Result<(), NoMemory>
    ensures cluster { history.new.cluster ≡ history.old.cluster }
    ensures ok { OnOk result (history.new.past ≡ second ∷ first ∷ history.old.past) }
    ensures err { OnErr result (history.new.past ≡ history.old.past) }
{
    history.push(first)?;
    let Ok(()) = history.push(second) else {
        history.take_back();
        return Err(NoMemory);
    };
    Ok(())
}

/// Takes the last two events back.
pub(crate) fn take_back_both(history: &mut Track)
    ensures cluster { history.new.cluster ≡ history.old.cluster }
    ensures past { history.new.past ≡ drop 1 (drop 1 history.old.past) }
{
    history.take_back();
    history.take_back();
}
