//! The events by which actors take their messages and rest.
ghost use Rattle.std.specs.Prelude.{◌≡◌, IfOk, OnErr, OnOk, Some, slice_get};
ghost use Rattle.std.specs.Option.{option_map};
ghost use Rattle.history_model.specs.declared.events.Event.TheVariants as events;
ghost use Rattle.history_model.specs.Messages.{Message, waiting};
ghost use Rattle.true_config.specs.Steps.{Adds, MayFollow};

use crate::World;
use crgc_ids::{ActorId, NoMemory, RefList};
use history_model::Event;

impl World {
    /// An idle actor becomes busy with its first waiting message, whose references are the answer: it holds them from now on.
    /// After `NoMemory` all is as before.
    pub(crate) fn take(&mut self, actor: ActorId) -> Result<RefList, NoMemory>
        requires { MayFollow (events.Take actor) self.old }
        ensures refs { IfOk result (λ refs. option_map (λ (m : Message). m.refs) (slice_get (waiting actor self.old.past) 0) ≡ Some refs) }
        ensures ok { OnOk result (Adds (events.Take actor) self.old self.new) }
        ensures err { OnErr result (self.new ≡ self.old) }
    {
        let Ok(()) = self.history.push(Event::Take { actor }) else {
            return Err(NoMemory);
        };
        let refs = self.traffic.first(actor).unwrap();
        let Ok(()) = self.roster.take(actor, refs.as_slice()) else {
            self.history.take_back();
            return Err(NoMemory);
        };
        Ok(self.traffic.take(actor))
    }

    /// A busy actor becomes idle. After `NoMemory` all is as before.
    pub(crate) fn rest(&mut self, actor: ActorId) -> Result<(), NoMemory>
        requires { MayFollow (events.Rest actor) self.old }
        ensures ok { OnOk result (Adds (events.Rest actor) self.old self.new) }
        ensures err { OnErr result (self.new ≡ self.old) }
    {
        let Ok(()) = self.history.push(Event::Rest { actor }) else {
            return Err(NoMemory);
        };
        let Ok(()) = self.traffic.rest(actor) else {
            self.history.take_back();
            return Err(NoMemory);
        };
        let Ok(()) = self.roster.rest(actor) else {
            self.traffic.wake(actor);
            self.history.take_back();
            return Err(NoMemory);
        };
        Ok(())
    }
}
