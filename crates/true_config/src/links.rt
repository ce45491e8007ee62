//! The events of copies on links.
ghost use Rattle.std.specs.Prelude.{◌≡◌, OnErr, OnOk};
ghost use Rattle.history_model.specs.declared.events.Event.TheVariants as events;
ghost use Rattle.true_config.specs.Steps.{Adds, MayFollow};

use crate::World;
use crgc_ids::{NoMemory, NodeId};
use history_model::Event;

impl World {
    /// One copy of a number on a link is lost. After `NoMemory` all is as before.
    pub(crate) fn lose(&mut self, from: NodeId, at: NodeId, number: u32) -> Result<(), NoMemory>
        requires { MayFollow (events.Lose from at number) self.old }
        ensures ok { OnOk result (Adds (events.Lose from at number) self.old self.new) }
        ensures err { OnErr result (self.new ≡ self.old) }
    {
        let event = Event::Lose { from, at, number };
        let Ok(()) = self.history.push(event) else {
            return Err(NoMemory);
        };
        self.traffic.lose(from, at, number);
        Ok(())
    }

    /// One copy more of a number on a link. After `NoMemory` all is as before.
    pub(crate) fn repeat(&mut self, from: NodeId, at: NodeId, number: u32) -> Result<(), NoMemory>
        requires { MayFollow (events.Repeat from at number) self.old }
        ensures ok { OnOk result (Adds (events.Repeat from at number) self.old self.new) }
        ensures err { OnErr result (self.new ≡ self.old) }
    {
        let event = Event::Repeat { from, at, number };
        let Ok(()) = self.history.push(event) else {
            return Err(NoMemory);
        };
        self.traffic.repeat(from, at, number);
        Ok(())
    }
}
