//! The events by which nodes tell, but for publications: flushes, windows, removals, and the hands of bulletins.
ghost use Rattle.std.specs.Prelude.{◌≡◌, OnErr, OnOk};
ghost use Rattle.history_model.specs.declared.events.Event.TheVariants as events;
ghost use Rattle.true_config.specs.Steps.{Adds, MayFollow};

use crate::World;
use crgc_ids::{ActorId, NoMemory, NodeId};
use history_model::Event;

impl World {
    /// A bulletin comes to the collector of a node. After `NoMemory` all is as before.
    pub(crate) fn hand(&mut self, to: NodeId, origin: NodeId, number: u32) -> Result<(), NoMemory>
        requires { MayFollow (events.Hand to origin number) self.old }
        ensures ok { OnOk result (Adds (events.Hand to origin number) self.old self.new) }
        ensures err { OnErr result (self.new ≡ self.old) }
    {
        let event = Event::Hand { to, origin, number };
        let Ok(()) = self.history.push(event) else {
            return Err(NoMemory);
        };
        Ok(())
    }

    /// The log of an actor joins the queue of its node. After `NoMemory` all is as before.
    pub(crate) fn flush(&mut self, actor: ActorId) -> Result<(), NoMemory>
        requires { MayFollow (events.Flush actor) self.old }
        ensures ok { OnOk result (Adds (events.Flush actor) self.old self.new) }
        ensures err { OnErr result (self.new ≡ self.old) }
    {
        let Ok(()) = self.streams.reserve_entry(actor.node()) else {
            return Err(NoMemory);
        };
        let Ok(()) = self.history.push(Event::Flush { actor }) else {
            return Err(NoMemory);
        };
        let entry = self.roster.flush(actor);
        self.streams.enqueue(entry);
        Ok(())
    }

    /// What was admitted on a link since its last window becomes a bulletin. After `NoMemory` all is as before.
    pub(crate) fn window(&mut self, at: NodeId, from: NodeId) -> Result<(), NoMemory>
        requires { MayFollow (events.Window at from) self.old }
        ensures ok { OnOk result (Adds (events.Window at from) self.old self.new) }
        ensures err { OnErr result (self.new ≡ self.old) }
    {
        let Ok(()) = self.streams.reserve_bulletin(at) else {
            return Err(NoMemory);
        };
        let Ok(()) = self.history.push(Event::Window { at, from }) else {
            return Err(NoMemory);
        };
        let window = self.traffic.cut_window(at, from).unwrap();
        self.streams.append_window(window);
        Ok(())
    }

    /// A node removes a crashed one: the Final of their link becomes a bulletin. After `NoMemory` all is as before.
    pub(crate) fn remove(&mut self, at: NodeId, gone: NodeId) -> Result<(), NoMemory>
        requires { MayFollow (events.Remove at gone) self.old }
        ensures ok { OnOk result (Adds (events.Remove at gone) self.old self.new) }
        ensures err { OnErr result (self.new ≡ self.old) }
    {
        let Ok(()) = self.streams.reserve_bulletin(at) else {
            return Err(NoMemory);
        };
        let Ok(()) = self.history.push(Event::Remove { at, gone }) else {
            return Err(NoMemory);
        };
        let window = self.traffic.close(at, gone);
        self.streams.append_final(window);
        Ok(())
    }
}
