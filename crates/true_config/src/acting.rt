//! The events of actors that change their states.
ghost use Rattle.std.specs.Prelude.{◌≡◌, IfOk, OnErr, OnOk};
ghost use Rattle.history_model.specs.declared.events.Event.TheVariants as events;
ghost use Rattle.history_model.specs.Cluster.{newborn};
ghost use Rattle.true_config.specs.Steps.{Adds, MayFollow};

use crate::World;
use crgc_ids::{ActorId, NoMemory, NodeId};
use history_model::Event;

impl World {
    /// The next actor of a node is born, by seed. After `NoMemory` all is as before.
    pub(crate) fn seed(&mut self, node: NodeId) -> Result<ActorId, NoMemory>
        requires { MayFollow (events.Seed node) self.old }
        ensures born { IfOk result (λ a. a ≡ newborn node self.old.past) }
        ensures ok { OnOk result (Adds (events.Seed node) self.old self.new) }
        ensures err { OnErr result (self.new ≡ self.old) }
    {
        let Ok(()) = self.history.push(Event::Seed { node }) else {
            return Err(NoMemory);
        };
        let Ok(actor) = self.roster.seed(node) else {
            self.history.take_back();
            return Err(NoMemory);
        };
        Ok(actor)
    }

    /// The next actor of its node is born as a child of the actor. After `NoMemory` all is as before.
    pub(crate) fn spawn(&mut self, parent: ActorId) -> Result<ActorId, NoMemory>
        requires { MayFollow (events.Spawn parent) self.old }
        ensures born { IfOk result (λ a. a ≡ newborn parent.node self.old.past) }
        ensures ok { OnOk result (Adds (events.Spawn parent) self.old self.new) }
        ensures err { OnErr result (self.new ≡ self.old) }
    {
        let Ok(()) = self.history.push(Event::Spawn { parent }) else {
            return Err(NoMemory);
        };
        let Ok(actor) = self.roster.spawn(parent) else {
            self.history.take_back();
            return Err(NoMemory);
        };
        Ok(actor)
    }

    /// A root gets one more reference to a root. After `NoMemory` all is as before.
    pub(crate) fn tie(&mut self, owner: ActorId, target: ActorId) -> Result<(), NoMemory>
        requires { MayFollow (events.Tie owner target) self.old }
        ensures ok { OnOk result (Adds (events.Tie owner target) self.old self.new) }
        ensures err { OnErr result (self.new ≡ self.old) }
    {
        let Ok(()) = self.history.push(Event::Tie { owner, target }) else {
            return Err(NoMemory);
        };
        let Ok(()) = self.roster.tie(owner, target) else {
            self.history.take_back();
            return Err(NoMemory);
        };
        Ok(())
    }

    /// A busy actor gives up a reference. After `NoMemory` all is as before.
    pub(crate) fn drop_reference(&mut self, actor: ActorId, target: ActorId) -> Result<(), NoMemory>
        requires { MayFollow (events.Drop actor target) self.old }
        ensures ok { OnOk result (Adds (events.Drop actor target) self.old self.new) }
        ensures err { OnErr result (self.new ≡ self.old) }
    {
        let Ok(()) = self.history.push(Event::Drop { actor, target }) else {
            return Err(NoMemory);
        };
        let Ok(()) = self.roster.drop_reference(actor, target) else {
            self.history.take_back();
            return Err(NoMemory);
        };
        Ok(())
    }

    /// A busy root is no root from now on. After `NoMemory` all is as before.
    pub(crate) fn retire(&mut self, actor: ActorId) -> Result<(), NoMemory>
        requires { MayFollow (events.Retire actor) self.old }
        ensures ok { OnOk result (Adds (events.Retire actor) self.old self.new) }
        ensures err { OnErr result (self.new ≡ self.old) }
    {
        let Ok(()) = self.history.push(Event::Retire { actor }) else {
            return Err(NoMemory);
        };
        let Ok(()) = self.roster.retire(actor) else {
            self.history.take_back();
            return Err(NoMemory);
        };
        Ok(())
    }

    /// An idle root becomes busy of itself. After `NoMemory` all is as before.
    pub(crate) fn wake(&mut self, actor: ActorId) -> Result<(), NoMemory>
        requires { MayFollow (events.Wake actor) self.old }
        ensures ok { OnOk result (Adds (events.Wake actor) self.old self.new) }
        ensures err { OnErr result (self.new ≡ self.old) }
    {
        let Ok(()) = self.history.push(Event::Wake { actor }) else {
            return Err(NoMemory);
        };
        let Ok(()) = self.roster.wake(actor) else {
            self.history.take_back();
            return Err(NoMemory);
        };
        self.traffic.wake(actor);
        Ok(())
    }

    /// The node stops for good. After `NoMemory` all is as before.
    pub(crate) fn crash(&mut self, node: NodeId) -> Result<(), NoMemory>
        requires { MayFollow (events.Crash node) self.old }
        ensures ok { OnOk result (Adds (events.Crash node) self.old self.new) }
        ensures err { OnErr result (self.new ≡ self.old) }
    {
        let Ok(()) = self.history.push(Event::Crash { node }) else {
            return Err(NoMemory);
        };
        self.traffic.crash(node);
        self.roster.crash(node);
        Ok(())
    }
}
