//! The events of messages: those that are sent, and those that come.
ghost use Rattle.std.specs.Prelude.{◌≡◌, ◌≢◌, ◌≤◌, not, false, length, IfNone, IfOk, IfSome, None, OnErr, OnOk, Some};
ghost use Rattle.history_model.specs.declared.events.Event.TheVariants as events;
ghost use Rattle.history_model.specs.Messages.{sent, was_admitted};
ghost use Rattle.journal_model.specs.Lines.{AreActors};
ghost use Rattle.roster.specs.Table.{state_at};
ghost use Rattle.true_config.specs.Steps.{Adds, MayFollow};

use crate::World;
use crgc_ids::{ActorId, NoMemory, NodeId, RefList};
use history_model::Event;
use roster::Roster;

impl World {
    /// A busy actor sends a message with references that it holds. The number of the message on its link, or None within one
    /// node, where it is admitted at once. After `NoMemory` all is as before.
    pub(crate) fn send(
        &mut self,
        from: ActorId,
        to: ActorId,
        refs: &RefList,
    ) -> Result<Option<u32>, NoMemory>
        requires may { MayFollow (events.Send from to refs.now) self.old }
        requires few { length refs.now ≤ 16 }
        ensures local { from.node ≡ to.node → IfOk result (λ number. number ≡ None) }
        ensures number { from.node ≢ to.node → IfOk result (λ number. number ≡ Some (length (sent from.node to.node self.old.past))) }
        ensures ok { OnOk result (Adds (events.Send from to refs.now) self.old self.new) }
        ensures err { OnErr result (self.new ≡ self.old) }
    {
        read_actors(refs.as_slice());
        let Ok(carried) = refs.copy() else {
            return Err(NoMemory);
        };
        let Ok(()) = self.history.push_send(from, to, refs) else {
            return Err(NoMemory);
        };
        let idle = !self.roster.is_busy(to);
        let Ok(()) = self.roster.send(from, to, refs.as_slice()) else {
            self.history.take_back();
            return Err(NoMemory);
        };
        let Ok(number) = self.traffic.send(from, to, carried, idle) else {
            self.roster.take_back_send(from, refs.len());
            self.history.take_back();
            return Err(NoMemory);
        };
        Ok(number)
    }

    /// One copy of a number comes to the end of its link. Whether its message is admitted by that; else the copy is discarded,
    /// since another one was admitted before. After `NoMemory` all is as before.
    pub(crate) fn admit(&mut self, from: NodeId, at: NodeId, number: u32) -> Result<bool, NoMemory>
        requires { MayFollow (events.Admit from at number) self.old }
        ensures first { IfOk result (λ first. first ≡ not (was_admitted from at number self.old.past)) }
        ensures ok { OnOk result (Adds (events.Admit from at number) self.old self.new) }
        ensures err { OnErr result (self.new ≡ self.old) }
    {
        let event = Event::Admit { from, at, number };
        let Ok(()) = self.history.push(event) else {
            return Err(NoMemory);
        };
        let to = self.traffic.recipient(from, at, number);
        let idle = is_idle(&self.roster, to);
        let Ok(admitted) = self.traffic.admit(from, at, number, idle) else {
            self.history.take_back();
            return Err(NoMemory);
        };
        Ok(admitted.is_some())
    }
}

/// Whether the actor, if there is one, is idle.
fn is_idle(roster: &Roster, actor: Option<ActorId>) -> bool
    ensures some { IfSome actor (λ a. result ≡ not (state_at roster.now a).busy) }
    ensures none { IfNone actor (result ≡ false) }
{
    match actor {
        Some(actor) => !roster.is_busy(actor),
        None => false,
    }
}

/// Reads each reference, since what was read is known to be in its range.
fn read_actors(refs: &[ActorId])
    ensures { AreActors refs.now }
{
    for actor in refs {
        let _number = actor.node().get();
        let _serial = actor.serial();
    }
}
