//! What is on the links is carried.
ghost use Rattle.std.specs.Prelude.{◌≡◌, ◌+◌, ◌<◌, ◌≤◌, ◌∷◌, length, true, IfErr, None, OnOk};
ghost use Rattle.history_model.specs.declared.events.Event.TheVariants as events;
ghost use Rattle.history_model.specs.Legal.{refusal};
ghost use Rattle.run_model.specs.Doing.{cluster_of};
ghost use Rattle.run_model.specs.Planned.{carry, has_row};
ghost use Rattle.script_player.specs.Links.{AreStillBefore};
ghost use Rattle.script_player.specs.Making.{HaltsOn, IsCarriedNext, NothingCarried};
ghost use Rattle.script_player.specs.Reported.{IsRunFault};
ghost use Rattle.script_player.specs.Standing.{IsBetween, Stands, StandsAt};

use crate::driver::Driver;
use crate::fault::RunFault;
use crate::making::{make, node};
use crgc_ids::NodeId;
use history_model::Event;
use script_actors::laws::other_events_leave_the_actors;
use script_progress::Carry;
use script_progress::laws::other_events_leave_the_progress;

impl Driver {
    /// What is on the links is carried, always from the lowest link where something is, until nothing can be carried. It walks
    /// over the links once, since what is carried comes onto no link: logarithmic time for each event and each of 240 links.
    pub(crate) fn carry_all(&mut self) -> Result<(), RunFault>
        requires { IsBetween self.old }
        ensures script { self.new.script.value ≡ self.old.script.value }
        ensures between { OnOk result (IsBetween self.new) }
        ensures longer { OnOk result (length self.old.course.past ≤ length self.new.course.past) }
        ensures done { OnOk result (NothingCarried self.new.script.value self.new.course.past) }
        ensures fault { IfErr result (IsRunFault self.old.script.value) }
    {
        for from in 0..self.nodes {
            self.carry_from(node(from))?;
        }
        Ok(())
    }

    /// What is on the links from one node is carried, where nothing can be carried from a lower one.
    fn carry_from(&mut self, from: NodeId) -> Result<(), RunFault>
        requires between { IsBetween self.old }
        requires node { from < self.old.nodes }
        requires still { AreStillBefore self.old.nodes from 0 self.old.course.past }
        ensures script { self.new.script.value ≡ self.old.script.value }
        ensures nodes { self.new.nodes ≡ self.old.nodes }
        ensures between { OnOk result (IsBetween self.new) }
        ensures longer { OnOk result (length self.old.course.past ≤ length self.new.course.past) }
        ensures still { OnOk result (AreStillBefore self.new.nodes (from + 1) 0 self.new.course.past) }
        ensures fault { IfErr result (IsRunFault self.old.script.value) }
    {
        for at in 0..self.nodes {
            self.carry_on_link(from, node(at))?;
        }
        Ok(())
    }

    /// What is on one link is carried, where nothing can be carried on a lower one.
    fn carry_on_link(&mut self, from: NodeId, at: NodeId) -> Result<(), RunFault>
        requires between { IsBetween self.old }
        requires from { from < self.old.nodes }
        requires at { at < self.old.nodes }
        requires still { AreStillBefore self.old.nodes from at self.old.course.past }
        ensures script { self.new.script.value ≡ self.old.script.value }
        ensures nodes { self.new.nodes ≡ self.old.nodes }
        ensures between { OnOk result (IsBetween self.new) }
        ensures longer { OnOk result (length self.old.course.past ≤ length self.new.course.past) }
        ensures still { OnOk result (AreStillBefore self.new.nodes from (at + 1) self.new.course.past) }
        ensures fault { IfErr result (IsRunFault self.old.script.value) }
    {
        if from == at {
            return Ok(());
        }
        while let Some(number) = self.course.world().link_head(from, at) {
            match self.carry(from, at, number) {
                Ok(()) => {}
                Err(fault) => return Err(fault),
            }
        }
        Ok(())
    }

    /// The copy with the lowest number on the lowest link is doubled, lost or admitted, as the plan says.
    fn carry(&mut self, from: NodeId, at: NodeId, number: u32) -> Result<(), RunFault>
        requires stands { Stands self.old }
        requires next { IsCarriedNext self.old.script.value (carry self.old.script.value from at number self.old.course.past) self.old.course.past }
        ensures script { self.new.script.value ≡ self.old.script.value }
        ensures nodes { self.new.nodes ≡ self.old.nodes }
        ensures made { OnOk result (StandsAt (carry self.old.script.value from at number self.old.course.past ∷ self.old.course.past) self.new) }
        ensures fault { IfErr result (HaltsOn (cluster_of self.old.script.value)
            (carry self.old.script.value from at number self.old.course.past ∷ self.old.course.past)) }
    {
        match self.progress.carry_of(from, at, number) {
            Carry::Repeat => self.repeat(from, at, number),
            Carry::Lose => self.lose(from, at, number),
            Carry::Admit => self.admit(from, at, number),
        }
    }

    /// The copy is doubled, as a row of the plan says.
    fn repeat(&mut self, from: NodeId, at: NodeId, number: u32) -> Result<(), RunFault>
        requires stands { Stands self.old }
        requires legal { refusal self.old.course.cluster (events.Repeat from at number) self.old.course.past ≡ None }
        requires left { has_row from at number self.old.progress.plan.repeats ≡ true }
        ensures script { self.new.script.value ≡ self.old.script.value }
        ensures nodes { self.new.nodes ≡ self.old.nodes }
        ensures made { OnOk result (StandsAt (events.Repeat from at number ∷ self.old.course.past) self.new) }
        ensures fault { IfErr result (HaltsOn (cluster_of self.old.script.value) (events.Repeat from at number ∷ self.old.course.past)) }
    {
        make(&mut self.course, Event::Repeat { from, at, number })?;
        self.progress.repeats(from, at, number);
        other_events_leave_the_actors();
        Ok(())
    }

    /// The copy is lost, as a row of the plan says.
    fn lose(&mut self, from: NodeId, at: NodeId, number: u32) -> Result<(), RunFault>
        requires stands { Stands self.old }
        requires legal { refusal self.old.course.cluster (events.Lose from at number) self.old.course.past ≡ None }
        requires left { has_row from at number self.old.progress.plan.losses ≡ true }
        ensures script { self.new.script.value ≡ self.old.script.value }
        ensures nodes { self.new.nodes ≡ self.old.nodes }
        ensures made { OnOk result (StandsAt (events.Lose from at number ∷ self.old.course.past) self.new) }
        ensures fault { IfErr result (HaltsOn (cluster_of self.old.script.value) (events.Lose from at number ∷ self.old.course.past)) }
    {
        make(&mut self.course, Event::Lose { from, at, number })?;
        self.progress.loses(from, at, number);
        other_events_leave_the_actors();
        Ok(())
    }

    /// The copy is admitted.
    fn admit(&mut self, from: NodeId, at: NodeId, number: u32) -> Result<(), RunFault>
        requires stands { Stands self.old }
        requires legal { refusal self.old.course.cluster (events.Admit from at number) self.old.course.past ≡ None }
        ensures script { self.new.script.value ≡ self.old.script.value }
        ensures nodes { self.new.nodes ≡ self.old.nodes }
        ensures made { OnOk result (StandsAt (events.Admit from at number ∷ self.old.course.past) self.new) }
        ensures fault { IfErr result (HaltsOn (cluster_of self.old.script.value) (events.Admit from at number ∷ self.old.course.past)) }
    {
        make(&mut self.course, Event::Admit { from, at, number })?;
        other_events_leave_the_progress();
        other_events_leave_the_actors();
        Ok(())
    }
}
