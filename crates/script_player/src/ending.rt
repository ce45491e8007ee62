//! The end of a turn: its rest, the crash that is due with it, and the round after each 64th.
ghost use Rattle.std.specs.Prelude.{◌≡◌, ◌∷◌, drop, IfErr, OnOk};
ghost use Rattle.history_model.specs.declared.events.Event.TheVariants as events;
ghost use Rattle.run_model.specs.Doing.{cluster_of};
ghost use Rattle.run_model.specs.Planned.{crash_due, ended};
ghost use Rattle.run_model.specs.Round.{round};
ghost use Rattle.run_model.specs.Schedule.{crashed, ended_turn, rounded};
ghost use Rattle.run_model.specs.Turns.{IsUnderWay};
ghost use Rattle.script_actors.specs.Turns.{Ends};
ghost use Rattle.script_player.specs.Making.{HaltsOn};
ghost use Rattle.script_player.specs.Standing.{HasRested, Stands, StandsAt};

use crate::driver::Driver;
use crate::fault::RunFault;
use crate::making::{make, make_round};
use behaviour_lang::Turn;
use crgc_ids::ActorId;
use history_model::Event;
use run_model::round_laws::a_round_is_legal;
use run_model::run_laws::TURNS_PER_ROUND;
use script_actors::laws::other_events_leave_the_actors;
use script_progress::laws::{counts_have_room, other_events_leave_the_progress};

impl Driver {
    /// An actor rests, whose turn has made its acts; the crash that is due then comes, and a round after each 64th turn.
    pub(crate) fn end_turn(&mut self, actor: ActorId, turn: Turn) -> Result<(), RunFault>
        requires stands { Stands self.old }
        requires under { IsUnderWay self.old.script.value actor self.old.course.past }
        requires ends { Ends self.old.script.value actor self.old.course.past turn }
        ensures script { self.new.script.value ≡ self.old.script.value }
        ensures made { OnOk result (StandsAt (ended_turn self.old.script.value (events.Rest actor ∷ self.old.course.past)) self.new) }
        ensures fault { IfErr result (HaltsOn (cluster_of self.old.script.value)
            (ended_turn self.old.script.value (events.Rest actor ∷ self.old.course.past))) }
    {
        match self.rest(actor, turn) {
            Ok(()) => {}
            Err(fault) => return Err(fault),
        }
        match self.crash(actor) {
            Ok(()) => self.close_turn(),
            Err(fault) => Err(fault),
        }
    }

    /// An actor rests, whose turn has made its acts.
    fn rest(&mut self, actor: ActorId, turn: Turn) -> Result<(), RunFault>
        requires stands { Stands self.old }
        requires under { IsUnderWay self.old.script.value actor self.old.course.past }
        requires ends { Ends self.old.script.value actor self.old.course.past turn }
        ensures script { self.new.script.value ≡ self.old.script.value }
        ensures rested { OnOk result (HasRested actor self.old.course.past self.new) }
        ensures fault { IfErr result (HaltsOn (cluster_of self.old.script.value) (events.Rest actor ∷ self.old.course.past)) }
    {
        counts_have_room();
        make(&mut self.course, Event::Rest { actor })?;
        self.progress.ends(actor.node());
        self.actors.rest(actor, turn.finish());
        Ok(())
    }

    /// The node of an actor that has just rested crashes, if that is due.
    fn crash(&mut self, actor: ActorId) -> Result<(), RunFault>
        requires { HasRested actor (drop 1 self.old.course.past) self.old }
        ensures script { self.new.script.value ≡ self.old.script.value }
        ensures made { OnOk result (StandsAt (crashed (crash_due self.old.script.value self.old.course.past) self.old.course.past) self.new) }
        ensures fault { IfErr result (HaltsOn (cluster_of self.old.script.value)
            (crashed (crash_due self.old.script.value self.old.course.past) self.old.course.past)) }
    {
        let node = actor.node();
        if self.progress.crash_due(node) {
            make(&mut self.course, Event::Crash { node })?;
            other_events_leave_the_actors();
            other_events_leave_the_progress();
            return Ok(());
        }
        Ok(())
    }

    /// A round is made where this was a 64th turn.
    fn close_turn(&mut self) -> Result<(), RunFault>
        requires { Stands self.old }
        ensures script { self.new.script.value ≡ self.old.script.value }
        ensures made { OnOk result (StandsAt (rounded self.old.script.value (ended self.old.course.past) self.old.course.past) self.new) }
        ensures fault { IfErr result (HaltsOn (cluster_of self.old.script.value)
            (rounded self.old.script.value (ended self.old.course.past) self.old.course.past)) }
    {
        if self.progress.ended() as usize % TURNS_PER_ROUND == 0 {
            return self.round();
        }
        Ok(())
    }

    /// A round is made.
    fn round(&mut self) -> Result<(), RunFault>
        requires { Stands self.old }
        ensures script { self.new.script.value ≡ self.old.script.value }
        ensures made { OnOk result (StandsAt (round (cluster_of self.old.script.value) self.old.course.past) self.new) }
        ensures fault { IfErr result (HaltsOn (cluster_of self.old.script.value) (round (cluster_of self.old.script.value) self.old.course.past)) }
    {
        make_round(&mut self.course)?;
        a_round_is_legal();
        other_events_leave_the_actors();
        other_events_leave_the_progress();
        Ok(())
    }
}
