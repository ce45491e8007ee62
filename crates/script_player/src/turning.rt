//! Turns.
ghost use Rattle.std.specs.Prelude.{◌≡◌, ◌∷◌, true, Some, IfErr, IfOk, None, OnOk};
ghost use Rattle.history_model.specs.declared.events.Event.TheVariants as events;
ghost use Rattle.history_model.specs.Legal.{refusal};
ghost use Rattle.history_model.specs.State.{is_busy};
ghost use Rattle.behaviour_lang.specs.declared.act.Act.TheVariants as acts;
ghost use Rattle.behaviour_lang.specs.declared.act.Step.TheVariants as steps;
ghost use Rattle.run_model.specs.Doing.{cluster_of, event_of};
ghost use Rattle.run_model.specs.Planned.{is_within_budget};
ghost use Rattle.run_model.specs.Schedule.{turn_done, whole_turn};
ghost use Rattle.run_model.specs.Turns.{IsUnderWay};
ghost use Rattle.script_actors.specs.Turns.{IsAfter, IsTurnOf, OwesBirth};
ghost use Rattle.script_player.specs.Making.{HaltsOn, NothingCarried};
ghost use Rattle.script_player.specs.Reported.{IsRunFault};
ghost use Rattle.script_player.specs.Standing.{IsActedOut, IsBetween, IsInTurn, IsPlainAct, IsTurnMade, Stands, StandsAt};

use crate::driver::Driver;
use crate::fault::RunFault;
use crate::making::{child_in, make, refs_in};
use crate::stepping::next_act;
use behaviour_lang::{Act, List, Turn};
use crgc_ids::ActorId;
use history_model::Event;
use script_actors::laws::{acts_leave_the_actors, who_may_begin_a_turn};
use script_progress::laws::other_events_leave_the_progress;

impl Driver {
    /// The next turn is done whole, where nothing can be carried: within the budget that of the lowest actor that may take a
    /// message, or else that of the planned wake. False exactly where none is possible.
    pub(crate) fn turn(&mut self) -> Result<bool, RunFault>
        requires between { IsBetween self.old }
        requires carried { NothingCarried self.old.script.value self.old.course.past }
        ensures script { self.new.script.value ≡ self.old.script.value }
        ensures made { IfOk result (IsTurnMade self.old self.new) }
        ensures fault { IfErr result (IsRunFault self.old.script.value) }
    {
        if !self.progress.is_within_budget() {
            return Ok(false);
        }
        if let Some(actor) = self.course.world().next_ready(None) {
            return match self.take(actor) {
                Ok(()) => Ok(true),
                Err(fault) => Err(fault),
            };
        }
        let Some(actor) = self.next_wake() else {
            return Ok(false);
        };
        match self.wake(actor) {
            Ok(()) => Ok(true),
            Err(fault) => Err(fault),
        }
    }

    /// An actor takes its first message, and its turn is done whole.
    fn take(&mut self, actor: ActorId) -> Result<(), RunFault>
        requires between { IsBetween self.old }
        requires within { is_within_budget self.old.script.value self.old.course.past ≡ true }
        requires legal { refusal (cluster_of self.old.script.value) (events.Take actor) self.old.course.past ≡ None }
        ensures script { self.new.script.value ≡ self.old.script.value }
        ensures made { OnOk result (StandsAt (whole_turn self.old.script.value actor (events.Take actor ∷ self.old.course.past)) self.new) }
        ensures fault { IfErr result (HaltsOn (cluster_of self.old.script.value)
            (whole_turn self.old.script.value actor (events.Take actor ∷ self.old.course.past))) }
    {
        who_may_begin_a_turn();
        self.course.world().is_lawful();
        let root = self.course.world().is_root(actor);
        let told = match make(&mut self.course, Event::Take { actor }) {
            Ok(told) => told,
            Err(fault) => return Err(fault),
        };
        self.progress.takes();
        let refs = refs_in(told);
        match self
            .actors
            .start(&self.code, actor, List::Message, refs, root)
        {
            Ok(turn) => self.finish_turn(actor, turn),
            Err(_) => Err(RunFault::NoMemory),
        }
    }

    /// A turn that has begun makes its acts and rests; the crash that is due then comes, and a round after each 64th turn.
    pub(crate) fn finish_turn(&mut self, actor: ActorId, turn: Turn) -> Result<(), RunFault>
        requires { IsInTurn self.old.course.past actor self.old turn }
        ensures script { self.new.script.value ≡ self.old.script.value }
        ensures made { OnOk result (StandsAt (whole_turn self.old.script.value actor self.old.course.past) self.new) }
        ensures fault { IfErr result (HaltsOn (cluster_of self.old.script.value) (whole_turn self.old.script.value actor self.old.course.past)) }
    {
        let mut turn = turn;
        match self.act_all(actor, &mut turn) {
            Ok(()) => {}
            Err(fault) => return Err(fault),
        }
        self.end_turn(actor, turn)
    }

    /// The acts of a turn that has begun are made, one after another.
    fn act_all(&mut self, actor: ActorId, turn: &mut Turn) -> Result<(), RunFault>
        requires { IsInTurn self.old.course.past actor self.old turn.old }
        ensures script { self.new.script.value ≡ self.old.script.value }
        ensures done { OnOk result (IsActedOut self.old.course.past actor self.new turn.new) }
        ensures fault { IfErr result (HaltsOn (cluster_of self.old.script.value) (turn_done self.old.script.value actor self.old.course.past)) }
    {
        loop {
            let Some(act) = next_act(turn, &self.code)? else {
                return Ok(());
            };
            match self.act(actor, turn, act) {
                Ok(()) => {}
                Err(fault) => return Err(fault),
            }
        }
    }

    /// The act that is due is made.
    fn act(&mut self, actor: ActorId, turn: &mut Turn, act: Act) -> Result<(), RunFault>
        requires stands { Stands self.old }
        requires under { IsUnderWay self.old.script.value actor self.old.course.past }
        requires due { IsAfter self.old.script.value actor self.old.course.past (steps.Act act) turn.old }
        ensures script { self.new.script.value ≡ self.old.script.value }
        ensures stands { OnOk result (StandsAt (event_of actor (Some act) ∷ self.old.course.past) self.new) }
        ensures turn { OnOk result (IsTurnOf self.new.script.value actor self.new.course.past turn.new) }
        ensures fault { IfErr result (HaltsOn (cluster_of self.old.script.value) (event_of actor (Some act) ∷ self.old.course.past)) }
    {
        match act {
            Act::Spawn { behaviour } => self.spawn(actor, turn, behaviour),
            Act::Send { to, refs } => {
                let from = actor;
                self.act_plainly(actor, Event::Send { from, to, refs })
            }
            Act::Drop { target } => self.act_plainly(actor, Event::Drop { actor, target }),
            Act::Retire => self.act_plainly(actor, Event::Retire { actor }),
        }
    }

    /// A child is born with that behaviour, and its name is bound to it.
    fn spawn(&mut self, actor: ActorId, turn: &mut Turn, behaviour: u32) -> Result<(), RunFault>
        requires stands { Stands self.old }
        requires under { IsUnderWay self.old.script.value actor self.old.course.past }
        requires due { OwesBirth self.old.script.value actor self.old.course.past behaviour turn.old }
        ensures script { self.new.script.value ≡ self.old.script.value }
        ensures stands { OnOk result (StandsAt (events.Spawn actor ∷ self.old.course.past) self.new) }
        ensures turn { OnOk result (IsTurnOf self.new.script.value actor self.new.course.past turn.new) }
        ensures fault { IfErr result (HaltsOn (cluster_of self.old.script.value) (events.Spawn actor ∷ self.old.course.past)) }
    {
        let told = make(&mut self.course, Event::Spawn { parent: actor })?;
        let child = child_in(told);
        self.actors.born(child, behaviour)?;
        turn.born(child)?;
        other_events_leave_the_progress();
        Ok(())
    }

    /// An act is made that gives birth to nobody.
    fn act_plainly(&mut self, actor: ActorId, event: Event) -> Result<(), RunFault>
        requires stands { Stands self.old }
        requires busy { is_busy actor self.old.course.past ≡ true }
        requires plain { IsPlainAct actor event }
        requires legal { refusal (cluster_of self.old.script.value) event self.old.course.past ≡ None }
        ensures script { self.new.script.value ≡ self.old.script.value }
        ensures stands { OnOk result (StandsAt (event ∷ self.old.course.past) self.new) }
        ensures fault { IfErr result (HaltsOn (cluster_of self.old.script.value) (event ∷ self.old.course.past)) }
    {
        make(&mut self.course, event)?;
        acts_leave_the_actors();
        other_events_leave_the_progress();
        Ok(())
    }
}
