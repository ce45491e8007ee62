//! The planned wakes.
ghost use Rattle.std.specs.Prelude.{◌≡◌, ◌∷◌, ◌&&◌, true, IfErr, OnOk, Some};
ghost use Rattle.history_model.specs.declared.events.Event.TheVariants as events;
ghost use Rattle.history_model.specs.State.{is_root, is_up};
ghost use Rattle.run_model.specs.Doing.{cluster_of};
ghost use Rattle.run_model.specs.Planned.{is_within_budget, next_wake};
ghost use Rattle.run_model.specs.Schedule.{whole_turn};
ghost use Rattle.script_player.specs.Making.{HaltsOn};
ghost use Rattle.script_player.specs.Standing.{IsBetween, StandsAt};

use crate::driver::Driver;
use crate::fault::RunFault;
use crate::making::make;
use behaviour_lang::List;
use crgc_ids::{ActorId, RefList};
use history_model::Event;
use script_actors::laws::who_may_begin_a_turn;
use script_progress::laws::the_candidate_is_the_next_wake;

impl Driver {
    /// The lowest actor that has a wake left and may wake. Seeds that never can again are passed for good, so over the whole run it
    /// looks at each seed once, beside the wakes.
    pub(crate) fn next_wake(&mut self) -> Option<ActorId>
        requires { IsBetween self.old }
        ensures others { self.new ≡ record self.old { progress = self.new.progress } }
        ensures between { IsBetween self.new }
        ensures next { result ≡ next_wake self.old.script.value self.old.course.past }
    {
        the_candidate_is_the_next_wake();
        while let Some(actor) = self.progress.candidate() {
            if self.may_wake(actor) {
                return Some(actor);
            }
            self.progress.pass(actor);
        }
        None
    }

    /// Whether the actor is a root on a node that is up.
    fn may_wake(&self, actor: ActorId) -> bool
        ensures { result ≡ (is_root actor self.now.course.past && is_up actor.node self.now.course.past) }
    {
        let world = self.course.world();
        world.is_root(actor) && world.is_up(actor.node())
    }

    /// An actor is woken, and its turn is done whole.
    pub(crate) fn wake(&mut self, actor: ActorId) -> Result<(), RunFault>
        requires between { IsBetween self.old }
        requires within { is_within_budget self.old.script.value self.old.course.past ≡ true }
        requires next { next_wake self.old.script.value self.old.course.past ≡ Some actor }
        ensures script { self.new.script.value ≡ self.old.script.value }
        ensures made { OnOk result (StandsAt (whole_turn self.old.script.value actor (events.Wake actor ∷ self.old.course.past)) self.new) }
        ensures fault { IfErr result (HaltsOn (cluster_of self.old.script.value)
            (whole_turn self.old.script.value actor (events.Wake actor ∷ self.old.course.past))) }
    {
        who_may_begin_a_turn();
        let root = self.course.world().is_root(actor);
        match make(&mut self.course, Event::Wake { actor }) {
            Ok(_) => {}
            Err(fault) => return Err(fault),
        }
        self.progress.wakes(actor);
        let refs = RefList::new(self.alloc);
        match self.actors.start(&self.code, actor, List::Wake, refs, root) {
            Ok(turn) => self.finish_turn(actor, turn),
            Err(_) => Err(RunFault::NoMemory),
        }
    }
}
