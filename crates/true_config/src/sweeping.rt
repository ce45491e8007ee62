//! The sweeps of collectors.
ghost use Rattle.std.specs.Prelude.{◌≡◌, IfOk, OnErr, OnOk};
ghost use Rattle.history_model.specs.declared.events.Event.TheVariants as events;
ghost use Rattle.history_model.specs.Sweeps.{IsVerdict};
ghost use Rattle.true_config.specs.Applying.{OnDone, UnlessDone, answer_to};
ghost use Rattle.true_config.specs.Promises.{ChildrenAreStopped, IsFoundBySweep, StoppedAreQuiescent, StopsAllAtQuietPoint, StopsTheQuiescent};
ghost use Rattle.true_config.specs.Steps.{Adds, MayFollow};

use crate::World;
use crate::applied::{Applied, Told};
use crgc_ids::NoMemory;
use history_model::{Event, Verdict};

impl World {
    /// The collector of a node stops the actors that its verdict names; what hinders the sweep is answered as by `apply`. All of
    /// them are quiescent; and at a quiet point of the node no other of its actors is. After any answer but `Done`, and after
    /// `NoMemory`, all is as before. Time in proportion to the number of stops.
    pub fn sweep(&mut self, verdict: &Verdict) -> Result<Applied, NoMemory>
        requires { IsFoundBySweep self.old verdict.now }
        ensures answer { IfOk result (λ x. x ≡ answer_to self.old.cluster (events.Sweep verdict.now.node) self.old.past) }
        ensures done { OnDone result (Adds (events.Sweep verdict.now.node) self.old self.new) }
        ensures unless { UnlessDone result (self.new ≡ self.old) }
        ensures sound { OnDone result (StopsTheQuiescent self.old verdict.now) }
        ensures stable { StoppedAreQuiescent self.new }
        ensures complete { OnDone result (StopsAllAtQuietPoint verdict.now.node self.old self.new) }
        ensures supervised { ChildrenAreStopped self.new }
    {
        let result = self.sweep_if_possible(verdict);
        self.is_lawful();
        result
    }

    /// The sweep, or what hinders it.
    fn sweep_if_possible(&mut self, verdict: &Verdict) -> Result<Applied, NoMemory>
        requires { IsFoundBySweep self.old verdict.now }
        ensures answer { IfOk result (λ x. x ≡ answer_to self.old.cluster (events.Sweep verdict.now.node) self.old.past) }
        ensures done { OnDone result (Adds (events.Sweep verdict.now.node) self.old self.new) }
        ensures unless { UnlessDone result (self.new ≡ self.old) }
    {
        let event = Event::Sweep { node: verdict.node };
        let Ok(hindrance) = self.hindrance(&event) else {
            return Err(NoMemory);
        };
        if let Some(answer) = hindrance {
            return Ok(answer);
        }
        match self.stop(verdict) {
            Ok(()) => Ok(Applied::Done(Told::Plain)),
            Err(_) => Err(NoMemory),
        }
    }

    /// The actors that the verdict names are stopped. After `NoMemory` all is as before.
    fn stop(&mut self, verdict: &Verdict) -> Result<(), NoMemory>
        requires may { MayFollow (events.Sweep verdict.now.node) self.old }
        requires found { IsVerdict self.old.cluster verdict.now.node self.old.past verdict.now }
        ensures ok { OnOk result (Adds (events.Sweep verdict.now.node) self.old self.new) }
        ensures err { OnErr result (self.new ≡ self.old) }
    {
        let event = Event::Sweep { node: verdict.node };
        let Ok(()) = self.history.push(event) else {
            return Err(NoMemory);
        };
        self.roster.stop(verdict.stops.as_slice());
        Ok(())
    }
}
