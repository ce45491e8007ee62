//! Events that no rule refuses.
ghost use Rattle.std.specs.Prelude.{◌≡◌, ◌∷◌, [], false, IfErr, IfOk, List, None, OnErr, OnOk};
ghost use Rattle.crgc_ids.specs.Actor.{Actor};
ghost use Rattle.history_model.specs.Legal.{refusal};
ghost use Rattle.operation_model.specs.Answers.{AreLegal};
ghost use Rattle.run_model.specs.Doing.{cluster_of};
ghost use Rattle.true_config.specs.Applying.{CarriesFew, is_sweep, told_of};
ghost use Rattle.true_config.specs.Pairs.{ArePaired};
ghost use Rattle.true_config.specs.declared.applied.Told.TheVariants.{Born, Taken};
ghost use Rattle.world_object.specs.Answering.{Happens, HaltsBefore};

use crate::parts::ClusterParts;
use crgc_ids::{ActorId, RefList};
use history_model::Event;
use operation_model::Halt;
use true_config::{Applied, Told};

impl ClusterParts {
    /// The event happens, which no rule refuses, and the world tells what came of it; or the answer is why the cluster halts, and
    /// all is as before.
    pub(crate) fn make(&mut self, event: &Event) -> Result<Told, Halt>
        requires cluster { self.old.world.cluster ≡ cluster_of self.old.script.value }
        requires legal { refusal (cluster_of self.old.script.value) event.now self.old.world.past ≡ None }
        requires no_sweep { is_sweep event.now ≡ false }
        requires few { CarriesFew event.now }
        ensures told { IfOk result (λ told. told ≡ told_of event.now self.old.world.past) }
        ensures ok { OnOk result (Happens (event.now ∷ []) self.old self.new) }
        ensures err { OnErr result (self.new ≡ self.old) }
        ensures halt { IfErr result (HaltsBefore self.old (event.now ∷ [])) }
    {
        match self.world.apply(event) {
            Ok(Applied::Done(told)) => Ok(told),
            Ok(Applied::Illegal(_)) => unreachable!(),
            Ok(Applied::Limit(which)) => Err(Halt::Limit(which)),
            Err(_) => Err(Halt::Memory),
        }
    }

    /// Two events happen, which no rule refuses; or the answer is why the cluster halts, and all is as before.
    pub(crate) fn make_both(&mut self, first: &Event, second: &Event) -> Result<(), Halt>
        requires cluster { self.old.world.cluster ≡ cluster_of self.old.script.value }
        requires paired { ArePaired first.now second.now }
        requires legal { AreLegal self.old.script.value (first.now ∷ second.now ∷ []) self.old.world.past }
        ensures ok { OnOk result (Happens (first.now ∷ second.now ∷ []) self.old self.new) }
        ensures err { OnErr result (self.new ≡ self.old) }
        ensures halt { IfErr result (HaltsBefore self.old (first.now ∷ second.now ∷ [])) }
    {
        match self.world.apply_both(first, second) {
            Ok(Applied::Done(_)) => Ok(()),
            Ok(Applied::Illegal(_)) => unreachable!(),
            Ok(Applied::Limit(which)) => Err(Halt::Limit(which)),
            Err(_) => Err(Halt::Memory),
        }
    }
}

/// The references that were taken, as the world tells it.
pub(crate) fn refs_in(told: Told) -> RefList
    requires { (refs : List Actor) × (told ≡ Taken refs) }
    ensures { told ≡ Taken result }
{
    match told {
        Told::Taken(refs) => refs,
        _ => unreachable!(),
    }
}

/// Who was born, as the world tells it.
pub(crate) fn child_in(told: Told) -> ActorId
    requires { (a : Actor) × (told ≡ Born a) }
    ensures { told ≡ Born result }
{
    match told {
        Told::Born(child) => child,
        _ => unreachable!(),
    }
}
