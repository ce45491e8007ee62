//! Events that no rule refuses.
ghost use Rattle.std.specs.Prelude.{◌≡◌, ◌<◌, ◌∷◌, IfErr, IfOk, List, None, OnOk};
ghost use Rattle.crgc_ids.specs.Actor.{Actor};
ghost use Rattle.history_model.specs.Legal.{refusal};
ghost use Rattle.run_model.specs.Round.{round};
ghost use Rattle.run_model.specs.Schedule.{IsWithinLimits};
ghost use Rattle.true_config.specs.Applying.{CarriesFew, told_of};
ghost use Rattle.true_config.specs.Steps.{Adds};
ghost use Rattle.true_config.specs.declared.applied.Told.TheVariants.{Born, Taken};
ghost use Rattle.script_player.specs.Making.{HaltsOn};

use crate::fault::RunFault;
use cluster_course::{Course, Halt};
use cluster_round::{RoundHalt, round};
use crgc_ids::{ActorId, NodeId, RefList};
use history_model::Event;
use true_config::Told;

/// An event happens, which no rule refuses, and the world tells what came of it; or the answer is the limit that it would pass. In the
/// time that the course takes for it.
#[inline(always)]
pub(crate) fn make(course: &mut Course, event: Event) -> Result<Told, RunFault>
    requires legal { refusal course.old.cluster event course.old.past ≡ None }
    requires few { CarriesFew event }
    ensures told { IfOk result (λ told. told ≡ told_of event course.old.past) }
    ensures ok { OnOk result (Adds event course.old course.new) }
    ensures within { IsWithinLimits course.new.cluster course.new.past }
    ensures fault { IfErr result (HaltsOn course.old.cluster (event ∷ course.old.past)) }
{
    course.is_lawful();
    match course.follow(event) {
        Ok(told) => {
            course.is_lawful();
            Ok(told)
        }
        Err(Halt::Rule(_)) => unreachable!(),
        Err(Halt::Limit(which)) => Err(RunFault::Limit(which)),
        Err(Halt::NoMemory) => Err(RunFault::NoMemory),
    }
}

/// A round is made; or the answer is the limit that an event of it would pass.
pub(crate) fn make_round(course: &mut Course) -> Result<(), RunFault>
    ensures cluster { course.new.cluster ≡ course.old.cluster }
    ensures past { OnOk result (course.new.past ≡ round course.old.cluster course.old.past) }
    ensures within { IsWithinLimits course.new.cluster course.new.past }
    ensures fault { IfErr result (HaltsOn course.old.cluster (round course.old.cluster course.old.past)) }
{
    let made = round(course);
    course.is_lawful();
    match made {
        Ok(()) => Ok(()),
        Err(RoundHalt::Limit(which)) => Err(RunFault::Limit(which)),
        Err(RoundHalt::NoMemory) => Err(RunFault::NoMemory),
    }
}

/// Who was born, as the world tells it.
pub(crate) fn child_in(told: Told) -> ActorId
    requires { (a : Actor) × (told ≡ Born a) }
    ensures { told ≡ Born result }
{
    match told {
        Told::Born(child) => child,
        _ => unreachable!(),
    }
}

/// The references that were taken, as the world tells it.
pub(crate) fn refs_in(told: Told) -> RefList
    requires { (refs : List Actor) × (told ≡ Taken refs) }
    ensures { told ≡ Taken result }
{
    match told {
        Told::Taken(refs) => refs,
        _ => unreachable!(),
    }
}

/// The node with this number.
pub(crate) fn node(number: u8) -> NodeId
    requires { number < 16 }
    ensures { result ≡ number }
{
    NodeId::new(number).unwrap()
}
