//! One event of a round.
ghost use Rattle.std.specs.Prelude.{◌≡◌, ◌<◌, IfErr, OnOk};
ghost use Rattle.run_model.specs.Round.{tried};
ghost use Rattle.true_config.specs.Applying.{CarriesFew};
ghost use Rattle.cluster_round.specs.Halting.{IsRoundHalt, outcome_of};

use crate::halt::RoundHalt;
use cluster_course::{Course, Halt};
use crgc_ids::NodeId;
use history_model::Event;
use true_config::Told;

/// The event happens, unless a rule refuses it.
#[inline(always)]
pub(crate) fn try_event(course: &mut Course, event: Event) -> Result<(), RoundHalt>
    requires { CarriesFew event }
    ensures cluster { course.new.cluster ≡ course.old.cluster }
    ensures ok { OnOk result (course.new.past ≡ tried course.old.cluster event course.old.past) }
    ensures halt { IfErr result (λ h. IsRoundHalt h course.old.cluster (tried course.old.cluster event course.old.past) course.new.past) }
{
    unless_refused(course.follow(event))
}

/// A refused event is left out.
fn unless_refused(followed: Result<Told, Halt>) -> Result<(), RoundHalt>
    ensures { result ≡ outcome_of followed }
{
    match followed {
        Ok(_) => Ok(()),
        Err(Halt::Rule(_)) => Ok(()),
        Err(Halt::Limit(which)) => Err(RoundHalt::Limit(which)),
        Err(Halt::NoMemory) => Err(RoundHalt::NoMemory),
    }
}

/// The node with this number.
pub(crate) fn node(number: u8) -> NodeId
    requires { number < 16 }
    ensures { result ≡ number }
{
    NodeId::new(number).unwrap()
}
