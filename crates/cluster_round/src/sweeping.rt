//! The sweeps of a round.
ghost use Rattle.std.specs.Prelude.{◌≡◌, IfErr, OnOk};
ghost use Rattle.run_model.specs.Round.{sweeps};
ghost use Rattle.cluster_round.specs.Halting.{IsRoundHalt};

use crate::halt::RoundHalt;
use crate::trying::{node, try_event};
use cluster_course::Course;
use history_model::Event;

/// Each node that is up sweeps, in the time of its collector's sweep.
pub(crate) fn sweep_all(course: &mut Course) -> Result<(), RoundHalt>
    ensures cluster { course.new.cluster ≡ course.old.cluster }
    ensures ok { OnOk result (course.new.past ≡ sweeps course.old.cluster course.old.past) }
    ensures halt { IfErr result (λ h. IsRoundHalt h course.old.cluster (sweeps course.old.cluster course.old.past) course.new.past) }
{
    for number in 0..course.nodes() {
        let node = node(number);
        match try_event(course, Event::Sweep { node }) {
            Ok(()) => {}
            Err(halt) => return Err(halt),
        }
    }
    Ok(())
}
