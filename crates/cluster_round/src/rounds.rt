//! The round.
ghost use Rattle.std.specs.Prelude.{◌≡◌, IfErr, OnOk};
ghost use Rattle.run_model.specs.Round.{round};
ghost use Rattle.cluster_round.specs.Halting.{IsRoundHalt};

use crate::flushing::flush_all;
use crate::halt::RoundHalt;
use crate::handing::hand_all;
use crate::removing::remove_crashed;
use crate::sweeping::sweep_all;
use crate::windowing::tell_admitted;
use cluster_course::Course;

/// One round: each node that is up removes the nodes that crashed, tells what it admitted, flushes its actors and publishes, is
/// handed all bulletins, and sweeps. Or the answer is the limit that the next event of the round would pass; the history then has
/// those before it. After `NoMemory` it has some first part of the round. In the time of the events that it adds, and of a try for
/// each pair of nodes and stage, 256 at most.
pub fn round(course: &mut Course) -> Result<(), RoundHalt>
    ensures cluster { course.new.cluster ≡ course.old.cluster }
    ensures ok { OnOk result (course.new.past ≡ round course.old.cluster course.old.past) }
    ensures halt { IfErr result (λ h. IsRoundHalt h course.old.cluster (round course.old.cluster course.old.past) course.new.past) }
{
    match remove_crashed(course) {
        Ok(()) => {}
        Err(halt) => return Err(halt),
    }
    match tell_admitted(course) {
        Ok(()) => {}
        Err(halt) => return Err(halt),
    }
    match flush_all(course) {
        Ok(()) => {}
        Err(halt) => return Err(halt),
    }
    match hand_all(course) {
        Ok(()) => {}
        Err(halt) => return Err(halt),
    }
    sweep_all(course)
}
