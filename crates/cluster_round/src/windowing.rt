//! The windows of a round.
ghost use Rattle.std.specs.Prelude.{◌≡◌, IfErr, OnOk};
ghost use Rattle.run_model.specs.Round.{windows};
ghost use Rattle.cluster_round.specs.Halting.{IsRoundHalt};
ghost use Rattle.cluster_round.specs.Steps.{windows_at};

use crate::halt::RoundHalt;
use crate::trying::{node, try_event};
use cluster_course::Course;
use crgc_ids::NodeId;
use history_model::Event;

/// Each node that is up tells what it admitted from each other node. It tries each pair of nodes, and each try takes the time of a window.
pub(crate) fn tell_admitted(course: &mut Course) -> Result<(), RoundHalt>
    ensures cluster { course.new.cluster ≡ course.old.cluster }
    ensures ok { OnOk result (course.new.past ≡ windows course.old.cluster course.old.past) }
    ensures halt { IfErr result (λ h. IsRoundHalt h course.old.cluster (windows course.old.cluster course.old.past) course.new.past) }
{
    for number in 0..course.nodes() {
        match tell_admitted_at(course, node(number)) {
            Ok(()) => {}
            Err(halt) => return Err(halt),
        }
    }
    Ok(())
}

/// One node tells what it admitted from each other node.
fn tell_admitted_at(course: &mut Course, at: NodeId) -> Result<(), RoundHalt>
    ensures cluster { course.new.cluster ≡ course.old.cluster }
    ensures ok { OnOk result (course.new.past ≡ windows_at course.old.cluster at course.old.past) }
    ensures halt { IfErr result (λ h. IsRoundHalt h course.old.cluster (windows_at course.old.cluster at course.old.past) course.new.past) }
{
    for number in 0..course.nodes() {
        let from = node(number);
        match try_event(course, Event::Window { at, from }) {
            Ok(()) => {}
            Err(halt) => return Err(halt),
        }
    }
    Ok(())
}
