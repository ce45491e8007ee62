//! The removals of a round.
ghost use Rattle.std.specs.Prelude.{◌≡◌, IfErr, OnOk};
ghost use Rattle.run_model.specs.Round.{removals};
ghost use Rattle.cluster_round.specs.Halting.{IsRoundHalt};
ghost use Rattle.cluster_round.specs.Steps.{removals_at};

use crate::halt::RoundHalt;
use crate::trying::{node, try_event};
use cluster_course::Course;
use crgc_ids::NodeId;
use history_model::Event;

/// Each node that is up removes each node that crashed. It tries each pair of nodes, and each try takes constant time.
pub(crate) fn remove_crashed(course: &mut Course) -> Result<(), RoundHalt>
    ensures cluster { course.new.cluster ≡ course.old.cluster }
    ensures ok { OnOk result (course.new.past ≡ removals course.old.cluster course.old.past) }
    ensures halt { IfErr result (λ h. IsRoundHalt h course.old.cluster (removals course.old.cluster course.old.past) course.new.past) }
{
    for number in 0..course.nodes() {
        match remove_at(course, node(number)) {
            Ok(()) => {}
            Err(halt) => return Err(halt),
        }
    }
    Ok(())
}

/// One node removes each node that crashed.
fn remove_at(course: &mut Course, at: NodeId) -> Result<(), RoundHalt>
    ensures cluster { course.new.cluster ≡ course.old.cluster }
    ensures ok { OnOk result (course.new.past ≡ removals_at course.old.cluster at course.old.past) }
    ensures halt { IfErr result (λ h. IsRoundHalt h course.old.cluster (removals_at course.old.cluster at course.old.past) course.new.past) }
{
    for number in 0..course.nodes() {
        let gone = node(number);
        match try_event(course, Event::Remove { at, gone }) {
            Ok(()) => {}
            Err(halt) => return Err(halt),
        }
    }
    Ok(())
}
