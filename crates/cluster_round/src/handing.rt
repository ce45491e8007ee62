//! The hands of a round.
ghost use Rattle.std.specs.Prelude.{◌≡◌, ◌<◌, IfErr, IfOk, IsTrue, OnOk, length};
ghost use Rattle.history_model.specs.declared.events.Event.TheVariants as events;
ghost use Rattle.history_model.specs.State.{is_up};
ghost use Rattle.history_model.specs.Streams.{stream};
ghost use Rattle.node_collectors.specs.Wanted.{IsFirstUnhanded};
ghost use Rattle.run_model.specs.Round.{handed_from, hands, tried};
ghost use Rattle.cluster_round.specs.Halting.{IsRoundHalt};
ghost use Rattle.cluster_round.specs.Steps.{handed_to};

use crate::halt::RoundHalt;
use crate::trying::{node, try_event};
use cluster_course::Course;
use crgc_ids::NodeId;
use history_model::Event;

/// Each node that is up is handed all bulletins of each node that it was not handed yet, in the time of these hands, and
/// logarithmic time for each pair of nodes.
pub(crate) fn hand_all(course: &mut Course) -> Result<(), RoundHalt>
    ensures cluster { course.new.cluster ≡ course.old.cluster }
    ensures ok { OnOk result (course.new.past ≡ hands course.old.cluster course.old.past) }
    ensures halt { IfErr result (λ h. IsRoundHalt h course.old.cluster (hands course.old.cluster course.old.past) course.new.past) }
{
    for number in 0..course.nodes() {
        match hand_to(course, node(number)) {
            Ok(()) => {}
            Err(halt) => return Err(halt),
        }
    }
    Ok(())
}

/// One node is handed all bulletins of each node.
fn hand_to(course: &mut Course, to: NodeId) -> Result<(), RoundHalt>
    requires { to < course.old.cluster.nodes }
    ensures cluster { course.new.cluster ≡ course.old.cluster }
    ensures ok { OnOk result (course.new.past ≡ handed_to course.old.cluster to course.old.past) }
    ensures halt { IfErr result (λ h. IsRoundHalt h course.old.cluster (handed_to course.old.cluster to course.old.past) course.new.past) }
{
    for number in 0..course.nodes() {
        match hand_from(course, to, node(number)) {
            Ok(()) => {}
            Err(halt) => return Err(halt),
        }
    }
    Ok(())
}

/// One node is handed all bulletins of one node.
fn hand_from(course: &mut Course, to: NodeId, origin: NodeId) -> Result<(), RoundHalt>
    requires to { to < course.old.cluster.nodes }
    requires origin { origin < course.old.cluster.nodes }
    ensures cluster { course.new.cluster ≡ course.old.cluster }
    ensures ok { OnOk result (course.new.past ≡ handed_from course.old.cluster to origin course.old.past) }
    ensures halt { IfErr result (λ h. IsRoundHalt h course.old.cluster (handed_from course.old.cluster to origin course.old.past) course.new.past) }
{
    if course.world().is_up(to) {
        return hand_wanted(course, to, origin);
    }
    Ok(())
}

/// One node, which is up, is handed all bulletins of one node. It goes from one number that is wanted to the next.
fn hand_wanted(course: &mut Course, to: NodeId, origin: NodeId) -> Result<(), RoundHalt>
    requires to { to < course.old.cluster.nodes }
    requires origin { origin < course.old.cluster.nodes }
    requires up { IsTrue (is_up to course.old.past) }
    ensures cluster { course.new.cluster ≡ course.old.cluster }
    ensures ok { OnOk result (course.new.past ≡ handed_from course.old.cluster to origin course.old.past) }
    ensures halt { IfErr result (λ h. IsRoundHalt h course.old.cluster (handed_from course.old.cluster to origin course.old.past) course.new.past) }
{
    let end = course.world().stream_len(origin);
    match course.wants(to, origin) {
        Ok(first) => hand_numbers(course, to, origin, first, end),
        Err(_) => Err(RoundHalt::NoMemory),
    }
}

/// One node, which is up, is handed the bulletins of one node, from the first number that it wants up to the end of the stream.
fn hand_numbers(
    course: &mut Course,
    to: NodeId,
    origin: NodeId,
    first: u32,
    end: u32,
) -> Result<(), RoundHalt>
    requires to { to < course.old.cluster.nodes }
    requires origin { origin < course.old.cluster.nodes }
    requires up { IsTrue (is_up to course.old.past) }
    requires first { IsFirstUnhanded to origin course.old.past first }
    requires end { end ≡ length (stream course.old.cluster origin course.old.past) }
    ensures cluster { course.new.cluster ≡ course.old.cluster }
    ensures ok { OnOk result (course.new.past ≡ handed_from course.old.cluster to origin course.old.past) }
    ensures halt { IfErr result (λ h. IsRoundHalt h course.old.cluster (handed_from course.old.cluster to origin course.old.past) course.new.past) }
{
    let mut number = first;
    while number < end {
        match hand_next(course, to, origin, number) {
            Ok(next) => number = next,
            Err(halt) => return Err(halt),
        }
    }
    Ok(())
}

/// One bulletin is handed to a node that is up, unless a rule refuses it; the answer is the first number that is wanted then.
fn hand_next(course: &mut Course, to: NodeId, origin: NodeId, number: u32) -> Result<u32, RoundHalt>
    requires to { to < course.old.cluster.nodes }
    requires origin { origin < course.old.cluster.nodes }
    requires up { IsTrue (is_up to course.old.past) }
    ensures cluster { course.new.cluster ≡ course.old.cluster }
    ensures ok { OnOk result (course.new.past ≡ tried course.old.cluster (events.Hand to origin number) course.old.past) }
    ensures next { IfOk result (IsFirstUnhanded to origin course.new.past) }
    ensures halt { IfErr result (λ h.
        IsRoundHalt h course.old.cluster (tried course.old.cluster (events.Hand to origin number) course.old.past) course.new.past) }
{
    match try_event(course, Event::Hand { to, origin, number }) {
        Ok(()) => {}
        Err(halt) => return Err(halt),
    }
    match course.wants(to, origin) {
        Ok(next) => Ok(next),
        Err(_) => Err(RoundHalt::NoMemory),
    }
}
