//! A worked round in the midst of a turn, with ample memory.
ghost use Rattle.true_config.specs.Applying.{CarriesFew};

use cluster_course::Course;
use cluster_round::round;
use crgc_ids::{ActorId, NodeId};
use history_model::Event;
use node_collectors::NodeCollectors;
use std::alloc::Global;
use std::process::Abort;
use std::test::Fail;
use true_config::World;

fn follow(course: &mut Course, event: Event) -> Result<(), Fail>
    requires { CarriesFew event }
{
    match course.follow(event) {
        Ok(_) => Ok(()),
        Err(_) => Err(Fail::new("hindered")),
    }
}

/// An actor tells of itself before and in its turn, and the second bulletin is handed before the first.
fn begin_turn(course: &mut Course, actor: ActorId) -> Result<(), Fail> {
    let node = actor.node();
    follow(course, Event::Seed { node })?;
    follow(course, Event::Flush { actor })?;
    follow(course, Event::Publish { node })?;
    follow(course, Event::Wake { actor })?;
    follow(course, Event::Flush { actor })?;
    follow(course, Event::Publish { node })?;
    let hand = Event::Hand {
        to: node,
        origin: node,
        number: 1,
    };
    follow(course, hand)
}

/// How many events the course has after a round.
fn after_round(course: &mut Course) -> Result<u64, Fail> {
    match round(course) {
        Ok(()) => Ok(course.len()),
        Err(_) => Err(Fail::new("halted")),
    }
}

/// How many events the course of an empty history of one node has after one round and after another, in the midst of a turn.
fn after_two_rounds(course: &mut Course) -> Result<(u64, u64), Fail> {
    let node = NodeId::new(0).ok_or("node 0")?;
    let actor = ActorId::new(node, 0).ok_or("0.0")?;
    let child = ActorId::new(node, 1).ok_or("0.1")?;
    begin_turn(course, actor)?;
    follow(course, Event::Spawn { parent: actor })?;
    follow(course, Event::Flush { actor: child })?;
    let first = after_round(course)?;
    Ok((first, after_round(course)?))
}

/// The course of an empty history, made of its parts.
fn course_of_parts(alloc: Global) -> Result<Course, Fail> {
    let world = World::new(alloc, 1, 2)?;
    let collectors = NodeCollectors::new(alloc, 1)?;
    Ok(Course::of(world, collectors, Vec::new(alloc)))
}

#[test]
fn a_round_tells_hands_and_sweeps_what_is_left(rt: HostRuntime) -> Result<(), Fail> {
    let mut course = Course::begin(rt.alloc(), 1, 2, true)?;
    assert_eq!(rt; after_two_rounds(&mut course)?, (14, 15));
    Ok(())
}

#[test]
fn collectors_that_a_course_is_given_take_part_in_its_rounds(rt: HostRuntime) -> Result<(), Fail> {
    let mut course = course_of_parts(rt.alloc())?;
    assert_eq!(rt; after_two_rounds(&mut course)?, (14, 15));
    Ok(())
}
