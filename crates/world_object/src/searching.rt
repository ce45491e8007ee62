//! What is next.
ghost use Rattle.std.specs.Prelude.{◌≡◌, ◌<◌, ◌^◌, slice_get, IfSome};
ghost use Rattle.std.specs.Option.{option_map};
ghost use Rattle.run_model.specs.Planned.{next_wake, planned};
ghost use Rattle.operation_model.specs.Answers.{ready};
ghost use Rattle.operation_model.specs.Courses.{next_carried, next_removal, next_window};
ghost use Rattle.world_object.specs.Searching.{HasRow, carry_of, planned_of};
ghost use Rattle.world_object.specs.Standing.{Stands};

use crate::parts::ClusterParts;
use crgc_ids::{ActorId, NodeId};
use history_model::Event;
use script_progress::Carry;

impl ClusterParts {
    /// The lowest seed that has a wake left and may wake. Linear time in the seeds that have one left and may not.
    pub(crate) fn next_wake(&self) -> Option<ActorId>
        requires { Stands self.now }
        ensures { result ≡ next_wake self.now.script.value self.now.world.past }
    {
        let mut after = None;
        while let Some(actor) = self.progress.next_planned(after) {
            // It is known to be in range once it is read.
            let _place = (actor.node().get(), actor.serial());
            if self.world.refusal(&Event::Wake { actor }).is_none() {
                return Some(actor);
            }
            after = Some(actor);
        }
        None
    }

    /// The lowest node from which the node may cut a window.
    pub(crate) fn next_window(&self, at: NodeId) -> Option<NodeId>
        requires { Stands self.now }
        ensures { result ≡ next_window self.now.script.value at self.now.world.past }
    {
        self.world.next_window(at)
    }

    /// The lowest node that the node may remove.
    pub(crate) fn next_removal(&self, at: NodeId) -> Option<NodeId>
        requires { Stands self.now }
        ensures { result ≡ next_removal self.now.script.value at self.now.world.past }
    {
        self.world.next_removal(at)
    }

    /// What is planned for the lowest number with a copy on the link, and that number; None where nothing can be carried.
    /// Logarithmic time.
    pub(crate) fn next_carried(&self, from: NodeId, at: NodeId) -> Option<(Carry, u32)>
        requires stands { Stands self.now }
        requires from { from < self.now.script.value.nodes }
        requires at { at < self.now.script.value.nodes }
        ensures next { option_map (carry_of from at) result ≡ next_carried self.now.script.value from at self.now.world.past }
        ensures left { IfSome result (λ x. HasRow self.now from at x.1 x.0) }
    {
        if from == at {
            return None;
        }
        match self.world.link_head(from, at) {
            Some(number) => Some((self.progress.carry_of(from, at, number), number)),
            None => None,
        }
    }

    /// The actor that may take a message and has so many before it; None where there are no more. Logarithmic time for each of
    /// them.
    pub(crate) fn ready(&self, skip: u32) -> Option<ActorId>
        requires { Stands self.now }
        ensures { result ≡ slice_get (ready self.now.script.value self.now.world.past) skip }
    {
        let mut after = None;
        for _ in 0..skip {
            match self.world.next_ready(after) {
                Some(actor) => after = Some(actor),
                None => return None,
            }
        }
        self.world.next_ready(after)
    }

    /// How many wakes are left of roots on nodes that are up. Linear time in the seeds.
    pub(crate) fn planned(&self) -> u64
        requires { Stands self.now }
        ensures { result ≡ planned self.now.script.value self.now.world.past }
    {
        let mut sum = 0;
        for seed in self.seeds.as_slice() {
            sum += self.wakes_of(*seed) as u64;
        }
        sum
    }

    /// How many wakes the seed has left, if it is a root on a node that is up.
    fn wakes_of(&self, seed: ActorId) -> u32
        requires { Stands self.now }
        ensures value { result ≡ planned_of self.now.script.value self.now.world.past seed }
        ensures range { result < 2 ^ 32 }
    {
        if self.world.is_up(seed.node()) && self.world.is_root(seed) {
            self.progress.wakes_left(seed)
        } else {
            0
        }
    }
}
