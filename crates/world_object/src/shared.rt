//! The cluster under the lock.

use crate::cluster::Cluster;
use operation_model::{Op, Reply};
use turn_lock::Object;

/// The object of a turn lock whose state is a cluster. A pass may make each operation that fits, in a lock that was made with a
/// sound cluster; and a state stands for a course of calls from the cluster with which the lock was made.
pub struct Shared;

impl Object for Shared {
    ghost use Rattle.world_object.specs.Locked.{IsStateOf, MayMake, state_of_nothing, still_may_make};
    ghost use Rattle.world_object.specs.State.{as_opening};

    type State = Cluster;

    type Op = Op;

    type Reply = Reply;

    ghost fits = { λ start history op pass. MayMake (as_opening start) history op pass };

    ghost stands = { λ start history state. IsStateOf start history state };

    ghost still_fits = { λ start later history op pass none may. still_may_make (as_opening start) later history op pass none may };

    ghost stands_first = { λ start. state_of_nothing start };

    fn step(state: &mut Cluster, pass: u32, op: Op) -> Reply {
        state.is_sound();
        state.step(pass, op)
    }
}
