//! What a thread calls a lock with.

use crate::object::Object;
use crate::rule::SeatOf;
use std::marker::Model;

/// The right to make calls of a lock, one at a time. Contracts see it as what it knows of the lock's history. A pass that
/// is dropped is never joined, so its lock cannot be closed.
#[derive(Drop)]
pub struct Pass<O: Object> {
    pub(crate) number: u32,
    pub(crate) seat: SeatOf<O>,
}

impl<O: Object> Model for Pass<O> {
    ghost use Rattle.turn_lock.specs.Known.{Known};

    ghost Value = { Known O.State O.Op O.Reply };

    ghost use Rattle.turn_lock.specs.Idle.{known, IsIdle};

    ghost view = { λ p. known p.seat.table_id p.seat.me.0 };

    ghost invariant = { λ p. IsIdle p.number p.seat.me };
}
