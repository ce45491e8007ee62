//! What the table of a lock holds, what each seat at it knows, and what each step tells.

use crate::object::{Entry, Object};
use atomic_table::{Join, Play, Seat, Split, TableRule};
use std::collections::LinkedList;
use std::marker::PhantomData;
use std::snapshot::Snapshot;

// The last call, as clauses see it.
#[derive(Drop)]
pub struct Last<P, R> {
    pub op: Snapshot<P>,
    pub reply: Snapshot<R>,
}

// What the slot holds.
#[derive(Drop)]
pub struct Room<S, P, R> {
    pub state: S,
    pub last: Option<Last<P, R>>,
}

// What a seat knows. No value of it is made.
pub struct View<S, P, R> {
    pub start: Option<S>,
    pub live: u64,
    pub number: u64,
    pub drawn: u64,
    pub given: u64,
    pub joined: LinkedList<u64>,
    pub waits: u64,
    pub turn: u64,
    pub ticket: u64,
    pub seen: LinkedList<Entry<P, R>>,
    pub own: LinkedList<Entry<P, R>>,
    pub gathered: LinkedList<Entry<P, R>>,
    pub heard: LinkedList<Entry<P, R>>,
}

pub type SeatOf<O> = Seat<
    Room<<O as Object>::State, <O as Object>::Op, <O as Object>::Reply>,
    View<<O as Object>::State, <O as Object>::Op, <O as Object>::Reply>,
>;

pub struct OneHistory<O> {
    object: PhantomData<O>,
}

impl<O: Object> TableRule<
    Room<O::State, O::Op, O::Reply>,
    View<O::State, O::Op, O::Reply>,
    Snapshot<O::State>,
> for OneHistory<O> {
    ghost use Rattle.turn_lock.specs.Rule.{Kept, newcomer};

    ghost holds = { λ key. Kept O.fits O.stands key.value };

    ghost first = { λ key. newcomer key.value };
}

// A number is drawn for a new pass.
pub struct Number;

impl<S, P, R> Play<Room<S, P, R>, View<S, P, R>> for Number {
    ghost use Rattle.turn_lock.specs.Plays.{draws_number};

    ghost then = { draws_number };
}

// The first pass gives the number that it drew to a new pass.
pub struct Give;

impl<S, P, R> Split<View<S, P, R>> for Give {
    ghost use Rattle.turn_lock.specs.Views.{kept, given};

    ghost left = { kept };

    ghost right = { given };
}

// The first pass takes another in.
pub struct TakeIn;

impl<S, P, R> Join<View<S, P, R>> for TakeIn {
    ghost use Rattle.turn_lock.specs.Views.{both, spent};

    ghost both = { both };

    ghost spent = { spent };
}

// The histories of the last join are compared.
pub struct Compare;

impl<S, P, R> Play<Room<S, P, R>, View<S, P, R>> for Compare {
    ghost use Rattle.turn_lock.specs.Plays.{compares};

    ghost then = { compares };
}

// A ticket is drawn.
pub struct Ticket;

impl<S, P, R> Play<Room<S, P, R>, View<S, P, R>> for Ticket {
    ghost use Rattle.turn_lock.specs.Plays.{draws_ticket};

    ghost then = { draws_ticket };
}

// The pass looks whether it has the turn.
pub struct Look<O> {
    object: PhantomData<O>,
}

impl<O: Object> Play<Room<O::State, O::Op, O::Reply>, View<O::State, O::Op, O::Reply>> for Look<O> {
    ghost use Rattle.turn_lock.specs.Plays.{looks};

    ghost then = { looks O.fits O.stands };
}

// The turn goes to the next ticket.
pub struct HandOn;

impl<S, P, R> Play<Room<S, P, R>, View<S, P, R>> for HandOn {
    ghost use Rattle.turn_lock.specs.Plays.{hands_on};

    ghost then = { hands_on };
}

// The door is shut or opened.
pub struct AtDoor;

impl<S, P, R> Play<Room<S, P, R>, View<S, P, R>> for AtDoor {
    ghost use Rattle.turn_lock.specs.Plays.{passes_door};

    ghost then = { passes_door };
}
