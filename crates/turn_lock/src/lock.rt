//! The lock: one table of words and one slot.
ghost use Rattle.std.specs.Prelude.{◌≡◌, ◌+◌, ◌^◌, ◌<◌, List, [], ◌∷◌, ◌++◌, length, IfOk, IfErr};
ghost use Rattle.turn_lock.specs.History.{entry, calls_of, Begins, IsMadeOf, IsProper};
ghost use Rattle.turn_lock.specs.Idle.{IsIdle};
ghost use Rattle.turn_lock.specs.Plays.{Took};
ghost use Rattle.turn_lock.specs.Steps.{MayAnswer};
ghost use Rattle.turn_lock.specs.Views.{longer};
ghost use Rattle.turn_lock.specs.Turns.{IsWaiting, Holds, Answered, Served};
ghost use Rattle.turn_lock.specs.declared.object.Entry.{Entry};

use crate::object::Object;
use crate::pass::Pass;
use crate::rule::{
    AtDoor, Compare, Give, HandOn, Last, Look, Number, OneHistory, Room, SeatOf, TakeIn, Ticket,
    View,
};
use atomic_table::{Refused, Table};
use crgc_ids::NoMemory;
use std::alloc::{AllocFailed, Global};
use std::hint::spin_loop;
use std::marker::Model;
use std::snapshot::Snapshot;
use std::sync::Wait;
use std::time::Duration;

// The words of the table: three that count, and far enough from them to be in another cache line, the door.
const PASSES: usize = 0;

const TICKETS: usize = 1;

const SERVING: usize = 2;

const DOOR: usize = 16;

const WORDS: usize = DOOR + 1;

const SLOT: usize = 0;

// What the word of the door says: nobody is inside, or somebody is.
const OPEN: u64 = 0;

const SHUT: u64 = 1;

// How often a pass looks at a door that is shut, and how many microseconds it stays away from it after that.
const LOOKS: u32 = 2000;

const PAUSE: u64 = 10;

/// A lock whose passes keep a history. Contracts see which lock it is, as its passes do, and with what state it was made.
#[derive(Drop)]
pub struct TurnLock<O: Object> {
    table: Table<
        Room<O::State, O::Op, O::Reply>,
        View<O::State, O::Op, O::Reply>,
        Snapshot<O::State>,
        OneHistory<O>,
        Global,
    >,
}

impl<O: Object> Model for TurnLock<O> {
    ghost use Rattle.std.specs.Prelude.{◌≡◌};
    ghost use Rattle.turn_lock.specs.Known.{Made, made};

    ghost Value = { Made O.State };

    ghost view = { λ l. made l.table.shared.table_id l.table.shared.key.value };

    ghost use Rattle.turn_lock.specs.declared.lock.TheConstants.{WORDS};

    ghost invariant = { λ l. (l.table.shared.table_id.words ≡ WORDS) × (l.table.shared.table_id.slots ≡ 1) };
}

impl<O: Object> TurnLock<O> {
    /// A lock with an empty history, and its first pass, which has number 0 and has seen nothing. With `NoMemory` the
    /// state comes back. No later call of the lock takes memory, but for what the object's steps take.
    pub fn new(
        alloc: Global,
        state: O::State,
    ) -> Result<(TurnLock<O>, Pass<O>), (O::State, NoMemory)>
        ensures ok { IfOk result (λ r. (r.0.start ≡ state)
            × (r.1 ≡ record { origin = r.0.origin; number = 0; split = 0; joined = []; seen = []; own = []; gathered = [] })) }
        ensures err { IfErr result (λ r. r.0 ≡ state) }
    {
        let start = Snapshot::of(&state);
        let mut slots = Vec::new(alloc);
        if let Err(AllocFailed { value }) = slots.push(Room { state, last: None }) {
            slots.destroy_empty();
            return Err((state_of(value), NoMemory));
        }
        let mut words = [0; WORDS];
        words[PASSES] = 1;
        match Table::new(alloc, &words, slots, &start) {
            Ok((table, seat)) => Ok((TurnLock { table }, Pass { number: 0, seat })),
            Err(Refused { mut slots }) => {
                let Some(room) = slots.pop() else {
                    unreachable!()
                };
                slots.destroy_empty();
                Err((state_of(room), NoMemory))
            }
        }
    }

    /// A new pass with the next number, which has seen what the first one has and has made no call. Only the first pass
    /// splits, fewer than 2^32 - 1 times.
    pub fn split(&self, pass: &mut Pass<O>) -> Pass<O>
        requires lock { pass.old.origin ≡ self.now.origin }
        requires first { pass.old.number ≡ 0 }
        requires room { pass.old.split + 1 < 2 ^ 32 }
        ensures pass { pass.new ≡ record pass.old { split = pass.old.split + 1 } }
        ensures new { result ≡ record pass.old { number = pass.old.split + 1; split = 0; joined = []; own = []; gathered = [] } }
    {
        let shared = &self.table.shared;
        let number = shared.fetch_add::<Number>(&mut pass.seat, PASSES, 1) as u32;
        let seat = shared.split_seat::<Give>(&mut pass.seat);
        Pass { number, seat }
    }

    /// Makes one call of an operation that fits after what the pass has seen, and answers what the object replies.
    /// What the pass has seen then begins with what it had seen, goes on with calls of others, and ends with this one.
    ///
    /// Calls are served in the order of the tickets that they draw. A pass draws its ticket once it is through the door, which
    /// lets one in at a time, and whoever comes first: so a pass that makes many calls makes them one after another. One that
    /// finds the door shut looks up to `LOOKS` times, stays away for `PAUSE` microseconds, and looks again. A call where nobody
    /// else is costs four atomic steps and two looks; nobody wakes anybody.
    pub fn call<R: Wait>(&self, rt: &R, pass: &mut Pass<O>, op: O::Op) -> O::Reply
        requires lock { pass.old.origin ≡ self.now.origin }
        requires fits { O.fits self.now.start pass.old.seen op pass.old.number }
        ensures pass { pass.new ≡ record pass.old { seen = pass.new.seen; own = pass.new.own } }
        ensures seen { (between : List (Entry O.Op O.Reply))
            × (pass.new.seen ≡ entry pass.old.number op result ∷ (between ++ pass.old.seen)) × (calls_of pass.old.number between ≡ []) }
        ensures own { (pass.new.own ≡ entry pass.old.number op result ∷ pass.old.own) × (calls_of pass.old.number pass.new.seen ≡ pass.new.own) }
        ensures proper { IsProper O.fits O.stands self.now.start pass.new.seen }
    {
        self.serve(rt, &mut pass.seat, pass.number, op)
    }

    /// Takes a pass in: the first pass has then seen the longer of the two histories, which each of the two begins, and
    /// the other's calls, in their order, count as joined.
    pub fn join(&self, pass: &mut Pass<O>, other: Pass<O>)
        requires lock { (pass.old.origin ≡ self.now.origin) × (other.origin ≡ self.now.origin) }
        requires first { pass.old.number ≡ 0 }
        ensures pass { pass.new ≡ record pass.old {
          joined = other.number ∷ pass.old.joined;
          seen = longer pass.old.seen other.seen;
          gathered = other.own ++ pass.old.gathered;
        } }
        ensures begins { Begins pass.old.seen pass.new.seen × Begins other.seen pass.new.seen }
    {
        let shared = &self.table.shared;
        let Pass { number: _, seat } = other;
        shared.join_seat::<TakeIn>(&mut pass.seat, seat);
        shared.load::<Compare>(&mut pass.seat, PASSES);
    }

    /// The state, once every pass that was split is joined. It stands for all that the first pass has seen, which is made
    /// of the calls of the first pass and of those joined, each once and in their order.
    pub fn close(self, pass: Pass<O>) -> O::State
        requires lock { pass.origin ≡ self.origin }
        requires first { pass.number ≡ 0 }
        requires joined { length pass.joined ≡ pass.split }
        ensures stands { O.stands self.start pass.seen result }
        ensures proper { IsProper O.fits O.stands self.start pass.seen }
        ensures calls { IsMadeOf (pass.own ++ pass.gathered) pass.seen }
    {
        let TurnLock { table } = self;
        let Pass { number: _, seat } = pass;
        let mut closed = table.close_with(seat);
        let room = closed.take(SLOT);
        closed.free();
        state_of(room)
    }

    // One call, behind the door.
    fn serve<R: Wait>(&self, rt: &R, seat: &mut SeatOf<O>, pass: u32, op: O::Op) -> O::Reply
        requires lock { (seat.old.table_id ≡ self.now.origin.table) × (seat.old.me.0.start ≡ self.now.origin.start) }
        requires idle { IsIdle pass seat.old.me }
        requires fits { O.fits self.now.start seat.old.me.0.seen op pass }
        ensures lock { seat.new.table_id ≡ seat.old.table_id }
        ensures served { Served O.fits O.stands self.now.start pass op result seat.old.me.0 seat.new.me }
    {
        self.shut_door(rt, seat);
        let reply = self.take_turn(rt, seat, pass, op);
        self.open_door(seat);
        reply
    }

    // From the ticket drawn to the turn handed on.
    fn take_turn<R: Wait>(&self, rt: &R, seat: &mut SeatOf<O>, pass: u32, op: O::Op) -> O::Reply
        requires lock { (seat.old.table_id ≡ self.now.origin.table) × (seat.old.me.0.start ≡ self.now.origin.start) }
        requires idle { IsIdle pass seat.old.me }
        requires fits { O.fits self.now.start seat.old.me.0.seen op pass }
        ensures lock { seat.new.table_id ≡ seat.old.table_id }
        ensures served { Served O.fits O.stands self.now.start pass op result seat.old.me.0 seat.new.me }
    {
        let shared = &self.table.shared;
        let ticket = shared.fetch_add::<Ticket>(seat, TICKETS, 1);
        self.wait(rt, seat, ticket);
        let reply = self.make(seat, pass, op);
        shared.fetch_add::<HandOn>(seat, SERVING, 1);
        reply
    }

    // Until the pass has shut the door behind it. No clause rests on the door: tickets say whose turn it is, and the door keeps
    // those away whose turn it is not.
    fn shut_door<R: Wait>(&self, rt: &R, seat: &mut SeatOf<O>)
        requires lock { seat.old.table_id ≡ self.now.origin.table }
        ensures seat { (seat.new.table_id ≡ seat.old.table_id) × (seat.new.me ≡ seat.old.me) }
    {
        for _ in rt.forever() {
            if self.comes_in(seat) {
                return;
            }
            let pause = Duration::from_micros(PAUSE);
            self.table.shared.park_timeout(rt, DOOR, SHUT as u32, pause);
        }
        unreachable!()
    }

    // Looks a while, and shuts the door where it finds it open; whether it did.
    fn comes_in(&self, seat: &mut SeatOf<O>) -> bool
        requires lock { seat.old.table_id ≡ self.now.origin.table }
        ensures seat { (seat.new.table_id ≡ seat.old.table_id) × (seat.new.me ≡ seat.old.me) }
    {
        let shared = &self.table.shared;
        for _ in 0..LOOKS {
            if shared.peek(DOOR) == OPEN
                && shared.compare_exchange::<AtDoor>(seat, DOOR, OPEN, SHUT) == OPEN
            {
                return true;
            }
            spin_loop();
        }
        false
    }

    // Whoever looks next finds the door open.
    fn open_door(&self, seat: &mut SeatOf<O>)
        requires lock { seat.old.table_id ≡ self.now.origin.table }
        ensures seat { (seat.new.table_id ≡ seat.old.table_id) × (seat.new.me ≡ seat.old.me) }
    {
        self.table.shared.swap::<AtDoor>(seat, DOOR, OPEN);
    }

    // Until the ticket is served, which is at the first look where the door let nobody else in.
    fn wait<R: Wait>(&self, rt: &R, seat: &mut SeatOf<O>, ticket: u64)
        requires lock { seat.old.table_id ≡ self.now.origin.table }
        requires waits { IsWaiting ticket seat.old.me }
        ensures lock { seat.new.table_id ≡ seat.old.table_id }
        ensures took { Took O.fits O.stands seat.old.me seat.new.me }
    {
        let shared = &self.table.shared;
        for _ in rt.forever() {
            if shared.load::<Look<O>>(seat, SERVING) == ticket {
                return;
            }
            spin_loop();
        }
        unreachable!()
    }

    // One step of the object, on the slot that the seat has.
    fn make(&self, seat: &mut SeatOf<O>, pass: u32, op: O::Op) -> O::Reply
        requires lock { seat.old.table_id ≡ self.now.origin.table }
        requires may { Holds seat.old.me (λ room. MayAnswer O.fits O.stands pass op room.state) }
        ensures seat { (seat.new.table_id ≡ seat.old.table_id) × (seat.new.id ≡ seat.old.id) × (seat.new.me.0 ≡ seat.old.me.0) }
        ensures made { Holds seat.old.me (λ before. Holds seat.new.me (λ after. Answered O.fits O.stands pass op result before after)) }
    {
        let room = seat.slot_mut(&self.table.shared, SLOT);
        let asked = Snapshot::of(&op);
        let reply = O::step(&mut room.state, pass, op);
        room.last = Some(Last {
            op: asked,
            reply: Snapshot::of(&reply),
        });
        reply
    }
}

fn state_of<S, P, R>(room: Room<S, P, R>) -> S
    ensures { result ≡ room.state }
{
    let Room { state, last: _ } = room;
    state
}
