//! Shadows by actor and by place.
ghost use Rattle.std.specs.Prelude.{◌≡◌, ◌+◌, ◌-◌, ◌<◌, ◌≤◌, ◌^◌, true, IsTrue, OnErr, OnOk, IfSome, length, map, slice_get, slice_index_or, take, vec_capacity, vec_len};
ghost use Rattle.std.specs.Option.{is_some};
ghost use Rattle.std.specs.List.{AllByRecursion, IsDistinct};
ghost use Rattle.crgc_ids.specs.Actor.{Actor, same_actor};
ghost use Rattle.history_model.specs.Ledgers.{actor_total, received_total};
ghost use Rattle.shadow_table.specs.Numbers.{HasRoomFor, number_of};
ghost use Rattle.shadow_table.specs.Shadows.{ChangesShadow, ChangesShadows, as_dropped, blank, dropped_count, first_of, is_named, no_shadows};
ghost use Rattle.shadow_table.specs.Shadows.{place_in, shadow_at, with_admitted, with_name, with_state, with_states, with_told, without_told};

use crate::numbers::ActorNumbers;
use crgc_ids::{ActorCount, ActorId, NoMemory, NodeId};
use history_model::StateRow;
use std::alloc::Global;
use std::marker::Model;

/// What is known of one actor: the messages that it took, those to it that were told and those that were admitted, the flags
/// (busy, root) of its last own entry, and whether it was dropped.
#[derive(Clone, Copy, PartialEq, Eq, Debug)]
pub struct Shadow {
    pub received: u64,
    pub told: u64,
    pub admitted: u64,
    pub flags: Option<(bool, bool)>,
    pub dropped: bool,
}

/// The shadows of the actors that were named, in the order of naming: an actor's number in it is its place. It takes four bytes for
/// each serial of a node up to the greatest that was named. Contracts see the actors and the shadows.
#[derive(Drop)]
pub struct ShadowTable {
    names: Vec<ActorId>,
    numbers: ActorNumbers,
    shadows: Vec<Shadow>,
    dropped: usize,
}

impl Model for ShadowTable {
    ghost use Rattle.std.specs.Prelude.{◌≡◌, ◌<◌, ◌^◌, length};
    ghost use Rattle.std.specs.List.{IsDistinct};
    ghost use Rattle.crgc_ids.specs.Actor.{same_actor};
    ghost use Rattle.shadow_table.specs.Numbers.{AreOfNames};
    ghost use Rattle.shadow_table.specs.Shadows.{Shadows, dropped_count};

    ghost Value = { Shadows };

    ghost view = { λ t. record { names = t.names.items; shadows = t.shadows.items } };

    ghost invariant = { λ t. (length t.shadows.items ≡ length t.names.items) × (length t.shadows.items < 2 ^ 32)
        × IsDistinct same_actor t.names.items × AreOfNames t.numbers t.names.items × (t.dropped ≡ dropped_count t.shadows.items) };
}

impl ShadowTable {
    /// No actor is named.
    pub fn new(alloc: Global) -> ShadowTable
        ensures { result ≡ no_shadows }
    {
        ShadowTable {
            names: Vec::new(alloc),
            numbers: ActorNumbers::new(alloc),
            shadows: Vec::new(alloc),
            dropped: 0,
        }
    }

    /// How many actors were named.
    pub fn place_count(&self) -> u32
        ensures value { result ≡ length self.now.names }
        ensures shadows { length self.now.shadows ≡ length self.now.names }
        ensures distinct { IsDistinct same_actor self.now.names }
    {
        self.shadows.len() as u32
    }

    /// How many of the named actors were dropped. Constant time.
    pub fn dropped_count(&self) -> usize
        ensures value { result ≡ dropped_count self.now.shadows }
        ensures within { result ≤ length self.now.names }
    {
        self.dropped
    }

    /// The place of the actor; None exactly where it was not named. Constant time.
    pub fn place_of(&self, actor: ActorId) -> Option<u32>
        ensures place { IfSome result (λ place. place ≡ place_in self.now.names actor) }
        ensures within { IfSome result (λ place. place < length self.now.names) }
        ensures found { is_some result ≡ is_named self.now.names actor }
    {
        match self.numbers.at(actor) {
            0 => None,
            number => Some(number - 1),
        }
    }

    /// The actor at the place; None exactly at `place_count` and above.
    pub fn actor_at(&self, place: u32) -> Option<ActorId>
        ensures { result ≡ slice_get self.now.names place }
    {
        self.names.get(place as usize).copied()
    }

    /// The shadow at the place.
    pub fn shadow(&self, place: u32) -> Shadow
        requires { place < length self.now.names }
        ensures { result ≡ slice_index_or self.now.shadows place blank }
    {
        self.shadows[place as usize]
    }

    /// The place of an actor that was named.
    fn place(&self, actor: ActorId) -> usize
        requires { is_named self.now.names actor ≡ true }
        ensures place { result ≡ place_in self.now.names actor }
        ensures within { result < length self.now.names }
    {
        self.place_of(actor).unwrap() as usize
    }

    /// So many more messages to the actor are told.
    pub fn tell(&mut self, actor: ActorId, count: u64)
        requires named { is_named self.old.names actor ≡ true }
        requires fits { (shadow_at self.old actor).told + count < 2 ^ 64 }
        ensures { ChangesShadow self.old self.new actor (with_told count) }
    {
        let place = self.place(actor);
        self.shadows[place].told += count;
    }

    /// So many more messages to the actor are admitted.
    pub fn admit(&mut self, actor: ActorId, count: u64)
        requires named { is_named self.old.names actor ≡ true }
        requires fits { (shadow_at self.old actor).admitted + count < 2 ^ 64 }
        ensures { ChangesShadow self.old self.new actor (with_admitted count) }
    {
        let place = self.place(actor);
        self.shadows[place].admitted += count;
    }

    /// So many of the messages to the actor that were told are taken back, or all where fewer were.
    pub fn take_back(&mut self, actor: ActorId, count: u64)
        requires { is_named self.old.names actor ≡ true }
        ensures { ChangesShadow self.old self.new actor (without_told count) }
    {
        let place = self.place(actor);
        let shadow = &mut self.shadows[place];
        shadow.told = shadow.told.saturating_sub(count);
    }

    /// The actor is dropped. What is told of it later is counted all the same.
    pub fn drop_actor(&mut self, actor: ActorId)
        requires { is_named self.old.names actor ≡ true }
        ensures { ChangesShadow self.old self.new actor as_dropped }
    {
        let place = self.place(actor);
        self.dropped += usize::from(!self.shadows[place].dropped);
        self.shadows[place].dropped = true;
    }

    /// A node's state of the actor: so many more messages taken and, where the node is the actor's own, its flags.
    fn note_state(&mut self, node: NodeId, row: StateRow)
        requires named { is_named self.old.names row.actor ≡ true }
        requires fits { (shadow_at self.old row.actor).received + row.received < 2 ^ 64 }
        ensures { ChangesShadow self.old self.new row.actor (with_state node row) }
    {
        let place = self.place(row.actor);
        self.shadows[place] = with_state(node, row, self.shadows[place]);
    }

    /// The messages that the rows count are told. Linear time in the number of rows.
    pub fn tell_all(&mut self, rows: &[ActorCount])
        requires named { AllByRecursion (λ r. is_named self.old.names r.actor ≡ true) rows.now }
        requires fits { (a : Actor) → (shadow_at self.old a).told + actor_total a rows.now < 2 ^ 64 }
        ensures { ChangesShadows self.old self.new (λ a s. with_told (actor_total a rows.now) s) }
    {
        for row in rows {
            self.tell(row.actor, u64::from(row.count));
        }
    }

    /// The messages that the rows count are admitted. Linear time in the number of rows.
    pub fn admit_all(&mut self, rows: &[ActorCount])
        requires named { AllByRecursion (λ r. is_named self.old.names r.actor ≡ true) rows.now }
        requires fits { (a : Actor) → (shadow_at self.old a).admitted + actor_total a rows.now < 2 ^ 64 }
        ensures { ChangesShadows self.old self.new (λ a s. with_admitted (actor_total a rows.now) s) }
    {
        for row in rows {
            self.admit(row.actor, u64::from(row.count));
        }
    }

    /// The states that the node tells: messages taken, and of the node's own actors the flags, of which the last stand. Linear
    /// time in the number of rows.
    pub fn note_states(&mut self, node: NodeId, rows: &[StateRow])
        requires named { AllByRecursion (λ r. is_named self.old.names r.actor ≡ true) rows.now }
        requires fits { (a : Actor) → (shadow_at self.old a).received + received_total a rows.now < 2 ^ 64 }
        ensures { ChangesShadows self.old self.new (λ a s. with_states node a rows.now s) }
    {
        for row in rows {
            self.note_state(node, *row);
        }
    }

    /// The actor is named, if it was not: its place is then the last. After `NoMemory`, which comes too where there are
    /// 2^32 - 1 places, all is as before. Amortized constant time, where the serials of a node come in their order.
    pub fn name(&mut self, actor: ActorId) -> Result<(), NoMemory>
        ensures ok { OnOk result (self.new ≡ with_name self.old actor) }
        ensures err { OnErr result (self.new ≡ self.old) }
        ensures long { length self.old.shadows ≡ length self.old.names }
    {
        if self.numbers.at(actor) > 0 {
            return Ok(());
        }
        if self.shadows.len() >= 4_294_967_295 {
            return Err(NoMemory);
        }
        if reserve(&mut self.names, &mut self.numbers, &mut self.shadows, actor).is_err() {
            return Err(NoMemory);
        }
        self.numbers.set(actor, self.names.len() as u32 + 1);
        self.names.push_reserved(actor);
        self.shadows.push_reserved(Shadow {
            received: 0,
            told: 0,
            admitted: 0,
            flags: None,
            dropped: false,
        });
        Ok(())
    }

    /// Only the first so many places stay. Linear time in the number of the others.
    pub fn cut_back(&mut self, places: u32)
        ensures { self.new ≡ first_of places self.old }
    {
        while self.place_count() > places {
            self.forget_last();
        }
    }

    /// The last place is taken away. Constant time.
    fn forget_last(&mut self)
        requires { 0 < length self.old.names }
        ensures { self.new ≡ first_of (length self.old.names - 1) self.old }
    {
        let last = self.shadows.len() - 1;
        self.dropped -= self.dropped_from(last);
        self.numbers.set(self.names[last], 0);
        self.names.truncate(last);
        self.shadows.truncate(last);
    }

    /// How many actors at the place and after it were dropped. Linear time in the number of these places.
    fn dropped_from(&self, place: usize) -> usize
        ensures { dropped_count (take place self.now.shadows) + result ≡ dropped_count self.now.shadows }
    {
        let mut count = 0;
        for later in place..self.shadows.len() {
            count += usize::from(self.shadows[later].dropped);
        }
        count
    }
}

/// There is room for one place more, that of the actor. After `NoMemory` all is as before.
fn reserve(
    names: &mut Vec<ActorId>,
    numbers: &mut ActorNumbers,
    shadows: &mut Vec<Shadow>,
    actor: ActorId,
) -> Result<(), NoMemory>
    ensures names { names.new.items ≡ names.old.items }
    ensures shadows { shadows.new.items ≡ shadows.old.items }
    ensures numbers { (a : Actor) → number_of numbers.new a ≡ number_of numbers.old a }
    ensures more_names { OnOk result (vec_len names.new < vec_capacity names.new) }
    ensures more_shadows { OnOk result (vec_len shadows.new < vec_capacity shadows.new) }
    ensures number { OnOk result (HasRoomFor numbers.new actor) }
{
    if names.reserve(1).is_err() {
        return Err(NoMemory);
    }
    if shadows.reserve(1).is_err() {
        return Err(NoMemory);
    }
    numbers.reserve(actor)
}

/// The shadow with a node's state row of its actor.
fn with_state(node: NodeId, row: StateRow, shadow: Shadow) -> Shadow
    requires { shadow.received + row.received < 2 ^ 64 }
    ensures { result ≡ with_state node row shadow }
{
    let mut noted = shadow;
    noted.received += u64::from(row.received);
    if row.actor.node() == node {
        noted.flags = Some((row.busy, row.root));
    }
    noted
}
