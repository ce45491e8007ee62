//! A queue of messages for each actor.
ghost use Rattle.std.specs.Prelude.{◌≡◌, ◌+◌, ◌-◌, [], ◌∷◌, ◌++◌, true, OnOk, OnErr, drop, length, slice_get};
ghost use Rattle.std.specs.Option.{option_copied};
ghost use Rattle.mailboxes.specs.Mail.{IsMailboxChange, mail_of, room_of};

use crate::queue::Queue;
use crgc_ids::{ActorId, NoMemory, RefList};
use std::alloc::Global;
use std::collections::BTreeMap;
use std::marker::Model;

/// The messages that wait for each actor, first in, first out, and the room that is reserved for more. It keeps its
/// allocator. Contracts see the list of the actors and their mailboxes, and read it by `mail_of` and `room_of`.
#[derive(Drop)]
pub struct Mailboxes {
    alloc: Global,
    queues: BTreeMap<ActorId, Queue>,
}

impl Model for Mailboxes {
    ghost use Rattle.std.specs.Prelude.{List};
    ghost use Rattle.crgc_ids.specs.Actor.{Actor};
    ghost use Rattle.mailboxes.specs.Mail.{Mailbox};

    ghost Value = { List (Actor × Mailbox) };

    ghost view = { λ m. m.queues.entries };
}

impl Mailboxes {
    /// No message waits for any actor, and no room is reserved.
    pub fn new(alloc: Global) -> Mailboxes
        ensures { result ≡ [] }
    {
        Mailboxes {
            alloc,
            queues: BTreeMap::new(alloc),
        }
    }

    /// A message that carries these references goes last among those to the actor. Where room is reserved for the actor
    /// it takes some of that, and never answers `NoMemory`; after `NoMemory` all is as before. Logarithmic time in the
    /// number of actors, amortized.
    pub fn put(&mut self, to: ActorId, refs: RefList) -> Result<(), NoMemory>
        ensures ok { OnOk result (IsMailboxChange self.old self.new to (mail_of self.old to ++ refs ∷ []) (room_of self.old to - 1)) }
        ensures err { OnErr result (self.new ≡ self.old) }
        ensures full { OnErr result (room_of self.old to ≡ 0) }
    {
        if let Some(queue) = self.queues.get_mut(&to) {
            return queue.put(refs);
        }
        let mut queue = Queue::new(self.alloc);
        if queue.put(refs).is_err() {
            return Err(NoMemory);
        }
        self.open(to, queue)
    }

    /// Room for one more message to the actor is reserved; the messages are as before. After `NoMemory` all is as
    /// before. Logarithmic time in the number of actors, amortized.
    pub fn reserve(&mut self, to: ActorId) -> Result<(), NoMemory>
        ensures ok { OnOk result (IsMailboxChange self.old self.new to (mail_of self.old to) (room_of self.old to + 1)) }
        ensures err { OnErr result (self.new ≡ self.old) }
    {
        if let Some(queue) = self.queues.get_mut(&to) {
            return queue.reserve();
        }
        let mut queue = Queue::new(self.alloc);
        if queue.reserve().is_err() {
            return Err(NoMemory);
        }
        self.open(to, queue)
    }

    /// The first message to the actor, which `pop` would answer. Logarithmic time in the number of actors.
    pub fn first(&self, actor: ActorId) -> Option<&RefList>
        ensures { option_copied result ≡ slice_get (mail_of self.now actor) 0 }
    {
        self.queues.get(&actor)?.first()
    }

    /// The first message to the actor, which is taken out; None exactly where none waits. The reserved room stays.
    /// Logarithmic time in the number of actors.
    pub fn pop(&mut self, actor: ActorId) -> Option<RefList>
        ensures first { result ≡ slice_get (mail_of self.old actor) 0 }
        ensures rest { IsMailboxChange self.old self.new actor (drop 1 (mail_of self.old actor)) (room_of self.old actor) }
    {
        let first = self.pop_from(actor);
        self.close_if_over(actor);
        first
    }

    /// The same, whatever is left of the queue.
    fn pop_from(&mut self, actor: ActorId) -> Option<RefList>
        ensures first { result ≡ slice_get (mail_of self.old actor) 0 }
        ensures rest { IsMailboxChange self.old self.new actor (drop 1 (mail_of self.old actor)) (room_of self.old actor) }
    {
        self.queues.get_mut(&actor)?.pop()
    }

    /// A queue in which no message waits, and for which no room is reserved, is kept no longer.
    fn close_if_over(&mut self, actor: ActorId)
        ensures { IsMailboxChange self.old self.new actor (mail_of self.old actor) (room_of self.old actor) }
    {
        if self.is_over(actor) {
            self.queues.remove(&actor);
        }
    }

    /// Whether the actor has a queue in which no message waits, and for which no room is reserved.
    fn is_over(&self, actor: ActorId) -> bool
        ensures mail { result ≡ true → mail_of self.now actor ≡ [] }
        ensures room { result ≡ true → room_of self.now actor ≡ 0 }
    {
        match self.queues.get(&actor) {
            Some(queue) => queue.is_over(),
            None => false,
        }
    }

    /// How many messages to the actor wait. Logarithmic time in the number of actors.
    pub fn waiting(&self, actor: ActorId) -> usize
        ensures { result ≡ length (mail_of self.now actor) }
    {
        match self.queues.get(&actor) {
            Some(queue) => queue.len(),
            None => 0,
        }
    }

    /// The actor has this queue.
    fn open(&mut self, actor: ActorId, queue: Queue) -> Result<(), NoMemory>
        ensures ok { OnOk result (IsMailboxChange self.old self.new actor queue.mail queue.room) }
        ensures err { OnErr result (self.new ≡ self.old) }
    {
        match self.queues.insert(actor, queue) {
            Ok(_) => Ok(()),
            Err(_) => Err(NoMemory),
        }
    }
}
