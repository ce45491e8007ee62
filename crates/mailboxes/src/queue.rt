//! The messages that wait for one actor.
ghost use Rattle.std.specs.Prelude.{◌≡◌, ◌+◌, ◌-◌, [], ◌∷◌, ◌++◌, true, OnOk, OnErr, drop, length, slice_get};
ghost use Rattle.std.specs.Option.{option_copied};

use crgc_ids::{NoMemory, RefList};
use std::alloc::Global;
use std::collections::VecDeque;
use std::marker::Model;

/// Messages, first in, first out, with reserved room for more. It keeps its allocator. Contracts see the messages and
/// for how many more room is reserved.
#[derive(Drop)]
pub struct Queue {
    messages: VecDeque<RefList>,
    reserved: usize,
}

impl Model for Queue {
    ghost use Rattle.std.specs.Prelude.{◌+◌, ◌≤◌};
    ghost use Rattle.std.specs.VecDeque.{deque_capacity, deque_len};
    ghost use Rattle.mailboxes.specs.Mail.{Mailbox};

    ghost Value = { Mailbox };

    ghost view = { λ q. record { mail = q.messages.items; room = q.reserved } };

    ghost invariant = { λ q. deque_len q.messages + q.reserved ≤ deque_capacity q.messages };
}

impl Queue {
    /// No message waits, and no room is reserved.
    pub fn new(alloc: Global) -> Queue
        ensures { result ≡ record { mail = []; room = 0 } }
    {
        Queue {
            messages: VecDeque::new(alloc),
            reserved: 0,
        }
    }

    /// The message goes last. Where room is reserved it takes some of that, and never answers `NoMemory`; after
    /// `NoMemory` all is as before. Amortized constant time.
    pub fn put(&mut self, message: RefList) -> Result<(), NoMemory>
        ensures ok { OnOk result (self.new ≡ record { mail = self.old.mail ++ message ∷ []; room = self.old.room - 1 }) }
        ensures err { OnErr result (self.new ≡ self.old) }
        ensures full { OnErr result (self.old.room ≡ 0) }
    {
        if 0 < self.reserved {
            self.messages.push_back_reserved(message);
            self.reserved -= 1;
            return Ok(());
        }
        match self.messages.push_back(message) {
            Ok(()) => Ok(()),
            Err(_) => Err(NoMemory),
        }
    }

    /// Room for one more message is reserved. After `NoMemory` all is as before. Amortized constant time.
    pub fn reserve(&mut self) -> Result<(), NoMemory>
        ensures ok { OnOk result (self.new ≡ record self.old { room = self.old.room + 1 }) }
        ensures err { OnErr result (self.new ≡ self.old) }
    {
        if self.messages.reserve(self.reserved + 1).is_err() {
            return Err(NoMemory);
        }
        self.reserved += 1;
        Ok(())
    }

    /// The first message, which stays.
    pub fn first(&self) -> Option<&RefList>
        ensures { option_copied result ≡ slice_get self.now.mail 0 }
    {
        self.messages.front()
    }

    /// The first message, which is taken out. The reserved room stays. Constant time.
    pub fn pop(&mut self) -> Option<RefList>
        ensures first { result ≡ slice_get self.old.mail 0 }
        ensures rest { self.new ≡ record self.old { mail = drop 1 self.old.mail } }
    {
        self.messages.pop_front()
    }

    /// How many messages wait.
    pub fn len(&self) -> usize
        ensures { result ≡ length self.now.mail }
    {
        self.messages.len()
    }

    /// Whether no message waits, and no room is reserved.
    pub fn is_over(&self) -> bool
        ensures { result ≡ true → self.now ≡ record { mail = []; room = 0 } }
    {
        self.messages.is_empty() && self.reserved == 0
    }
}
