//! The copies and messages that are on one link, by their numbers.
ghost use Rattle.std.specs.Prelude.{◌≡◌, ◌+◌, ◌<◌, ◌^◌, ℕ, [], IfNone, IfSome, OnErr, OnOk, None, Some};
ghost use Rattle.std.specs.Option.{option_copied};
ghost use Rattle.link_table.specs.Piled.{ChangesPile, IsLowest, copies_in, fewer, kept_count, message_in, more, pile_at, stripped, weight};

use crgc_ids::{ActorId, NoMemory, RefList};
use std::alloc::Global;
use std::collections::BTreeMap;
use std::marker::Model;

/// A message while it is on a link: the actor to which it goes, and the references that it carries.
#[derive(Debug, Drop)]
pub struct Envelope {
    pub to: ActorId,
    pub refs: RefList,
}

/// The copies of one number that are on a link, and the message of the number until one of them is admitted.
#[derive(Debug, Drop)]
pub struct Pile {
    pub copies: u32,
    pub message: Option<Envelope>,
}

impl Pile {
    /// 1 where the message is still there, else 0.
    fn weight(&self) -> u32
        ensures { result ≡ weight (Some self.now) }
    {
        match &self.message {
            Some(_) => 1,
            None => 0,
        }
    }
}

/// What is on one link: a pile for each number of which a copy is there. It keeps its allocator. Contracts see the list of
/// the numbers and their piles, and read it by `pile_at` and `kept_count`.
#[derive(Drop)]
pub struct Piles {
    piles: BTreeMap<u32, Pile>,
    kept: u32,
}

impl Model for Piles {
    ghost use Rattle.std.specs.Prelude.{◌≡◌, ℕ, List};
    ghost use Rattle.link_table.specs.declared.piles.Pile.{Pile};
    ghost use Rattle.link_table.specs.Piled.{kept_count};

    ghost Value = { List (ℕ × Pile) };

    ghost view = { λ p. p.piles.entries };

    ghost invariant = { λ p. p.kept ≡ kept_count p.piles.entries };
}

impl Piles {
    /// Nothing is there.
    pub fn new(alloc: Global) -> Piles
        ensures { result ≡ [] }
    {
        Piles {
            piles: BTreeMap::new(alloc),
            kept: 0,
        }
    }

    /// The first copy of the number is there, with its message; before, none was. After `NoMemory` all is as before.
    /// Logarithmic time in the numbers that have a pile.
    pub fn put(&mut self, number: u32, message: Envelope) -> Result<(), NoMemory>
        requires none { pile_at self.old number ≡ None }
        requires fits { kept_count self.old + 1 < 2 ^ 32 }
        ensures ok { OnOk result (ChangesPile self.old self.new number (Some (record { copies = 1; message = Some message }))) }
        ensures err { OnErr result (self.new ≡ self.old) }
    {
        let pile = Pile {
            copies: 1,
            message: Some(message),
        };
        if self.piles.insert(number, pile).is_err() {
            return Err(NoMemory);
        }
        self.kept += 1;
        Ok(())
    }

    /// One copy more of a number that has some. Logarithmic time in the numbers that have a pile.
    pub fn repeat(&mut self, number: u32)
        requires some { 0 < copies_in (pile_at self.old number) }
        requires fits { copies_in (pile_at self.old number) + 1 < 2 ^ 32 }
        ensures { ChangesPile self.old self.new number (more (pile_at self.old number)) }
    {
        let Some(pile) = self.piles.get_mut(&number) else {
            return;
        };
        pile.copies += 1;
    }

    /// One copy less of a number that has some; its message goes with the last. Logarithmic time in the numbers that have a
    /// pile.
    pub fn lose(&mut self, number: u32)
        requires { 0 < copies_in (pile_at self.old number) }
        ensures { ChangesPile self.old self.new number (fewer (pile_at self.old number)) }
    {
        if self.copies(number) == 1 {
            return self.clear_away(number);
        }
        let Some(pile) = self.piles.get_mut(&number) else {
            return;
        };
        pile.copies -= 1;
    }

    /// The message of the number is taken out, where it is still there; all copies stay. Logarithmic time in the numbers that
    /// have a pile.
    pub fn strip(&mut self, number: u32) -> Option<Envelope>
        ensures message { result ≡ message_in (pile_at self.old number) }
        ensures after { ChangesPile self.old self.new number (stripped (pile_at self.old number)) }
    {
        let pile = self.piles.get_mut(&number)?;
        let message = pile.message.take()?;
        self.kept -= 1;
        Some(message)
    }

    /// The pile of the number is taken away.
    fn clear_away(&mut self, number: u32)
        ensures { ChangesPile self.old self.new number None }
    {
        let Some(pile) = self.piles.remove(&number) else {
            return;
        };
        self.kept -= pile.weight();
    }

    /// Nothing is there any more. Linear time.
    pub fn clear(&mut self)
        ensures { self.new ≡ [] }
    {
        self.piles.clear();
        self.kept = 0;
    }

    /// How many copies of the number are there. Logarithmic time in the numbers that have a pile.
    pub fn copies(&self, number: u32) -> u32
        ensures { result ≡ copies_in (pile_at self.now number) }
    {
        match self.piles.get(&number) {
            Some(pile) => pile.copies,
            None => 0,
        }
    }

    /// The message of the number, where it is still there. Logarithmic time in the numbers that have a pile.
    pub fn message(&self, number: u32) -> Option<&Envelope>
        ensures { option_copied result ≡ message_in (pile_at self.now number) }
    {
        self.piles.get(&number)?.message.as_ref()
    }

    /// How many messages are still there.
    pub fn kept(&self) -> u32
        ensures { result ≡ kept_count self.now }
    {
        self.kept
    }

    /// The lowest number that has a pile; None exactly where none has. Logarithmic time in the numbers that have a pile.
    pub fn first(&self) -> Option<u32>
        ensures some { IfSome result (IsLowest self.now) }
        ensures none { IfNone result ((k : ℕ) → pile_at self.now k ≡ None) }
    {
        match self.piles.first_key_value() {
            Some((number, _)) => Some(*number),
            None => None,
        }
    }
}
