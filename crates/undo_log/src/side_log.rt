//! One of the two sides of a node's log.
ghost use Rattle.std.specs.Prelude.{◌≡◌, ◌+◌, ◌<◌, ◌≤◌, ◌^◌, [], true, Option, OnErr, OnOk};
ghost use Rattle.std.specs.List.{AllByRecursion};
ghost use Rattle.crgc_ids.specs.Actor.{Actor};
ghost use Rattle.row_sums.specs.Totals.{actor_total, pair_total};
ghost use Rattle.undo_log.specs.Noted.{noted_count};

use crgc_ids::{ActorCount, ActorCounts, NoMemory, PairCount, PairCounts};
use row_sums::{add_up_counts, add_up_pairs};
use std::alloc::Global;
use std::marker::Model;

/// What a node told, or what others admitted from it: rows that count messages, and rows that count pairs. They stand as they
/// came, and are added up each time that there are eight times as many. Contracts see both lists.
#[derive(Drop)]
pub struct SideLog {
    messages: Vec<ActorCount>,
    pairs: Vec<PairCount>,
    added_up: usize,
}

impl Model for SideLog {
    ghost use Rattle.std.specs.List.{AllByRecursion};
    ghost use Rattle.std.specs.Prelude.{◌<◌};
    ghost use Rattle.undo_log.specs.Noted.{SideRows};

    ghost Value = { SideRows };

    ghost view = { λ l. record { messages = l.messages.items; pairs = l.pairs.items } };

    ghost invariant = { λ l. AllByRecursion (λ r. 0 < r.count) l.messages.items × AllByRecursion (λ r. 0 < r.count) l.pairs.items };
}

impl SideLog {
    /// Nothing is noted.
    pub fn new(alloc: Global) -> SideLog
        ensures { result ≡ record { messages = []; pairs = [] } }
    {
        SideLog {
            messages: Vec::new(alloc),
            pairs: Vec::new(alloc),
            added_up: 0,
        }
    }

    /// What the rows count is noted. After `NoMemory` all is as before. Amortized time in proportion to the logarithm of the
    /// number of noted bulletins, for each row.
    pub fn note(&mut self, messages: &ActorCounts, pairs: &PairCounts) -> Result<(), NoMemory>
        ensures ok { OnOk result ((owner : Option Actor) (target : Actor) → noted_count owner target self.new.messages self.new.pairs
            ≡ noted_count owner target self.old.messages self.old.pairs + noted_count owner target messages.now pairs.now) }
        ensures err { OnErr result (self.new ≡ self.old) }
    {
        let before = self.messages.len();
        if self
            .messages
            .extend_from_slice(messages.as_slice())
            .is_err()
        {
            return Err(NoMemory);
        }
        if self.pairs.extend_from_slice(pairs.as_slice()).is_err() {
            self.messages.truncate(before);
            return Err(NoMemory);
        }
        self.add_up_if_many();
        Ok(())
    }

    /// Where there are eight times as many rows as after the last time, they are added up.
    fn add_up_if_many(&mut self)
        ensures { (owner : Option Actor) (target : Actor) → noted_count owner target self.new.messages self.new.pairs
            ≡ noted_count owner target self.old.messages self.old.pairs }
    {
        if self.len() / 8 > self.added_up {
            self.add_up();
        }
    }

    /// How many rows there are.
    fn len(&self) -> usize {
        self.messages.len().saturating_add(self.pairs.len())
    }

    /// The rows are added up, but where their sums may pass a row's count.
    fn add_up(&mut self)
        ensures { (owner : Option Actor) (target : Actor) → noted_count owner target self.new.messages self.new.pairs
            ≡ noted_count owner target self.old.messages self.old.pairs }
    {
        if have_room_for_counts(self.messages.as_slice()) {
            add_up_counts(&mut self.messages);
        }
        if have_room_for_pairs(self.pairs.as_slice()) {
            add_up_pairs(&mut self.pairs);
        }
        self.added_up = self.len();
    }

    /// The rows that count messages.
    pub fn messages(&self) -> &[ActorCount]
        ensures value { result.now ≡ self.now.messages }
        ensures stand { AllByRecursion (λ r. 0 < r.count) result.now }
    {
        self.messages.as_slice()
    }

    /// The rows that count pairs.
    pub fn pairs(&self) -> &[PairCount]
        ensures value { result.now ≡ self.now.pairs }
        ensures stand { AllByRecursion (λ r. 0 < r.count) result.now }
    {
        self.pairs.as_slice()
    }
}

/// Whether the counts of all rows together are below 2^32. Linear time.
fn have_room_for_counts(rows: &[ActorCount]) -> bool
    ensures { result ≡ true → (a : Actor) → actor_total a rows.now < 2 ^ 32 }
{
    let mut room = u32::MAX;
    for row in rows {
        if row.count > room {
            return false;
        }
        room -= row.count;
    }
    true
}

/// Whether the counts of all rows together are below 2^32. Linear time.
fn have_room_for_pairs(rows: &[PairCount]) -> bool
    ensures { result ≡ true → (b a : Actor) → pair_total b a rows.now < 2 ^ 32 }
{
    let mut room = u32::MAX;
    for row in rows {
        if row.count > room {
            return false;
        }
        room -= row.count;
    }
    true
}
