//! What an actor noted since its last flush.
ghost use Rattle.std.specs.Prelude.{◌≡◌, ◌+◌, ◌-◌, ◌<◌, ◌≤◌, ◌^◌, ◌++◌, [], ◌∷◌, IfOk, OnErr, OnOk, count_by, length, map, vec_capacity, vec_len};
ghost use Rattle.crgc_ids.specs.Actor.{Actor, same_actor};
ghost use Rattle.history_model.specs.Facts.{flagged};
ghost use Rattle.history_model.specs.Ledgers.{IsInOrder, entry_ledger};
ghost use Rattle.history_model.specs.Tells.{TellsEntry};
ghost use Rattle.entry_records.specs.Unflushed.{actor_count, facts_noted, is_nothing, nothing_unflushed, pair_count, without_last_sent};

use crate::ends::{Ends, copy_rows};
use crgc_ids::{ActorId, NoMemory, PairCount};
use history_model::Entry;
use row_sums::{sum_of_counts, sum_of_pairs};
use std::alloc::Global;
use std::marker::Model;

/// What an actor noted, as rows that count one each, so that adding them up takes no memory. Contracts see how many
/// messages it took, and the lists of the actors and pairs that the rows count.
#[derive(Drop)]
pub struct Notes {
    received: u32,
    created: Vec<PairCount>,
    ends: Ends,
}

impl Model for Notes {
    ghost use Rattle.entry_records.specs.Keeping.{KeepNotes};
    ghost use Rattle.entry_records.specs.Unflushed.{Unflushed, actors_in, pairs_in};

    ghost Value = { Unflushed };

    ghost view = { λ n. record {
      received = n.received;
      sent = actors_in n.ends.sent;
      created = pairs_in n.created.items;
      released = actors_in n.ends.released;
    } };

    ghost invariant = { λ n. KeepNotes n.ends.sent n.created.items n.ends.released };
}

impl Notes {
    /// Nothing is noted.
    pub fn new(alloc: Global) -> Notes
        ensures { result ≡ nothing_unflushed }
    {
        Notes {
            received: 0,
            created: Vec::new(alloc),
            ends: Ends::new(alloc),
        }
    }

    /// Room for the two references that a birth makes at most, and no more. After `NoMemory` all is as before.
    pub fn reserve_birth(&mut self) -> Result<(), NoMemory>
        ensures { self.new ≡ self.old }
    {
        match self.created.reserve_exact(2) {
            Ok(()) => Ok(()),
            Err(_) => Err(NoMemory),
        }
    }

    /// One message more was taken.
    pub fn add_received(&mut self)
        requires { self.old.received + 1 < 2 ^ 32 }
        ensures { self.new ≡ record self.old { received = self.old.received + 1 } }
    {
        self.received += 1;
    }

    /// A message was sent to the actor with these references; after `NoMemory` all is as before.
    pub fn add_sent(&mut self, to: ActorId, refs: &[ActorId]) -> Result<(), NoMemory>
        requires sent { actor_count to self.old.sent + 1 < 2 ^ 32 }
        requires created { (a : Actor) → pair_count to a self.old.created + count_by (same_actor a) refs.now < 2 ^ 32 }
        ensures ok { OnOk result (self.new ≡ record self.old {
          sent = self.old.sent ++ to ∷ [];
          created = self.old.created
              ++ map (λ a. (to, a)) refs.now;
        }) }
        ensures err { OnErr result (self.new ≡ self.old) }
    {
        if self.created.reserve(refs.len()).is_err() {
            return Err(NoMemory);
        }
        self.ends.add_sent(to)?;
        put_pairs(&mut self.created, to, refs);
        Ok(())
    }

    /// The last message that was sent, with so many references, is taken back: it is not noted any more.
    pub fn take_back_sent(&mut self, refs: usize)
        ensures { self.new ≡ without_last_sent refs self.old }
    {
        self.ends.take_back_sent();
        let created = self.created.len().saturating_sub(refs);
        self.created.truncate(created);
    }

    /// A reference to the target was made for the owner; after `NoMemory` all is as before.
    pub fn add_created(&mut self, owner: ActorId, target: ActorId) -> Result<(), NoMemory>
        requires { pair_count owner target self.old.created + 1 < 2 ^ 32 }
        ensures ok { OnOk result (self.new ≡ record self.old { created = self.old.created ++ (owner, target) ∷ [] }) }
        ensures err { OnErr result (self.new ≡ self.old) }
    {
        let row = PairCount {
            owner,
            target,
            count: 1,
        };
        match self.created.push(row) {
            Ok(()) => Ok(()),
            Err(_) => Err(NoMemory),
        }
    }

    /// A reference to the target was given up; after `NoMemory` all is as before.
    pub fn add_released(&mut self, target: ActorId) -> Result<(), NoMemory>
        requires { actor_count target self.old.released + 1 < 2 ^ 32 }
        ensures ok { OnOk result (self.new ≡ record self.old { released = self.old.released ++ target ∷ [] }) }
        ensures err { OnErr result (self.new ≡ self.old) }
    {
        self.ends.add_released(target)
    }

    /// Whether nothing is noted.
    pub fn is_blank(&self) -> bool
        ensures { result ≡ is_nothing self.now }
    {
        let none_created = self.created.as_slice().is_empty();
        self.received == 0 && none_created && self.ends.is_blank()
    }

    /// Equal notes. Linear time.
    pub fn copy(&self) -> Result<Notes, NoMemory>
        ensures { IfOk result (λ n. n ≡ self.now) }
    {
        let created = copy_rows(&self.created)?;
        let ends = self.ends.copy()?;
        Ok(Notes {
            received: self.received,
            created,
            ends,
        })
    }

    /// The entry that tells what the actor noted, and these flags. Time in proportion to n log n for n facts, without
    /// memory.
    pub fn into_entry(self, actor: ActorId, busy: bool, root: bool) -> Entry
        ensures tells { TellsEntry actor result (flagged actor (record { busy = busy; root = root }) ∷ facts_noted actor self) }
        ensures ordered { IsInOrder (entry_ledger result) }
    {
        let received = self.received;
        let created = sum_of_pairs(self.created);
        let ends = self.ends.into_rows();
        let sent = sum_of_counts(ends.sent);
        let released = sum_of_counts(ends.released);
        Entry {
            actor,
            received,
            busy,
            root,
            created,
            sent,
            released,
        }
    }
}

/// A row for each reference to a target that is made for the owner comes last. There is room for them, so it takes no
/// memory.
fn put_pairs(rows: &mut Vec<PairCount>, owner: ActorId, targets: &[ActorId])
    requires { vec_len rows.old + length targets.now ≤ vec_capacity rows.old }
    ensures { rows.new.items ≡ rows.old.items ++ map (λ a. record { owner = owner; target = a; count = 1 }) targets.now }
{
    for target in targets {
        rows.push_reserved(PairCount {
            owner,
            target: *target,
            count: 1,
        });
    }
}
