//! What was admitted since the last window.
ghost use Rattle.std.specs.Prelude.{◌≡◌, ◌==◌, ◌+◌, ◌<◌, ◌≤◌, ◌^◌, ◌++◌, [], ◌∷◌, IsTrue, OnOk, count_by, length, map};
ghost use Rattle.crgc_ids.specs.Actor.{Actor, same_actor};
ghost use Rattle.crgc_ids.specs.Members.{IsAmong};
ghost use Rattle.history_model.specs.Graph.{rising_actors};
ghost use Rattle.row_sums.specs.Totals.{actor_total, pair_total};
ghost use Rattle.ingress_gateway.specs.Pending.{carried_count, message_count, named_count, names_in, pairs, recipients};

use crate::names::Names;
use crgc_ids::{ActorCount, ActorCounts, ActorId, NoMemory, PairCount, PairCounts};
use row_sums::{sum_of_counts, sum_of_pairs};
use std::alloc::Global;
use std::marker::Model;

/// Messages and carried references in the order of admission, with reserved room for more. Contracts see the recipients,
/// the pairs of a recipient and a reference carried to it, and the room.
#[derive(Drop)]
pub struct Backlog {
    messages: Vec<ActorCount>,
    carried: Vec<PairCount>,
    names: Names,
}

impl Model for Backlog {
    ghost use Rattle.std.specs.Prelude.{◌-◌, min, vec_capacity, vec_len};
    ghost use Rattle.ingress_gateway.specs.Keeping.{IsKept};
    ghost use Rattle.ingress_gateway.specs.Pending.{Pending, pairs, recipients};

    ghost Value = { Pending };

    ghost view = { λ b. record {
      messages = recipients b.messages.items;
      carried = pairs b.carried.items;
      room = min (vec_capacity b.messages - vec_len b.messages) (min (vec_capacity b.carried - vec_len b.carried) b.names.room);
    } };

    ghost invariant = { λ b. IsKept b.messages.items b.carried.items b.names };
}

impl Backlog {
    /// Nothing was admitted.
    pub fn new(alloc: Global) -> Backlog
        ensures messages { result.messages ≡ [] }
        ensures carried { result.carried ≡ [] }
    {
        Backlog {
            messages: Vec::new(alloc),
            carried: Vec::new(alloc),
            names: Names::new(alloc),
        }
    }

    /// Room for that many references with their message; what was admitted stays. Amortized constant time for each.
    pub fn reserve(&mut self, more: usize) -> Result<(), NoMemory>
        ensures messages { self.new.messages ≡ self.old.messages }
        ensures carried { self.new.carried ≡ self.old.carried }
        ensures ok { OnOk result (more ≤ self.new.room) }
    {
        if self.messages.reserve(more).is_err() || self.carried.reserve(more).is_err() {
            return Err(NoMemory);
        }
        self.names.reserve(more)
    }

    /// A message to the actor with these references comes last. It takes no memory, and amortized constant time for each
    /// reference on average.
    pub fn note(&mut self, to: ActorId, refs: &[ActorId])
        requires room { length refs.now < self.old.room }
        requires messages { message_count to self.old.messages + 1 < 2 ^ 32 }
        requires carried { (a : Actor) → carried_count to a self.old.carried + count_by (same_actor a) refs.now < 2 ^ 32 }
        ensures messages { self.new.messages ≡ self.old.messages ++ to ∷ [] }
        ensures carried { self.new.carried ≡ self.old.carried ++ map (λ a. (to, a)) refs.now }
    {
        self.note_message(to);
        for target in refs {
            self.note_carried(to, *target);
        }
    }

    /// A message to the actor comes last.
    fn note_message(&mut self, to: ActorId)
        requires room { 0 < self.old.room }
        requires fits { message_count to self.old.messages + 1 < 2 ^ 32 }
        ensures messages { self.new.messages ≡ self.old.messages ++ to ∷ [] }
        ensures carried { self.new.carried ≡ self.old.carried }
        ensures room { self.old.room ≤ self.new.room + 1 }
    {
        self.names.add(to);
        self.messages.push_reserved(ActorCount {
            actor: to,
            count: 1,
        });
    }

    /// A reference to the target that is carried to the owner, the recipient of some message, comes last.
    fn note_carried(&mut self, owner: ActorId, target: ActorId)
        requires room { 0 < self.old.room }
        requires fits { carried_count owner target self.old.carried + 1 < 2 ^ 32 }
        requires named { IsAmong owner self.old.messages }
        ensures messages { self.new.messages ≡ self.old.messages }
        ensures carried { self.new.carried ≡ self.old.carried ++ (owner, target) ∷ [] }
        ensures room { self.old.room ≤ self.new.room + 1 }
    {
        self.names.add(target);
        self.carried.push_reserved(PairCount {
            owner,
            target,
            count: 1,
        });
    }

    /// Whether no message was admitted; then nothing is carried.
    pub fn is_empty(&self) -> bool
        ensures value { result ≡ (length self.now.messages == 0) }
        ensures none { IsTrue result → self.now.carried ≡ [] }
    {
        self.messages.as_slice().is_empty()
    }

    /// How many different actors are named. Constant time.
    pub fn named(&self) -> usize
        ensures { result ≡ named_count self.now.messages self.now.carried }
    {
        self.names.len()
    }

    /// The rows that count what was admitted. Time in proportion to n log n, without memory.
    pub fn into_sums(self) -> (ActorCounts, PairCounts)
        ensures messages { (a : Actor) → actor_total a result.0 ≡ message_count a self.messages }
        ensures carried { (b a : Actor) → pair_total b a result.1 ≡ carried_count b a self.carried }
        ensures named { length (rising_actors (names_in (recipients result.0) (pairs result.1))) ≡ named_count self.messages self.carried }
    {
        (sum_of_counts(self.messages), sum_of_pairs(self.carried))
    }
}
