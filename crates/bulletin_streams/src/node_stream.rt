//! What one node tells.
ghost use Rattle.std.specs.Prelude.{◌≡◌, ◌+◌, ◌<◌, ◌≤◌, ◌^◌, [], length, nat_lt, slice_get, IfErr, IfOk, IfSome, OnErr, OnOk};
ghost use Rattle.std.specs.List.{AllByRecursion};
ghost use Rattle.std.specs.Option.{option_copied};
ghost use Rattle.history_model.specs.declared.records.Bulletin.TheVariants as bulletins;
ghost use Rattle.history_model.specs.Ledgers.{CountFromOne, entries_ledger, entry_ledger};
ghost use Rattle.history_model.specs.Tells.{IsOrdered};
ghost use Rattle.bulletin_streams.specs.Spelling.{IsSpelling};
ghost use Rattle.delta_graph.specs.Sums.{CountsFit, IsFaultOf, named_count};
ghost use Rattle.bulletin_streams.specs.StreamState.{Appends, IsAlike, Publishes, Queues, StreamState, TakesBack, blank};
ghost use Rattle.crgc_ids.specs.declared.limits.TheConstants.{MOST_NAMED};

use crate::laws::{a_window_is_in_order, an_entry_counts_from_one};
use crate::stream_bulletin::StreamBulletin;
use crgc_ids::{NoMemory, NodeId, Octets};
use delta_graph::{DeltaFault, delta_of};
use history_model::{Bulletin, Entry, Window};
use std::alloc::Global;
use std::marker::Model;

/// For how many entries the queue of a node keeps room when it was published.
const ROOM_KEPT: usize = 1_024;

/// The entries that wait for the next publish of a node, and the bulletins of its stream.
#[derive(Drop)]
pub struct NodeStream {
    entries: Vec<Entry>,
    bulletins: Vec<StreamBulletin>,
}

impl Model for NodeStream {
    ghost use Rattle.std.specs.Prelude.{◌-◌, vec_capacity, vec_len};
    ghost use Rattle.bulletin_streams.specs.Keeping.{AreInOrder};
    ghost use Rattle.bulletin_streams.specs.StreamState.{StreamState};

    ghost Value = { StreamState };

    ghost view = { λ s. record {
      entries = s.entries.items;
      bulletins = s.bulletins.items;
      entry_room = vec_capacity s.entries - vec_len s.entries;
      bulletin_room = vec_capacity s.bulletins - vec_len s.bulletins;
    } };

    ghost invariant = { λ s. AreInOrder s.entries.items s.bulletins.items };
}

impl NodeStream {
    /// No entry waits, and the stream has no bulletin.
    pub fn new(alloc: Global) -> NodeStream
        ensures entries { result.entries ≡ [] }
        ensures bulletins { result.bulletins ≡ [] }
    {
        NodeStream {
            entries: Vec::new(alloc),
            bulletins: Vec::new(alloc),
        }
    }

    /// Room for one more entry, amortized.
    pub fn reserve_entry(&mut self) -> Result<(), NoMemory>
        ensures same { IsAlike self.old self.new }
        ensures bulletins { self.new.bulletin_room ≡ self.old.bulletin_room }
        ensures ok { OnOk result (0 < self.new.entry_room) }
    {
        match self.entries.reserve(1) {
            Ok(()) => Ok(()),
            Err(_) => Err(NoMemory),
        }
    }

    /// Room for one more bulletin, amortized.
    pub fn reserve_bulletin(&mut self) -> Result<(), NoMemory>
        ensures same { IsAlike self.old self.new }
        ensures entries { self.new.entry_room ≡ self.old.entry_room }
        ensures ok { OnOk result (0 < self.new.bulletin_room) }
    {
        match self.bulletins.reserve(1) {
            Ok(()) => Ok(()),
            Err(_) => Err(NoMemory),
        }
    }

    /// The entry comes last into the queue, for which there is room.
    pub fn enqueue(&mut self, entry: Entry)
        requires { 0 < self.old.entry_room }
        ensures { Queues self.old self.new entry }
    {
        an_entry_counts_from_one(&entry);
        self.entries.push_reserved(entry);
    }

    /// The last entry leaves the queue.
    pub fn take_back(&mut self)
        ensures { TakesBack self.old self.new }
    {
        self.entries.pop();
    }

    /// The queue becomes one Delta of the node, last in the stream, and gives up its room but for some. After an error all is as
    /// before.
    pub fn publish(&mut self, node: NodeId) -> Result<(), DeltaFault>
        requires { CountsFit (entries_ledger self.old.entries) }
        ensures ok { OnOk result (Publishes node self.old self.new) }
        ensures named { OnOk result (named_count self.old.entries ≤ MOST_NAMED) }
        ensures fault { IfErr result (λ f. IsFaultOf self.old.entries f) }
        ensures err { OnErr result (IsAlike self.old self.new) }
        ensures stand { AllByRecursion (λ e. CountFromOne (entry_ledger e)) self.old.entries }
    {
        let alloc = *self.entries.allocator();
        let delta = delta_of(alloc, node, &self.entries)?;
        if self
            .bulletins
            .push(StreamBulletin::of(Bulletin::Delta(delta)))
            .is_err()
        {
            return Err(DeltaFault::NoMemory);
        }
        self.entries.clear();
        self.entries.shrink_to(ROOM_KEPT);
        Ok(())
    }

    /// Whether the entries name more actors than a Delta may.
    pub fn names_too_many(&self, node: NodeId) -> Result<bool, NoMemory>
        requires { CountsFit (entries_ledger self.now.entries) }
        ensures value { IfOk result (λ b. b ≡ nat_lt MOST_NAMED (named_count self.now.entries)) }
        ensures stand { AllByRecursion (λ e. CountFromOne (entry_ledger e)) self.now.entries }
    {
        let alloc = *self.entries.allocator();
        match delta_of(alloc, node, &self.entries) {
            Ok(_) => Ok(false),
            Err(DeltaFault::TableFull) => Ok(true),
            Err(DeltaFault::NoMemory) => Err(NoMemory),
        }
    }

    /// The window comes last into the stream, for which there is room.
    pub fn append_window(&mut self, window: Window)
        requires { 0 < self.old.bulletin_room }
        ensures { Appends self.old self.new (bulletins.Window window) }
    {
        a_window_is_in_order(&window);
        self.bulletins
            .push_reserved(StreamBulletin::of(Bulletin::Window(window)));
    }

    /// The Final comes last into the stream, for which there is room.
    pub fn append_final(&mut self, window: Window)
        requires { 0 < self.old.bulletin_room }
        ensures { Appends self.old self.new (bulletins.Final window) }
    {
        a_window_is_in_order(&window);
        self.bulletins
            .push_reserved(StreamBulletin::of(Bulletin::Final(window)));
    }

    /// How many entries wait.
    pub fn queue_len(&self) -> usize
        ensures { result ≡ length self.now.entries }
    {
        self.entries.len()
    }

    /// How many bulletins the stream has.
    pub fn len(&self) -> usize
        ensures { result ≡ length self.now.bulletins }
    {
        self.bulletins.len()
    }

    /// The bulletin with this number, from 0.
    pub fn bulletin(&self, number: usize) -> Option<&Bulletin>
        ensures value { option_copied result ≡ slice_get self.now.bulletins number }
        ensures ordered { IfSome result (λ b. IsOrdered b.now) }
    {
        Some(self.bulletins.get(number)?.bulletin())
    }

    /// The spelling of the bulletin with this number, from 0, if it is kept.
    pub fn spelling(&self, number: usize) -> Option<&Octets>
        ensures { IfSome result (λ bytes. IfSome (slice_get self.now.bulletins number) (λ b. IsSpelling b bytes.now)) }
    {
        self.bulletins.get(number)?.spelling()
    }

    /// These bytes, the spelling of the bulletin with this number, if there is one, are kept.
    pub fn keep_spelling(&mut self, number: usize, bytes: Octets)
        requires { IfSome (slice_get self.old.bulletins number) (λ b. IsSpelling b bytes) }
        ensures { self.new ≡ self.old }
    {
        if let Some(bulletin) = self.bulletins.get_mut(number) {
            bulletin.keep(bytes);
        }
    }

    /// The spelling of the bulletin with this number is kept no longer.
    pub fn forget_spelling(&mut self, number: usize)
        ensures { self.new ≡ self.old }
    {
        if let Some(bulletin) = self.bulletins.get_mut(number) {
            bulletin.forget();
        }
    }
}
