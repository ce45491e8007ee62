//! What each node told, and what others admitted from it.
ghost use Rattle.std.specs.Prelude.{◌≡◌, ◌+◌, ◌<◌, ◌^◌, ℕ, [], Option, None, Some, IfOk, OnErr, OnOk};
ghost use Rattle.std.specs.List.{AllByRecursion};
ghost use Rattle.crgc_ids.specs.Actor.{Actor};
ghost use Rattle.row_sums.specs.Totals.{actor_total, pair_total};
ghost use Rattle.undo_log.specs.Noted.{noted_count, side_total};
ghost use Rattle.undo_log.specs.Told.{Notes, admitted_from, rows_of, told_by};
ghost use Rattle.undo_log.specs.Totals.{HaveTotalsOf};
ghost use Rattle.undo_log.specs.declared.corrections.Side.TheVariants.{Admitted, Told};

use crate::corrections::{Corrections, Side};
use crate::node_log::NodeLog;
use crgc_ids::{ActorCount, ActorCounts, NoMemory, NodeId, PairCount, PairCounts};
use std::alloc::Global;
use std::array;
use std::marker::Model;

/// For each of the 16 nodes that there may be, what its Deltas told and what others admitted from it. It keeps its
/// allocator. Contracts see the rows that were noted of each node, and read them by `told_by` and `admitted_from`.
#[derive(Drop)]
pub struct UndoLog {
    logs: [NodeLog; 16],
}

impl Model for UndoLog {
    ghost use Rattle.std.specs.Prelude.{◌≡◌, List, length};
    ghost use Rattle.undo_log.specs.declared.corrections.Correction.{Correction};

    ghost Value = { List (List Correction) };

    ghost view = { λ u. u.logs };

    ghost invariant = { λ u. length u.logs ≡ 16 };
}

impl UndoLog {
    /// Nothing is noted of any node.
    pub fn new(alloc: Global) -> UndoLog
        ensures { (n : ℕ) → rows_of result n ≡ [] }
    {
        UndoLog {
            logs: array::from_fn(|_| NodeLog::new(alloc)),
        }
    }

    /// The sends and the created pairs of a Delta of the node are noted. After `NoMemory` all is as before. Amortized time
    /// in proportion to the logarithm of the number of bulletins noted of the node, for each row.
    pub fn note_told(
        &mut self,
        node: NodeId,
        sent: &ActorCounts,
        created: &PairCounts,
    ) -> Result<(), NoMemory>
        requires { (owner : Option Actor) → (target : Actor)
            → told_by self.old node owner target + noted_count owner target sent.now created.now < 2 ^ 63 }
        ensures ok { OnOk result (Notes self.old self.new node Told sent.now created.now) }
        ensures err { OnErr result (self.new ≡ self.old) }
    {
        self.logs[node.get() as usize].note(Side::Told, sent, created)
    }

    /// The messages and the carried pairs of a Window or Final of a link from the node are noted. After `NoMemory` all is as
    /// before. Amortized time in proportion to the logarithm of the number of bulletins noted of the node, for each row.
    pub fn note_admitted(
        &mut self,
        from: NodeId,
        messages: &ActorCounts,
        carried: &PairCounts,
    ) -> Result<(), NoMemory>
        requires { (owner : Option Actor) → (target : Actor)
            → admitted_from self.old from owner target + noted_count owner target messages.now carried.now < 2 ^ 63 }
        ensures ok { OnOk result (Notes self.old self.new from Admitted messages.now carried.now) }
        ensures err { OnErr result (self.new ≡ self.old) }
    {
        self.logs[from.get() as usize].note(Side::Admitted, messages, carried)
    }

    /// The rows that count the messages that the node told, or that others admitted from it, in some order.
    pub fn messages(&self, node: NodeId, side: Side) -> &[ActorCount]
        ensures counts { (a : Actor) → actor_total a result.now ≡ side_total side None a (rows_of self.now node) }
        ensures stand { AllByRecursion (λ r. 0 < r.count) result.now }
    {
        self.logs[node.get() as usize].messages(side)
    }

    /// The rows that count the pairs that the node told, or that others admitted from it, in some order.
    pub fn pairs(&self, node: NodeId, side: Side) -> &[PairCount]
        ensures counts { (b a : Actor) → pair_total b a result.now ≡ side_total side (Some b) a (rows_of self.now node) }
        ensures stand { AllByRecursion (λ r. 0 < r.count) result.now }
    {
        self.logs[node.get() as usize].pairs(side)
    }

    /// What the node told and what others admitted from it, each thing once. Time in proportion to n log n for n rows noted
    /// of the node.
    pub fn settle(&self, node: NodeId) -> Result<Corrections, NoMemory>
        ensures { IfOk result (λ corrections. HaveTotalsOf (rows_of self.now node) corrections) }
    {
        self.logs[node.get() as usize].settle()
    }
}
