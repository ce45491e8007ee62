//! What one node told, and what others admitted from it.
ghost use Rattle.std.specs.Prelude.{◌≡◌, ◌+◌, ◌<◌, ◌^◌, [], ◌++◌, Option, None, Some, IfOk, OnErr, OnOk};
ghost use Rattle.std.specs.List.{AllByRecursion};
ghost use Rattle.crgc_ids.specs.Actor.{Actor};
ghost use Rattle.row_sums.specs.Totals.{actor_total, pair_total};
ghost use Rattle.undo_log.specs.Noted.{NotesMore, message_rows, noted_count, pair_rows, row_on, side_total};
ghost use Rattle.undo_log.specs.Totals.{HaveTotalsOf};

use crate::corrections::{Correction, Corrections, Side, add_up};
use crate::side_log::SideLog;
use crgc_ids::{ActorCount, ActorCounts, ActorId, NoMemory, PairCount, PairCounts};
use std::alloc::Global;
use std::marker::Model;

/// What a node told, and what others admitted from it, apart. It keeps its allocator. Contracts see the rows of corrections that
/// count as much.
#[derive(Drop)]
pub struct NodeLog {
    alloc: Global,
    told: SideLog,
    admitted: SideLog,
}

impl Model for NodeLog {
    ghost use Rattle.std.specs.Prelude.{List};
    ghost use Rattle.undo_log.specs.declared.corrections.Correction.{Correction};
    ghost use Rattle.undo_log.specs.Noted.{rows_noted};
    ghost use Rattle.undo_log.specs.Totals.{HaveRoom};

    ghost Value = { List Correction };

    ghost view = { λ l. rows_noted l.told l.admitted };

    ghost invariant = { λ l. HaveRoom (rows_noted l.told l.admitted) };
}

impl NodeLog {
    /// Nothing is noted.
    pub fn new(alloc: Global) -> NodeLog
        ensures { result ≡ [] }
    {
        NodeLog {
            alloc,
            told: SideLog::new(alloc),
            admitted: SideLog::new(alloc),
        }
    }

    /// What the rows count is noted on this side. After `NoMemory` all is as before. Amortized time in proportion to the
    /// logarithm of the number of noted bulletins, for each row.
    pub fn note(
        &mut self,
        side: Side,
        messages: &ActorCounts,
        pairs: &PairCounts,
    ) -> Result<(), NoMemory>
        requires { (owner : Option Actor) → (target : Actor)
            → side_total side owner target self.old + noted_count owner target messages.now pairs.now < 2 ^ 63 }
        ensures ok { OnOk result (NotesMore self.old self.new side messages.now pairs.now) }
        ensures err { OnErr result (self.new ≡ self.old) }
    {
        match side {
            Side::Told => self.told.note(messages, pairs),
            Side::Admitted => self.admitted.note(messages, pairs),
        }
    }

    /// The rows that count messages on this side.
    pub fn messages(&self, side: Side) -> &[ActorCount]
        ensures counts { (a : Actor) → actor_total a result.now ≡ side_total side None a self.now }
        ensures stand { AllByRecursion (λ r. 0 < r.count) result.now }
    {
        match side {
            Side::Told => self.told.messages(),
            Side::Admitted => self.admitted.messages(),
        }
    }

    /// The rows that count pairs on this side.
    pub fn pairs(&self, side: Side) -> &[PairCount]
        ensures counts { (b a : Actor) → pair_total b a result.now ≡ side_total side (Some b) a self.now }
        ensures stand { AllByRecursion (λ r. 0 < r.count) result.now }
    {
        match side {
            Side::Told => self.told.pairs(),
            Side::Admitted => self.admitted.pairs(),
        }
    }

    /// What is noted, added up. Time in proportion to n log n for n rows.
    pub fn settle(&self) -> Result<Corrections, NoMemory>
        ensures { IfOk result (λ corrections. HaveTotalsOf self.now corrections) }
    {
        let mut rows = Vec::new(self.alloc);
        push_rows(
            &mut rows,
            Side::Told,
            self.told.messages(),
            self.told.pairs(),
        )?;
        push_rows(
            &mut rows,
            Side::Admitted,
            self.admitted.messages(),
            self.admitted.pairs(),
        )?;
        add_up(&mut rows);
        Ok(Corrections::from_vec(rows))
    }
}

/// The rows that note these counts come last.
fn push_rows(
    rows: &mut Vec<Correction>,
    side: Side,
    messages: &[ActorCount],
    pairs: &[PairCount],
) -> Result<(), NoMemory>
    ensures { OnOk result (rows.new.items ≡ rows.old.items ++ (message_rows side messages.now ++ pair_rows side pairs.now)) }
{
    for message in messages {
        let row = row_on(side, None, message.actor, message.count);
        if rows.push(row).is_err() {
            return Err(NoMemory);
        }
    }
    push_pairs(rows, side, pairs)
}

/// The rows that note the counts of pairs come last.
fn push_pairs(rows: &mut Vec<Correction>, side: Side, pairs: &[PairCount]) -> Result<(), NoMemory>
    ensures { OnOk result (rows.new.items ≡ rows.old.items ++ pair_rows side pairs.now) }
{
    for pair in pairs {
        let row = row_on(side, Some(pair.owner), pair.target, pair.count);
        if rows.push(row).is_err() {
            return Err(NoMemory);
        }
    }
    Ok(())
}

/// The row that notes a count.
fn row_on(side: Side, owner: Option<ActorId>, target: ActorId, count: u32) -> Correction
    ensures { result ≡ row_on side owner target count }
{
    let count = u64::from(count);
    let (told, admitted) = match side {
        Side::Told => (count, 0),
        Side::Admitted => (0, count),
    };
    Correction {
        owner,
        target,
        told,
        admitted,
    }
}
