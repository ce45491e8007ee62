//! The rows of entries, one entry after another.
ghost use Rattle.std.specs.Prelude.{◌≡◌, ◌<◌, ◌++◌, IfOk, OnOk, map};
ghost use Rattle.std.specs.List.{AllByRecursion, filter};
ghost use Rattle.std.specs.List.Sorted.{IsPermutation};
ghost use Rattle.delta_graph.specs.Sums.{is_of_part};
ghost use Rattle.history_model.specs.Ledgers.{entries_ledger};

use crgc_ids::{ActorCount, ActorId, NoMemory, PairCount};
use history_model::{Entry, StateRow};
use std::alloc::Global;

/// A state for each entry.
pub fn states_of(alloc: Global, entries: &[Entry]) -> Result<Vec<StateRow>, NoMemory>
    ensures { IfOk result (λ v. v.items ≡ (entries_ledger entries.now).states) }
{
    let Ok(mut rows) = Vec::with_capacity(alloc, entries.len()) else {
        return Err(NoMemory);
    };
    for entry in entries {
        rows.push_reserved(StateRow {
            actor: entry.actor,
            received: entry.received,
            busy: entry.busy,
            root: entry.root,
        });
    }
    Ok(rows)
}

/// The actors that the entries' actors sent messages to.
pub fn sent_of(alloc: Global, entries: &[Entry]) -> Result<Vec<ActorCount>, NoMemory>
    ensures rows { IfOk result (λ v. v.items ≡ (entries_ledger entries.now).sent) }
    ensures stand { IfOk result (λ v. AllByRecursion (λ r. 0 < r.count) v.items) }
{
    let mut rows = Vec::new(alloc);
    for entry in entries {
        if rows.extend_from_slice(entry.sent.as_slice()).is_err() {
            return Err(NoMemory);
        }
    }
    Ok(rows)
}

/// The references that they made: those of actors to themselves first, then the others. Where actors were flushed in their order, both
/// parts rise, so they are soon sorted.
pub fn created_of(alloc: Global, entries: &[Entry]) -> Result<Vec<PairCount>, NoMemory>
    ensures rows { IfOk result (λ v. IsPermutation (entries_ledger entries.now).created v.items) }
    ensures stand { IfOk result (λ v. AllByRecursion (λ r. 0 < r.count) v.items) }
{
    let mut rows = Vec::new(alloc);
    push_created(&mut rows, entries, true)?;
    push_created(&mut rows, entries, false)?;
    Ok(rows)
}

/// The references come last that actors of the entries made to themselves, or else those that they made to others.
fn push_created(
    rows: &mut Vec<PairCount>,
    entries: &[Entry],
    to_itself: bool,
) -> Result<(), NoMemory>
    ensures rows { OnOk result (rows.new.items ≡ rows.old.items ++ filter (is_of_part to_itself) (entries_ledger entries.now).created) }
    ensures stand { OnOk result (AllByRecursion (λ r. 0 < r.count) (entries_ledger entries.now).created) }
{
    for entry in entries {
        push_part(rows, entry.created.as_slice(), to_itself)?;
    }
    Ok(())
}

/// Those of the rows come last in which the owner is the target, or else those in which it is not.
fn push_part(rows: &mut Vec<PairCount>, more: &[PairCount], to_itself: bool) -> Result<(), NoMemory>
    ensures { OnOk result (rows.new.items ≡ rows.old.items ++ filter (is_of_part to_itself) more.now) }
{
    for row in more {
        if is_of_part(*row, to_itself) && rows.push(*row).is_err() {
            return Err(NoMemory);
        }
    }
    Ok(())
}

/// Whether the owner is the target, or else whether it is not.
fn is_of_part(row: PairCount, to_itself: bool) -> bool
    ensures { result ≡ is_of_part to_itself row }
{
    if to_itself {
        row.owner == row.target
    } else {
        row.owner != row.target
    }
}

/// The references that they gave up, as pairs of the entry's actor and the target.
pub fn released_of(alloc: Global, entries: &[Entry]) -> Result<Vec<PairCount>, NoMemory>
    ensures rows { IfOk result (λ v. v.items ≡ (entries_ledger entries.now).released) }
    ensures stand { IfOk result (λ v. AllByRecursion (λ r. 0 < r.count) v.items) }
{
    let mut rows = Vec::new(alloc);
    for entry in entries {
        push_pairs(&mut rows, entry.actor, entry.released.as_slice())?;
    }
    Ok(rows)
}

/// A pair of the owner with each actor of the rows comes last.
fn push_pairs(
    pairs: &mut Vec<PairCount>,
    owner: ActorId,
    rows: &[ActorCount],
) -> Result<(), NoMemory>
    ensures { OnOk result (pairs.new.items ≡ pairs.old.items ++ map (λ r. record { owner = owner; target = r.actor; count = r.count }) rows.now) }
{
    for row in rows {
        let pair = PairCount {
            owner,
            target: row.actor,
            count: row.count,
        };
        if pairs.push(pair).is_err() {
            return Err(NoMemory);
        }
    }
    Ok(())
}
