//! The actors that a Delta names.
ghost use Rattle.std.specs.Prelude.{◌≡◌, ◌++◌, IfOk, OnOk, length, map, min, nat_lt};
ghost use Rattle.std.specs.List.Sorted.{IsPermutation, IsSortedBy};
ghost use Rattle.std.specs.Ordering.{is_lt};
ghost use Rattle.history_model.specs.Graph.{rising_actors};
ghost use Rattle.history_model.specs.Ledgers.{delta_ledger, ledger_names};
ghost use Rattle.row_sums.specs.Orders.{compare_actors};
ghost use Rattle.crgc_ids.specs.declared.limits.TheConstants.{MOST_NAMED};

use crgc_ids::{ActorCount, ActorId, MOST_NAMED, NoMemory, PairCount};
use history_model::{Delta, StateRow};
use row_sums::compare_actors;
use std::alloc::Global;

/// Whether the rows of a Delta name more than 200,000 different actors. Constant time where they have too few names for that,
/// and else in proportion to n log m for n names in m stretches that rise; where there is no memory for that, to n log n.
pub fn names_too_many(alloc: Global, delta: &Delta) -> Result<bool, NoMemory>
    ensures { IfOk result (λ b. b ≡ nat_lt MOST_NAMED (length (rising_actors (ledger_names (delta_ledger delta.now))))) }
{
    if names_of(delta) <= MOST_NAMED {
        return Ok(false);
    }
    Ok(named_in(alloc, delta)? > MOST_NAMED)
}

/// How many names the rows of a Delta have, as far as 64 bits count.
fn names_of(delta: &Delta) -> usize
    ensures { result ≡ min (length (ledger_names (delta_ledger delta.now))) 18446744073709551615 }
{
    let pairs = delta.created.len().saturating_add(delta.released.len());
    let counts = delta.states.len().saturating_add(delta.sent.len());
    counts.saturating_add(pairs.saturating_add(pairs))
}

/// How many different actors the rows of a Delta name. Time in proportion to n log m for n names in m stretches that rise; where
/// there is no memory for that, to n log n.
fn named_in(alloc: Global, delta: &Delta) -> Result<usize, NoMemory>
    ensures { IfOk result (λ n. n ≡ length (rising_actors (ledger_names (delta_ledger delta.now)))) }
{
    let Ok(mut names) = Vec::with_capacity(alloc, names_of(delta)) else {
        return Err(NoMemory);
    };
    push_states(&mut names, delta.states.as_slice())?;
    push_counts(&mut names, delta.sent.as_slice())?;
    push_pairs(&mut names, delta.created.as_slice())?;
    push_pairs(&mut names, delta.released.as_slice())?;
    Ok(count_different(names))
}

/// How many different actors the list has.
fn count_different(names: Vec<ActorId>) -> usize
    ensures { result ≡ length (rising_actors names.items) }
{
    let mut names = names;
    sort_names(&mut names);
    names.dedup();
    names.len()
}

/// The names are sorted.
fn sort_names(names: &mut Vec<ActorId>)
    ensures permutation { IsPermutation names.old.items names.new.items }
    ensures sorted { IsSortedBy (λ a b. is_lt (compare_actors a b)) names.new.items }
{
    match names.sort_by(|a, b| compare_actors(*a, *b)) {
        Ok(()) => {}
        Err(_) => names.sort_unstable_by(|a, b| compare_actors(*a, *b)),
    }
}

/// The actors of the states come last.
fn push_states(names: &mut Vec<ActorId>, rows: &[StateRow]) -> Result<(), NoMemory>
    ensures { OnOk result (names.new.items ≡ names.old.items ++ map (λ r. r.actor) rows.now) }
{
    for row in rows {
        if names.push(row.actor).is_err() {
            return Err(NoMemory);
        }
    }
    Ok(())
}

/// The actors of the rows come last.
fn push_counts(names: &mut Vec<ActorId>, rows: &[ActorCount]) -> Result<(), NoMemory>
    ensures { OnOk result (names.new.items ≡ names.old.items ++ map (λ r. r.actor) rows.now) }
{
    for row in rows {
        if names.push(row.actor).is_err() {
            return Err(NoMemory);
        }
    }
    Ok(())
}

/// The owners of the rows come last, and then their targets: the owners of a section rise, so they stand apart.
fn push_pairs(names: &mut Vec<ActorId>, rows: &[PairCount]) -> Result<(), NoMemory>
    ensures { OnOk result (names.new.items ≡ names.old.items ++ (map (λ r. r.owner) rows.now ++ map (λ r. r.target) rows.now)) }
{
    push_owners(names, rows)?;
    push_targets(names, rows)
}

/// The owners of the rows come last.
fn push_owners(names: &mut Vec<ActorId>, rows: &[PairCount]) -> Result<(), NoMemory>
    ensures { OnOk result (names.new.items ≡ names.old.items ++ map (λ r. r.owner) rows.now) }
{
    for row in rows {
        if names.push(row.owner).is_err() {
            return Err(NoMemory);
        }
    }
    Ok(())
}

/// The targets of the rows come last.
fn push_targets(names: &mut Vec<ActorId>, rows: &[PairCount]) -> Result<(), NoMemory>
    ensures { OnOk result (names.new.items ≡ names.old.items ++ map (λ r. r.target) rows.now) }
{
    for row in rows {
        if names.push(row.target).is_err() {
            return Err(NoMemory);
        }
    }
    Ok(())
}
