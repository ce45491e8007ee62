//! The actors that a bulletin names, and the table of them.
ghost use Rattle.std.specs.Prelude.{◌≡◌, [], ◌∷◌, ◌++◌, OnOk, IfOk};
ghost use Rattle.std.specs.List.{AllByRecursion};
ghost use Rattle.wire_grammar.specs.Named.{state_names, count_names, delta_names, window_names, names_of, table_of};
ghost use Rattle.crgc_ids.specs.Actor.{IsActor};
ghost use Rattle.graph_wire.specs.Pushed.{owner_names, target_names, pushed_pairs, pushed_delta, pushed_window};
ghost use Rattle.graph_wire.specs.Rises.{KeysRise, DeltaRises, WindowRises};

use crgc_ids::{ActorCount, ActorId, NoMemory, PairCount};
use history_model::{Bulletin, Delta, StateRow, Window};
use row_sums::compare_actors;
use std::alloc::Global;

/// Puts the actor last.
fn push_name(names: &mut Vec<ActorId>, actor: ActorId) -> Result<(), NoMemory>
    ensures ok { OnOk result (names.new.items ≡ names.old.items ++ actor ∷ []) }
    ensures actor { IsActor actor }
{
    // An actor's readers say in what range its numbers are.
    let _ = actor.node().get();
    let _ = actor.serial();
    match names.push(actor) {
        Ok(()) => Ok(()),
        Err(_) => Err(NoMemory),
    }
}

fn push_states(names: &mut Vec<ActorId>, rows: &[StateRow]) -> Result<(), NoMemory>
    ensures ok { OnOk result (names.new.items ≡ names.old.items ++ state_names rows.now) }
    ensures actors { OnOk result (AllByRecursion IsActor (state_names rows.now)) }
{
    for row in rows {
        push_name(names, row.actor)?;
    }
    Ok(())
}

fn push_counts(names: &mut Vec<ActorId>, rows: &[ActorCount]) -> Result<(), NoMemory>
    ensures ok { OnOk result (names.new.items ≡ names.old.items ++ count_names rows.now) }
    ensures actors { OnOk result (AllByRecursion IsActor (count_names rows.now)) }
{
    for row in rows {
        push_name(names, row.actor)?;
    }
    Ok(())
}

fn push_owners(names: &mut Vec<ActorId>, rows: &[PairCount]) -> Result<(), NoMemory>
    ensures ok { OnOk result (names.new.items ≡ names.old.items ++ owner_names rows.now) }
    ensures actors { OnOk result (AllByRecursion IsActor (owner_names rows.now)) }
{
    for row in rows {
        push_name(names, row.owner)?;
    }
    Ok(())
}

fn push_targets(names: &mut Vec<ActorId>, rows: &[PairCount]) -> Result<(), NoMemory>
    ensures ok { OnOk result (names.new.items ≡ names.old.items ++ target_names rows.now) }
    ensures actors { OnOk result (AllByRecursion IsActor (target_names rows.now)) }
{
    for row in rows {
        push_name(names, row.target)?;
    }
    Ok(())
}

// The owners of a section rise, so they stand apart from its targets.
fn push_pairs(names: &mut Vec<ActorId>, rows: &[PairCount]) -> Result<(), NoMemory>
    ensures ok { OnOk result (names.new.items ≡ names.old.items ++ pushed_pairs rows.now) }
    ensures actors { OnOk result (AllByRecursion IsActor (pushed_pairs rows.now)) }
{
    push_owners(names, rows)?;
    push_targets(names, rows)
}

fn push_delta(names: &mut Vec<ActorId>, d: &Delta) -> Result<(), NoMemory>
    ensures ok { OnOk result (names.new.items ≡ names.old.items ++ pushed_delta d.now) }
    ensures actors { OnOk result (AllByRecursion IsActor (pushed_delta d.now)) }
    ensures rises { OnOk result (DeltaRises d.now) }
{
    push_states(names, d.states.as_slice())?;
    push_counts(names, d.sent.as_slice())?;
    push_pairs(names, d.created.as_slice())?;
    push_pairs(names, d.released.as_slice())
}

fn push_window(names: &mut Vec<ActorId>, w: &Window) -> Result<(), NoMemory>
    ensures ok { OnOk result (names.new.items ≡ names.old.items ++ pushed_window w.now) }
    ensures actors { OnOk result (AllByRecursion IsActor (pushed_window w.now)) }
    ensures rises { OnOk result (WindowRises w.now) }
{
    push_counts(names, w.messages.as_slice())?;
    push_pairs(names, w.carried.as_slice())
}

/// The actors of a list, rising, each once. The list's long stretches that rise are merged, and the rest is sorted: linear
/// time where all of it stands in a few such stretches, and else in proportion to n log n.
fn sorted(names: Vec<ActorId>) -> Result<Vec<ActorId>, NoMemory>
    ensures { IfOk result (λ v. v.items ≡ table_of names.items) }
{
    let mut table = names;
    match table.sort_by(|a, b| compare_actors(*a, *b)) {
        Ok(()) => {
            table.dedup();
            Ok(table)
        }
        Err(_) => Err(NoMemory),
    }
}

/// The table of the actors that a Delta names, in the room of these names, of which there is none.
fn delta_table(mut names: Vec<ActorId>, d: &Delta) -> Result<Vec<ActorId>, NoMemory>
    requires { names.items ≡ [] }
    ensures value { IfOk result (λ v. v.items ≡ table_of (delta_names d.now)) }
    ensures actors { OnOk result (AllByRecursion IsActor (delta_names d.now)) }
    ensures rises { OnOk result (DeltaRises d.now) }
{
    push_delta(&mut names, d)?;
    sorted(names)
}

/// The table of the actors that a Window or a Final names, in the room of these names, of which there is none.
fn window_table(mut names: Vec<ActorId>, w: &Window) -> Result<Vec<ActorId>, NoMemory>
    requires { names.items ≡ [] }
    ensures value { IfOk result (λ v. v.items ≡ table_of (window_names w.now)) }
    ensures actors { OnOk result (AllByRecursion IsActor (window_names w.now)) }
    ensures rises { OnOk result (WindowRises w.now) }
{
    push_window(&mut names, w)?;
    sorted(names)
}

/// The table of the actors that a bulletin names: rising, each once.
pub fn table(alloc: Global, b: &Bulletin) -> Result<Vec<ActorId>, NoMemory>
    ensures value { IfOk result (λ v. v.items ≡ table_of (names_of b.now)) }
    ensures actors { OnOk result (AllByRecursion IsActor (names_of b.now)) }
    ensures rises { OnOk result (KeysRise b.now) }
{
    // A row names two actors at most.
    let room = row_count(b).saturating_mul(2);
    let Ok(names) = Vec::with_capacity(alloc, room) else {
        return Err(NoMemory);
    };
    match b {
        Bulletin::Delta(d) => delta_table(names, d),
        Bulletin::Window(w) => window_table(names, w),
        Bulletin::Final(w) => window_table(names, w),
    }
}

/// How many rows the bulletin has.
pub fn row_count(b: &Bulletin) -> usize {
    match b {
        Bulletin::Delta(d) => d
            .states
            .len()
            .saturating_add(d.sent.len())
            .saturating_add(d.created.len())
            .saturating_add(d.released.len()),
        Bulletin::Window(w) | Bulletin::Final(w) => w
            .messages
            .len()
            .saturating_add(w.carried.len()),
    }
}
