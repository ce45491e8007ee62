//! The references to further targets.
ghost use Rattle.std.specs.Prelude.{◌≡◌, ◌≢◌, ◌+◌, ◌<◌, ◌^◌, [], ◌∷◌, IfOk, OnOk, OnErr};
ghost use Rattle.refob_counts.specs.Counts.{CountTheSame, IsCountChange, count_of};

use crate::table::TargetTable;
use crgc_ids::{ActorId, NoMemory};
use std::alloc::Global;
use std::marker::Model;

/// What is kept of further targets: nothing, one with its count in the value itself, or a table of several.
#[derive(Debug, Drop)]
pub enum Kept {
    Nothing,
    One((ActorId, u32)),
    Several(Box<TargetTable>),
}

/// How many references to each of the targets after the first are held. It keeps its allocator. A single one needs no table, and many
/// actors have no more. Contracts see the list of the targets and their counts.
#[derive(Debug, Drop)]
pub struct OtherCounts {
    kept: Kept,
    alloc: Global,
}

impl Model for OtherCounts {
    ghost use Rattle.std.specs.Prelude.{ℕ, List};
    ghost use Rattle.crgc_ids.specs.Actor.{Actor};
    ghost use Rattle.refob_counts.specs.Kept.{counts_in};

    ghost Value = { List (Actor × ℕ) };

    ghost view = { λ o. counts_in o.kept };
}

impl OtherCounts {
    /// Nothing is held.
    pub fn new(alloc: Global) -> OtherCounts
        ensures { result ≡ [] }
    {
        OtherCounts {
            kept: Kept::Nothing,
            alloc,
        }
    }

    /// The target has so many more from now on. `NoMemory` comes only where it had none, and all is then as before. Amortized
    /// logarithmic time in the number of targets.
    pub fn add(&mut self, target: ActorId, count: u32) -> Result<(), NoMemory>
        requires { count_of self.old target + count < 2 ^ 32 }
        ensures ok { OnOk result (IsCountChange self.old self.new target (count_of self.old target + count)) }
        ensures err { OnErr result (self.new ≡ self.old) }
        ensures absent { OnErr result (count_of self.old target ≡ 0) }
    {
        match &mut self.kept {
            Kept::Several(table) => table.add(target, count),
            _ => {
                let held = self.held(target);
                self.set(target, held + count)
            }
        }
    }

    /// The target has this count from now on. `NoMemory` comes only where it had none, and all is then as before. Amortized
    /// logarithmic time in the number of targets.
    pub fn set(&mut self, target: ActorId, count: u32) -> Result<(), NoMemory>
        ensures ok { OnOk result (IsCountChange self.old self.new target count) }
        ensures err { OnErr result (self.new ≡ self.old) }
        ensures absent { OnErr result (count_of self.old target ≡ 0) }
    {
        match &mut self.kept {
            Kept::Nothing => {
                self.kept = Kept::One((target, count));
                Ok(())
            }
            Kept::One((actor, held)) => {
                let one = (*actor, *held);
                if one.0 == target {
                    self.kept = Kept::One((target, count));
                } else {
                    self.kept = Kept::Several(table_of(self.alloc, one, (target, count))?);
                }
                Ok(())
            }
            Kept::Several(table) => table.set(target, count),
        }
    }

    /// No reference to the target is held from now on. Logarithmic time in the number of targets.
    pub fn clear(&mut self, target: ActorId)
        ensures { IsCountChange self.old self.new target 0 }
    {
        match &mut self.kept {
            Kept::Nothing => {}
            Kept::One((actor, _)) => {
                if *actor == target {
                    self.kept = Kept::Nothing;
                }
            }
            Kept::Several(table) => table.clear(target),
        }
    }

    /// How many references to the target are held. Logarithmic time in the number of targets.
    pub fn held(&self, target: ActorId) -> u32
        ensures { result ≡ count_of self.now target }
    {
        match &self.kept {
            Kept::Nothing => 0,
            Kept::One((actor, held)) => { if *actor == target { *held } else { 0 } }
            Kept::Several(table) => table.held(target),
        }
    }
}

/// A table of two targets and their counts. The lower one is put in first, so that both rise.
fn table_of(
    alloc: Global,
    one: (ActorId, u32),
    other: (ActorId, u32),
) -> Result<Box<TargetTable>, NoMemory>
    requires { one.0 ≢ other.0 }
    ensures { IfOk result (λ table. IsCountChange (one ∷ []) table.value other.0 other.1) }
{
    if one.0 < other.0 {
        table_in_order(alloc, one, other)
    } else {
        table_in_order(alloc, other, one)
    }
}

/// A table of these two targets and their counts, put in in this order.
fn table_in_order(
    alloc: Global,
    first: (ActorId, u32),
    second: (ActorId, u32),
) -> Result<Box<TargetTable>, NoMemory>
    requires { first.0 ≢ second.0 }
    ensures { IfOk result (λ table. CountTheSame (first ∷ second ∷ []) table.value) }
{
    let mut table = TargetTable::new(alloc);
    table.set(first.0, first.1)?;
    table.set(second.0, second.1)?;
    match Box::new(alloc, table) {
        Ok(table) => Ok(table),
        Err(_) => Err(NoMemory),
    }
}
