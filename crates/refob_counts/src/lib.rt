//! The references that an actor holds: how many to each target.
#![tactic(auto)]

ghost use Rattle.std.specs.Prelude.{◌≡◌, ◌+◌, ◌-◌, ◌<◌, ◌≤◌, ◌^◌, [], OnOk, OnErr, count_by};
ghost use Rattle.crgc_ids.specs.Actor.{Actor, same_actor};
ghost use Rattle.refob_counts.specs.Counts.{CountTheSame, IsCountChange, IsGain, count_of, is_free_for};

mod others;
mod rising;
mod strays;
mod table;

use crate::others::OtherCounts;
use crgc_ids::{ActorId, NoMemory};
use std::alloc::Global;
use std::marker::Model;

/// No reference to the target is held, so none can be released.
#[derive(Clone, Copy, PartialEq, Eq, Debug)]
pub struct NotHeld;

/// How many references to each actor are held. It keeps its allocator. The first target, for most actors the actor itself,
/// stands beside the others. Contracts see the list of the targets and their counts, and read it by `count_of`.
#[derive(Debug, Drop)]
pub struct RefCounts {
    first: Option<(ActorId, u32)>,
    others: OtherCounts,
}

impl Model for RefCounts {
    ghost use Rattle.std.specs.Prelude.{ℕ, List};
    ghost use Rattle.crgc_ids.specs.Actor.{Actor};
    ghost use Rattle.refob_counts.specs.Counts.{with_first};

    ghost Value = { List (Actor × ℕ) };

    ghost view = { λ r. with_first r.first r.others };
}

impl RefCounts {
    /// Nothing is held.
    pub fn new(alloc: Global) -> RefCounts
        ensures { result ≡ [] }
    {
        RefCounts {
            first: None,
            others: OtherCounts::new(alloc),
        }
    }

    /// `count` references to the target are held more, and no other count changes. `NoMemory` comes only where none is held,
    /// and all is then as before. Amortized logarithmic time in the number of targets.
    #[inline(always)]
    pub fn add(&mut self, target: ActorId, count: u32) -> Result<(), NoMemory>
        requires { count_of self.old target + count < 2 ^ 32 }
        ensures ok { OnOk result (IsCountChange self.old self.new target (count_of self.old target + count)) }
        ensures err { OnErr result (self.new ≡ self.old) }
        ensures absent { OnErr result (count_of self.old target ≡ 0) }
    {
        if is_free_for(self.first, target) {
            let held = self.held(target);
            self.first = Some((target, held + count));
            return Ok(());
        }
        self.others.add(target, count)
    }

    /// So many references to the target are held from now on. `NoMemory` comes only where none was, and all is then as before.
    #[inline(always)]
    fn set(&mut self, target: ActorId, count: u32) -> Result<(), NoMemory>
        ensures ok { OnOk result (IsCountChange self.old self.new target count) }
        ensures err { OnErr result (self.new ≡ self.old) }
        ensures absent { OnErr result (count_of self.old target ≡ 0) }
    {
        if is_free_for(self.first, target) {
            self.first = Some((target, count));
            return Ok(());
        }
        self.others.set(target, count)
    }

    /// One reference to each of these targets is held more, as often as it comes, and no other count changes. `NoMemory` comes
    /// only where none is held of one of them; the counts are then as before. Amortized logarithmic time in the number of
    /// targets for each reference.
    pub fn add_all(&mut self, targets: &[ActorId]) -> Result<(), NoMemory>
        requires { (a : Actor) → count_of self.old a + count_by (same_actor a) targets.now < 2 ^ 32 }
        ensures ok { OnOk result (IsGain self.old self.new targets.now) }
        ensures err { OnErr result (CountTheSame self.old self.new) }
    {
        for (done, target) in targets.iter().enumerate() {
            if let Err(NoMemory) = self.add(*target, 1) {
                self.take_back(&targets[..done]);
                return Err(NoMemory);
            }
        }
        Ok(())
    }

    /// One reference to each of these targets, which are held, is held less, as often as it comes.
    fn take_back(&mut self, targets: &[ActorId])
        requires { (a : Actor) → count_by (same_actor a) targets.now ≤ count_of self.old a }
        ensures { IsGain self.new self.old targets.now }
    {
        for target in targets {
            // one is held, so this is no error
            let _ = self.release(*target);
        }
    }

    /// One reference to the target is held less, and no other count changes. `NotHeld` exactly where none is held; then
    /// all is as before. Logarithmic time in the number of targets.
    #[inline(always)]
    pub fn release(&mut self, target: ActorId) -> Result<(), NotHeld>
        ensures ok { OnOk result (IsCountChange self.old self.new target (count_of self.old target - 1)) }
        ensures held { OnOk result (0 < count_of self.old target) }
        ensures err { OnErr result (self.new ≡ self.old) }
        ensures not_held { OnErr result (count_of self.old target ≡ 0) }
    {
        match self.held(target) {
            0 => return Err(NotHeld),
            1 => self.clear(target),
            held => {
                // some are held, so this takes no memory
                let _ = self.set(target, held - 1);
            }
        }
        Ok(())
    }

    /// No reference to the target is held from now on.
    fn clear(&mut self, target: ActorId)
        ensures { IsCountChange self.old self.new target 0 }
    {
        if is_free_for(self.first, target) {
            self.first = Some((target, 0));
        } else {
            self.others.clear(target);
        }
    }

    /// How many references to the target are held. Logarithmic time in the number of targets.
    pub fn held(&self, target: ActorId) -> u32
        ensures { result ≡ count_of self.now target }
    {
        match self.first {
            Some((first, count)) if first == target => count,
            _ => self.others.held(target),
        }
    }
}

/// Whether the place of the first target is that of this one, or of none.
fn is_free_for(first: Option<(ActorId, u32)>, target: ActorId) -> bool
    ensures { result ≡ is_free_for first target }
{
    match first {
        Some((actor, _)) => actor == target,
        None => true,
    }
}

#[cfg(test)]
mod tests;
