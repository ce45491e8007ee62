//! The numbers of the messages that were admitted.
ghost use Rattle.std.specs.Prelude.{◌≡◌, ◌==◌, ◌||◌, ◌<◌, ◌^◌, ℕ, false, OnOk, OnErr, IfSome, IfNone};
ghost use Rattle.std.specs.BTreeMap.{IsOrdered, get};
ghost use Rattle.std.specs.Ordering.{nat_cmp};
ghost use Rattle.ingress_gateway.specs.Numbered.{has_number};
ghost use Rattle.ingress_gateway.specs.Runs.{AreApart, BeginLater, IsEndWith, IsFirstWith, IsLastRun};

use crgc_ids::NoMemory;
use std::alloc::Global;
use std::collections::BTreeMap;
use std::marker::Model;

/// A set of numbers, which come nearly in order. It keeps the runs of it: the first number of each, with the one after its
/// last, which may be one too large for 32 bits. So it takes memory for each gap, and not for each number.
#[derive(Debug, Drop)]
pub struct Numbers {
    runs: BTreeMap<u64, u64>,
}

impl Model for Numbers {
    ghost use Rattle.std.specs.BTreeMap.{get};
    ghost use Rattle.std.specs.Ordering.{nat_cmp};
    ghost use Rattle.ingress_gateway.specs.Numbered.{Numbered};
    ghost use Rattle.ingress_gateway.specs.Runs.{AreApart};

    ghost Value = { Numbered };

    ghost view = { λ n. record { runs = n.runs.entries } };

    ghost invariant = { λ n. AreApart (get nat_cmp n.runs) };
}

impl Numbers {
    /// No number.
    pub fn new(alloc: Global) -> Numbers
        ensures { (k : ℕ) → has_number result k ≡ false }
    {
        Numbers {
            runs: BTreeMap::new(alloc),
        }
    }

    /// Whether the number is one of them. Logarithmic time in the number of runs.
    pub fn contains(&self, number: u32) -> bool
        ensures { result ≡ has_number self.now number }
    {
        let number = u64::from(number);
        match last_run(&self.runs, number) {
            Some((_, end)) => number < end,
            None => false,
        }
    }

    /// The number, which is none of them, is added. After `NoMemory` all is as before. Logarithmic time in the number of
    /// runs.
    pub fn insert(&mut self, number: u32) -> Result<(), NoMemory>
        requires { has_number self.old number ≡ false }
        ensures ok { OnOk result ((k : ℕ) → has_number self.new k ≡ ((k == number) || has_number self.old k)) }
        ensures err { OnErr result (self.new ≡ self.old) }
    {
        let number = u64::from(number);
        let first = first_with(&self.runs, number);
        let end = end_with(&self.runs, number);
        if self.runs.insert(first, end).is_err() {
            return Err(NoMemory);
        }
        self.runs.remove(&(number + 1));
        Ok(())
    }
}

/// The run that begins last of those that begin at or before the number.
fn last_run(runs: &BTreeMap<u64, u64>, number: u64) -> Option<(u64, u64)>
    ensures some { IfSome result (λ r. IsLastRun (get nat_cmp runs.now) number r.0 r.1) }
    ensures none { IfNone result (BeginLater (get nat_cmp runs.now) number) }
    ensures ordered { IsOrdered nat_cmp runs.now }
{
    match runs.range(..=number).next_back() {
        Some((first, end)) => Some((*first, *end)),
        None => None,
    }
}

/// Where the run begins that the number goes on; the number itself where it goes on none.
fn first_with(runs: &BTreeMap<u64, u64>, number: u64) -> u64
    requires { AreApart (get nat_cmp runs.now) }
    ensures first { IsFirstWith (get nat_cmp runs.now) number result }
    ensures ordered { IsOrdered nat_cmp runs.now }
{
    if let Some((first, end)) = last_run(runs, number) {
        if end == number {
            return first;
        }
    }
    number
}

/// Where the run ends that begins after the number; the number after it where none does.
fn end_with(runs: &BTreeMap<u64, u64>, number: u64) -> u64
    requires { number < 2 ^ 32 }
    ensures { IsEndWith (get nat_cmp runs.now) number result }
{
    match runs.get(&(number + 1)) {
        Some(end) => *end,
        None => number + 1,
    }
}
