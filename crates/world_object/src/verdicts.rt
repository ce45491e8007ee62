//! The verdicts of sweeps.
ghost use Rattle.std.specs.Prelude.{◌≡◌, ◌∷◌, [], drop, reverse, slice_get, IsSome, OnErr, OnOk, Some};

use crgc_ids::NoMemory;
use history_model::Verdict;
use std::alloc::Global;
use std::marker::Model;

/// The verdicts of sweeps. Contracts see their list, the last one first.
#[derive(Drop)]
pub(crate) struct KeptVerdicts {
    verdicts: Vec<Verdict>,
}

impl Model for KeptVerdicts {
    ghost use Rattle.std.specs.Prelude.{List, reverse};
    ghost use Rattle.history_model.specs.declared.records.Verdict.{Verdict};

    ghost Value = { List Verdict };

    ghost view = { λ k. reverse k.verdicts.items };
}

impl KeptVerdicts {
    /// No verdict.
    pub(crate) fn new(alloc: Global) -> KeptVerdicts
        ensures { result ≡ [] }
    {
        KeptVerdicts {
            verdicts: Vec::new(alloc),
        }
    }

    /// One verdict more; after `NoMemory` they are as before. Amortized constant time.
    pub(crate) fn keep(&mut self, verdict: Verdict) -> Result<(), NoMemory>
        ensures ok { OnOk result (self.new ≡ verdict ∷ self.old) }
        ensures err { OnErr result (self.new ≡ self.old) }
    {
        match self.verdicts.push(verdict) {
            Ok(()) => Ok(()),
            Err(_) => Err(NoMemory),
        }
    }

    /// The last one.
    pub(crate) fn last(&self) -> &Verdict
        requires { IsSome (slice_get self.now 0) }
        ensures { slice_get self.now 0 ≡ Some result.now }
    {
        &self.verdicts[self.verdicts.len() - 1]
    }

    /// All but the last one.
    pub(crate) fn take_back(&mut self)
        ensures { self.new ≡ drop 1 self.old }
    {
        self.verdicts.pop();
    }

    /// All of them, in the order of their sweeps. Constant time, without memory.
    pub(crate) fn into_vec(self) -> Vec<Verdict>
        ensures { reverse result.items ≡ self }
    {
        self.verdicts
    }
}
