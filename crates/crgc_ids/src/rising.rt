//! Lists of rows that rise strictly, which contracts see as lists.
ghost use Rattle.std.specs.Prelude.{◌≡◌, ◌^◌, ◌<◌, ◌≤◌, ◌↔◌, [], ◌∷◌, ◌++◌, length, OnOk, OnErr, IfOk, slice_get};
ghost use Rattle.std.specs.List.{AllByRecursion};
ghost use Rattle.std.specs.Option.{option_copied};
ghost use Rattle.std.specs.Slice.Iter.{iter_rest};
ghost use Rattle.std.specs.Iterator.Adapters.{IterYieldsInOrder, IterYieldsInReverse};
ghost use Rattle.crgc_ids.specs.Actor.{IsActorBelow, IsPairBelow};
ghost use Rattle.crgc_ids.specs.Rising.{IsRising};

use crate::NoMemory;
use crate::ids::ActorId;
use std::alloc::Global;
use std::marker::Model;
use std::slice::Iter;

/// A row of a rising list.
pub trait Row: Copy {
    /// The first row is strictly below the second.
    ghost is_below: { Self → Self → Type 0 };

    /// What each row of a list meets, as that its count is not 0.
    ghost may_stand: { Self → Type 0 };
}

/// An actor and a count, from 1. Rows are ordered by actor.
#[derive(Clone, Copy, PartialEq, Eq, PartialOrd, Ord, Debug)]
pub struct ActorCount {
    pub actor: ActorId,
    pub count: u32,
}

impl Row for ActorCount {
    ghost is_below = { λ r s. IsActorBelow r.actor s.actor };

    ghost may_stand = { λ r. 0 < r.count };
}

/// An owner, a target and a count, from 1. Rows are ordered by owner, then by target.
#[derive(Clone, Copy, PartialEq, Eq, PartialOrd, Ord, Debug)]
pub struct PairCount {
    pub owner: ActorId,
    pub target: ActorId,
    pub count: u32,
}

impl Row for PairCount {
    ghost is_below = { λ r s. IsPairBelow r.owner r.target s.owner s.target };

    ghost may_stand = { λ r. 0 < r.count };
}

/// A list whose rows rise strictly. It keeps its allocator. Contracts see the list of the rows.
#[derive(Debug, Drop)]
pub struct RisingList<T: Row> {
    rows: Vec<T>,
}

impl<T: Row> Model for RisingList<T> {
    ghost use Rattle.std.specs.Prelude.{List};
    ghost use Rattle.std.specs.List.{AllByRecursion};
    ghost use Rattle.crgc_ids.specs.Rising.{IsRising};

    ghost Value = { List T };

    ghost view = { λ l. l.rows.items };

    ghost invariant = { λ l. IsRising T.is_below l.rows.items × AllByRecursion T.may_stand l.rows.items };
}

impl<T: Row> RisingList<T> {
    /// The empty list.
    pub fn new(alloc: Global) -> RisingList<T>
        ensures { result ≡ [] }
    {
        RisingList {
            rows: Vec::new(alloc),
        }
    }

    /// The list of the rows of a vector, which rise. Constant time, without memory.
    pub fn from_vec(rows: Vec<T>) -> RisingList<T>
        requires rising { IsRising T.is_below rows.items }
        requires stand { AllByRecursion T.may_stand rows.items }
        ensures { result ≡ rows.items }
    {
        RisingList { rows }
    }

    /// The vector of the rows. Constant time, without memory.
    pub fn into_vec(self) -> Vec<T>
        ensures { result.items ≡ self }
    {
        self.rows
    }

    /// Puts the row last; it is above all rows of the list. After `NoMemory` the list is as before. Amortized constant
    /// time.
    pub fn push(&mut self, row: T) -> Result<(), NoMemory>
        requires rising { IsRising T.is_below (self.old ++ row ∷ []) }
        requires stands { T.may_stand row }
        ensures ok { OnOk result (self.new ≡ self.old ++ row ∷ []) }
        ensures err { OnErr result (self.new ≡ self.old) }
    {
        match self.rows.push(row) {
            Ok(()) => Ok(()),
            Err(_) => Err(NoMemory),
        }
    }

    /// An equal list. Linear time.
    pub fn copy(&self) -> Result<RisingList<T>, NoMemory>
        ensures { IfOk result (λ l. l ≡ self.now) }
    {
        match Vec::from_slice(*self.rows.allocator(), self.rows.as_slice()) {
            Ok(rows) => Ok(RisingList { rows }),
            Err(_) => Err(NoMemory),
        }
    }

    /// How many rows it has.
    pub fn len(&self) -> usize
        ensures { result ≡ length self.now }
    {
        self.rows.len()
    }

    /// The row at `i`, from 0; None exactly at the length and above.
    pub fn get(&self, i: usize) -> Option<&T>
        ensures { option_copied result ≡ slice_get self.now i }
    {
        self.rows.get(i)
    }

    /// The rows in order.
    pub fn iter(&self) -> Iter<'_, T>
        ensures rest { iter_rest result ≡ self.now }
        ensures len { length (iter_rest result) ≡ length self.now }
        ensures bound { length (iter_rest result) < 2 ^ 64 }
        ensures runs { IterYieldsInOrder T }
        ensures runs_back { IterYieldsInReverse T }
    {
        self.rows.iter()
    }

    /// All rows as a slice. They rise, and each of them may stand.
    pub fn as_slice(&self) -> &[T]
        ensures value { result.now ≡ self.now }
        ensures rising { IsRising T.is_below self.now }
        ensures stands { AllByRecursion T.may_stand self.now }
    {
        self.rows.as_slice()
    }
}

/// How often each of some actors is counted.
pub type ActorCounts = RisingList<ActorCount>;

/// How often each of some pairs of an owner and a target is counted.
pub type PairCounts = RisingList<PairCount>;
