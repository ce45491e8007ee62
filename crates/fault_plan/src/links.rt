//! Copies on links that are planned to be lost or doubled.
ghost use Rattle.std.specs.Prelude.{◌≡◌, ◌^◌, ◌<◌, [], ◌∷◌, ◌++◌, length, slice_get, OnOk, OnErr, IfOk};
ghost use Rattle.std.specs.List.{list_any};
ghost use Rattle.std.specs.Option.{option_copied};
ghost use Rattle.std.specs.Slice.Iter.{iter_rest};
ghost use Rattle.std.specs.Iterator.Adapters.{IterYieldsInOrder, IterYieldsInReverse};

use crgc_ids::{NoMemory, NodeId};
use std::alloc::Global;
use std::collections::BTreeSet;
use std::marker::Model;
use std::slice::Iter;

/// One copy of this number on the link from one node to another. Rows are ordered by `from`, then `to`, then `number`.
#[derive(Clone, Copy, PartialEq, Eq, PartialOrd, Ord, Debug)]
pub struct LinkRow {
    pub from: NodeId,
    pub to: NodeId,
    pub number: u32,
}

/// Rows in the order in which they were put in. It keeps its allocator. Contracts see the list of the rows.
#[derive(Drop)]
pub struct LinkRows {
    pub(crate) rows: Vec<LinkRow>,
    pub(crate) index: BTreeSet<LinkRow>,
}

impl Model for LinkRows {
    ghost use Rattle.std.specs.Prelude.{List};
    ghost use Rattle.fault_plan.specs.declared.links.LinkRow.{LinkRow};
    ghost use Rattle.fault_plan.specs.Index.{IsIndex};

    ghost Value = { List LinkRow };

    ghost view = { λ l. l.rows.items };

    ghost invariant = { λ l. IsIndex l.index.keys l.rows.items };
}

impl LinkRows {
    ghost use Rattle.fault_plan.specs.Rows.{same_row};
    ghost use Rattle.fault_plan.specs.Index.{IsIndex};

    /// The empty list.
    pub fn new(alloc: Global) -> LinkRows
        ensures { result ≡ [] }
    {
        LinkRows {
            rows: Vec::new(alloc),
            index: BTreeSet::new(alloc),
        }
    }

    /// Puts the row last; after `NoMemory` the list is as before. Amortized logarithmic time.
    pub fn push(&mut self, row: LinkRow) -> Result<(), NoMemory>
        ensures ok { OnOk result (self.new ≡ self.old ++ row ∷ []) }
        ensures err { OnErr result (self.new ≡ self.old) }
    {
        if self.rows.reserve(1).is_err() {
            return Err(NoMemory);
        }
        let LinkRow { from, to, number } = row;
        match self.index.insert(LinkRow { from, to, number }) {
            Ok(_) => {
                self.rows.push_reserved(LinkRow { from, to, number });
                Ok(())
            }
            Err(_) => Err(NoMemory),
        }
    }

    /// An equal list. Time in proportion to n log n.
    pub fn copy(&self) -> Result<LinkRows, NoMemory>
        ensures { IfOk result (λ l. l ≡ self.now) }
    {
        let mut copied = LinkRows::new(*self.rows.allocator());
        for row in self.rows.iter() {
            copied.push(*row)?;
        }
        Ok(copied)
    }

    /// Whether the row is one of the list. Logarithmic time.
    pub fn contains(&self, row: &LinkRow) -> bool
        ensures { result ≡ list_any (same_row row.now) self.now }
    {
        self.index.contains(row)
    }

    /// How many rows it has.
    pub fn len(&self) -> usize
        ensures { result ≡ length self.now }
    {
        self.rows.len()
    }

    /// The row at `i`, from 0; None exactly at the length and above.
    pub fn get(&self, i: usize) -> Option<&LinkRow>
        ensures { option_copied result ≡ slice_get self.now i }
    {
        self.rows.get(i)
    }

    /// The rows in order.
    pub fn iter(&self) -> Iter<'_, LinkRow>
        ensures rest { iter_rest result ≡ self.now }
        ensures len { length (iter_rest result) ≡ length self.now }
        ensures bound { length (iter_rest result) < 2 ^ 64 }
        ensures runs { IterYieldsInOrder LinkRow }
        ensures runs_back { IterYieldsInReverse LinkRow }
    {
        self.rows.iter()
    }
}
