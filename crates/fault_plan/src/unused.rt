//! Rows of a plan that are not used up yet.
ghost use Rattle.std.specs.Prelude.{◌≡◌, not};
ghost use Rattle.std.specs.List.{IsDistinct, filter, list_any};
ghost use Rattle.fault_plan.specs.Rows.{same_row};

use crate::links::{LinkRow, LinkRows};
use std::collections::BTreeSet;
use std::marker::Model;

/// Rows that differ, each of which can be used up once. Contracts see the list of those that are left, in the order of
/// the plan.
#[derive(Drop)]
pub struct Unused {
    rows: Vec<LinkRow>,
    left: BTreeSet<LinkRow>,
}

impl Model for Unused {
    ghost use Rattle.std.specs.Prelude.{List};
    ghost use Rattle.fault_plan.specs.declared.links.LinkRow.{LinkRow};
    ghost use Rattle.fault_plan.specs.Index.{IsWithin, kept};

    ghost Value = { List LinkRow };

    ghost view = { λ u. kept u.left.keys u.rows.items };

    ghost invariant = { λ u. IsWithin u.left.keys u.rows.items };
}

impl Unused {
    /// All of these rows are left. Constant time, without memory.
    pub fn of(rows: LinkRows) -> Unused
        ensures { result ≡ rows }
    {
        let LinkRows { rows, index } = rows;
        Unused { rows, left: index }
    }

    /// Whether the row is left. Logarithmic time.
    pub fn has(&self, row: LinkRow) -> bool
        ensures { result ≡ list_any (same_row row) self.now }
    {
        self.left.contains(&row)
    }

    /// The row is used up. Logarithmic time.
    pub fn use_up(&mut self, row: LinkRow)
        ensures { self.new ≡ filter (λ r. not (same_row row r)) self.old }
    {
        self.left.remove(&row);
    }
}
