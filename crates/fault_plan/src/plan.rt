//! A plan: rows that are used up one by one.
ghost use Rattle.std.specs.Prelude.{◌≡◌, true, not};
ghost use Rattle.std.specs.List.{IsDistinct, filter, list_any};
ghost use Rattle.fault_plan.specs.Rows.{crash_of, link_row, same_node, same_row};

use crate::crashes::CrashRows;
use crate::links::{LinkRow, LinkRows};
use crate::unused::Unused;
use crgc_ids::NodeId;
use std::marker::Model;

/// Which copies are to be lost, which to be doubled, and which nodes are to crash when. Contracts see the rows that are
/// left.
#[derive(Drop)]
pub struct Plan {
    losses: Unused,
    repeats: Unused,
    crashes: CrashRows,
}

impl Model for Plan {
    ghost use Rattle.fault_plan.specs.Rows.{Planned};

    ghost Value = { Planned };

    ghost view = { λ p. record { losses = p.losses; repeats = p.repeats; crashes = p.crashes } };
}

impl Plan {
    /// The plan of these rows. No row comes twice in its list, and no node has two crash rows. Constant time.
    pub fn new(losses: LinkRows, repeats: LinkRows, crashes: CrashRows) -> Plan
        requires losses { IsDistinct same_row losses }
        requires repeats { IsDistinct same_row repeats }
        requires crashes { IsDistinct same_node crashes }
        ensures { result ≡ record { losses = losses; repeats = repeats; crashes = crashes } }
    {
        Plan {
            losses: Unused::of(losses),
            repeats: Unused::of(repeats),
            crashes,
        }
    }

    /// Whether a loss of the copy on the link is left. Logarithmic time.
    pub fn loses(&self, from: NodeId, at: NodeId, number: u32) -> bool
        ensures { result ≡ list_any (same_row (link_row from at number)) self.now.losses }
    {
        self.losses.has(row(from, at, number))
    }

    /// Whether a repeat of the copy on the link is left. Logarithmic time.
    pub fn repeats(&self, from: NodeId, at: NodeId, number: u32) -> bool
        ensures { result ≡ list_any (same_row (link_row from at number)) self.now.repeats }
    {
        self.repeats.has(row(from, at, number))
    }

    /// With how many ended turns the node crashes; None exactly where no row names it. Linear time in at most 16 rows.
    pub fn crash_after(&self, n: NodeId) -> Option<u32>
        ensures { result ≡ crash_of n self.now.crashes }
    {
        let crash = self.crashes.iter().find(|crash| crash.node == n)?;
        Some(crash.after)
    }

    /// The loss is used up; the other rows stay. Logarithmic time.
    pub fn use_loss(&mut self, from: NodeId, at: NodeId, number: u32)
        requires { list_any (same_row (link_row from at number)) self.old.losses ≡ true }
        ensures { self.new ≡ record self.old { losses = filter (λ r. not (same_row (link_row from at number) r)) self.old.losses } }
    {
        self.losses.use_up(row(from, at, number));
    }

    /// The repeat is used up; the other rows stay. Logarithmic time.
    pub fn use_repeat(&mut self, from: NodeId, at: NodeId, number: u32)
        requires { list_any (same_row (link_row from at number)) self.old.repeats ≡ true }
        ensures { self.new ≡ record self.old { repeats = filter (λ r. not (same_row (link_row from at number) r)) self.old.repeats } }
    {
        self.repeats.use_up(row(from, at, number));
    }
}

fn row(from: NodeId, to: NodeId, number: u32) -> LinkRow
    ensures { result ≡ link_row from to number }
{
    LinkRow { from, to, number }
}
