//! The faults that a script plans: copies lost and doubled on the links, and crashes of nodes.
#![tactic(auto)]

mod crashes;
mod links;
mod plan;
mod unused;

pub use crashes::{CrashRow, CrashRows};
pub use links::{LinkRow, LinkRows};
pub use plan::Plan;

#[cfg(test)]
mod tests;
