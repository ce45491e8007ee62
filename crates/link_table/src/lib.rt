//! The links between the nodes: the copies and messages that are under way on each, and the gates at its ends.
#![tactic(auto)]

pub mod laws;
mod link;
mod piles;
mod table;

pub use link::Link;
pub use piles::{Envelope, Pile};
pub use table::LinkTable;
