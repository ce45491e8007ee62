//! Calls of a pass through the lock of a cluster.
#![tactic(auto)]

mod asking;

pub use asking::{ask, give_up};
