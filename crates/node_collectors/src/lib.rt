//! The collectors of a cluster's nodes, one each, going with its history.
#![tactic(auto)]

mod collectors;
pub mod laws;

pub use collectors::NodeCollectors;
