//! The round that closes a part of a cluster's history: whatever is due is removed, told and handed on, and then each node
//! sweeps. Each stage is a function over the course of the cluster.
#![tactic(auto)]

mod flushing;
mod halt;
mod handing;
mod removing;
mod rounds;
mod sweeping;
mod trying;
mod windowing;

pub use halt::RoundHalt;
pub use rounds::round;
