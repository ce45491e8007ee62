//! The threads of a node: the pump, which moves what its node has to tell and what others sent to it, and the collector's, which
//! takes what all nodes told, and sweeps.
#![tactic(auto)]

mod collecting;
mod fetching;
mod idling;
mod pumping;
mod questions;
mod rounds;
mod sweeping;

// The most nodes that a cluster has.
const NODES: u8 = 16;

pub use collecting::collect;
pub use pumping::pump;
