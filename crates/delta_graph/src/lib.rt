//! The sum of entries: what a node tells in one Delta.
#![tactic(auto)]

mod delta;
mod fault;
mod gathered;
pub mod laws;
mod names;
mod states;

pub use delta::delta_of;
pub use fault::DeltaFault;
