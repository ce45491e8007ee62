//! The bytes of a bulletin: the one spelling of each, the first fault of all other bytes, and the laws of both.
#![tactic(auto)]

mod fault;
pub mod laws;

pub use fault::{WireFault, WireKind};
