//! One node's collector: from the bytes of bulletins, in any order, to verdicts.
#![tactic(auto)]

mod collector;
pub mod laws;
mod read;
mod rounds;
mod stopped;
mod stops;

pub use collector::{Collector, Taken};
pub use read::TakeFault;
