//! Two objects for the turn lock, a counter and a map, as examples and for its tests.
#![tactic(auto)]

mod counter;
mod map;

pub use counter::{Counter, two_hundred};
pub use map::{Map, MapOp, MapReply};

#[cfg(test)]
mod tests;
