//! The operations of a cluster that threads share: what each asks, what it is answered, which of them a pass may make, and the
//! law of what they make together. The state that carries them out stands in a crate above.
#![tactic(auto)]

pub mod laws;
mod operations;
mod replies;

pub use operations::{ACTORS_PER_REFILL, Op};
pub use replies::{Halt, Reply, Why};
