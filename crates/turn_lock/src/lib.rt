//! A lock over an object that changes in single steps. Its passes keep a history: in every schedule each call answers
//! what the object replies at its point of one history, which has the calls of each pass once and in their order.
//!
//! The history exists in contracts alone. Passes take turns in the order of the tickets that they draw.
#![tactic(auto)]

mod lock;
mod object;
mod pass;
mod rule;

pub use lock::TurnLock;
pub use object::{Entry, Object};
pub use pass::Pass;
