//! Playing a journal: from its bytes to its report, or to its first fault.
#![tactic(auto)]

mod due;
mod fault;
mod header;
mod journal;
mod lines;
mod player;

pub use fault::{Cause, PlayFault};
pub use journal::{Played, play};
pub use player::Player;
