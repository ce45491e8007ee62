//! What each node told, and what others admitted from it: what is taken back, and put in, where the node is lost.
#![tactic(auto)]

mod corrections;
mod node_log;
mod side_log;
mod undo_log;

pub use corrections::{Correction, Corrections, Side};
pub use undo_log::UndoLog;
