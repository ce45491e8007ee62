//! Scripts run by workers in threads of their own, to the report of the one history that they make.
#![tactic(auto)]

mod closing;
mod collecting;
mod fault;
mod gathering;
mod runs;
mod threads;

pub use fault::WorkersFault;
pub use runs::{Finished, run};
