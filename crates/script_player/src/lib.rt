//! Scripts run by the fixed schedule, to the report of the one history that it gives.
#![tactic(auto)]

mod beginning;
mod carrying;
mod driver;
mod ending;
mod fault;
mod making;
mod player;
mod stepping;
mod turning;
mod waking;

pub use driver::Driver;
pub use fault::RunFault;
pub use player::{Ran, run};
