//! The cluster as it is: any event of any history, answered exactly as the definitions say.
#![tactic(auto)]

mod acting;
mod applied;
mod apply;
mod both;
mod flushing;
mod lawful;
mod limits;
mod links;
mod messages;
mod moment;
mod publishing;
mod readers;
mod spelling;
mod sweeping;
mod telling;
mod track;
mod working;
mod world;

pub use applied::{Applied, Told};
pub use world::World;
