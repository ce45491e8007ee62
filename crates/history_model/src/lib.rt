//! What is true of a history of cluster events: the plain types, and the definitions that every other crate cites.
#![tactic(auto)]

pub mod bulletin_laws;
mod codes;
pub mod compaction;
mod events;
mod history;
pub mod laws;
pub mod live_laws;
mod records;

pub use events::{Event, Rule};
pub use history::{Events, History};
pub use records::{Bulletin, Delta, Entry, StateRow, StateRows, Stop, StopList, Verdict, Window};

#[cfg(test)]
mod tests;
