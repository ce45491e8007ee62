//! The actors that may take a message, in order.
#![tactic(auto)]

mod flags;
mod ready;
mod serials;

pub use ready::ReadyActors;

#[cfg(test)]
mod tests;
