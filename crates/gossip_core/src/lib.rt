//! Bulletins put into order: those of each origin come out by their numbers, each once.
#![tactic(auto)]

mod gossip;

pub use gossip::{GossipCore, Offer};

#[cfg(test)]
mod tests;
