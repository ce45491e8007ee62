//! The messages that wait for the actors.
#![tactic(auto)]

mod mailboxes;
mod queue;

pub use mailboxes::Mailboxes;

#[cfg(test)]
mod tests;
