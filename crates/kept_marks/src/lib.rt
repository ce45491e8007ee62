//! Marks that are kept from sweep to sweep, each with what it stands on: a sweep looks at what changed, and at what hung on it.
#![tactic(auto)]

mod kept;
pub mod laws;
mod place_set;
mod steps;

pub use kept::KeptMarks;

#[cfg(test)]
mod tests;
