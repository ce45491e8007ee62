//! A large script from a number.
#![tactic(auto)]

mod makers;
mod text;
mod texts;

pub use text::generate;

#[cfg(test)]
mod tests;
