//! Numbers read from bytes, the highest byte first.
#![tactic(auto)]

mod cursor;
pub mod laws;

pub use cursor::Cursor;

#[cfg(test)]
mod tests;
