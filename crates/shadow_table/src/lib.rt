//! Shadows: what a collector knows of each actor that was named to it, in the order of naming.
#![tactic(auto)]

mod numbers;
mod table;

pub use table::{Shadow, ShadowTable};
