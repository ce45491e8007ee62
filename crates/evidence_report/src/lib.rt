//! The report of a history, in full and in brief.
#![tactic(auto)]

mod brief;
mod counts;
mod full;
pub mod laws;
mod text;

pub use brief::brief_report;
pub use counts::stopped_by_all;
pub use full::full_report;

#[cfg(test)]
mod tests;
