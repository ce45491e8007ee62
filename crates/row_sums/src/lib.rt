//! Rows added up: the rows of one key become one row, whose count is the sum of theirs.
#![tactic(auto)]

mod counts;
mod orders;
mod pairs;

pub use counts::{add_up_counts, sum_of_counts};
pub use orders::compare_actors;
pub use pairs::{add_up_pairs, sum_of_pairs};

#[cfg(test)]
mod tests;
