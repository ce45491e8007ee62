//! The rows of bulletins, counted in shadows and edges and noted in the log, and the corrections where nodes are lost.
#![tactic(auto)]

mod add;
mod count;
mod edges;
mod grow;
pub mod laws;
mod names;
mod row_numbers;
mod settle;
mod windows;

pub use add::add_delta;
pub use edges::number_of;
pub use row_numbers::RowNumbers;
pub use settle::settle_lost;
pub use windows::add_window;
