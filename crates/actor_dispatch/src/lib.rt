//! Workers: each runs turns of the cluster's actors through the lock, until nothing is left to do.
#![tactic(auto)]

mod asking;
mod beginning;
mod carrying;
mod taking;
mod turning;
mod working;

pub use working::work;
