//! One certificate from the arcs, the lines of several logs and the plan of jobs.
#![tactic(auto)]

mod citing;
mod claim;
mod compacting;
mod copies;
mod gathered;
mod levels;
mod merged;
mod old_rows;
mod prefixes;
mod remainder;
mod segments;
mod tree;
mod whole;

pub use compacting::compact;
pub use whole::{merge, merge_after};
