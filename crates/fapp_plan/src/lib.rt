//! The jobs that the work is split into, what became of them, and the verdict that follows.
#![tactic(auto)]

mod collected;
mod jobs;
mod laws;
mod sorting;
mod steps;
mod verdict;

pub use collected::Collected;
pub use jobs::Plan;
pub use laws::{literals_by_path, one_verdict};
pub use search_log::{Job, Outcome, Ref};
pub use sorting::sorted_by_path;
pub use steps::Step;
