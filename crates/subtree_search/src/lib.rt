//! The search of one job.
#![tactic(auto)]

mod ahead;
mod by_row;
mod chains;
mod enter;
mod explain;
mod job;
mod lines;
mod node;
mod offering;
mod pass;
mod prefix;
mod recall;
mod seen;
mod tags;
mod walk;

pub use job::settle;
