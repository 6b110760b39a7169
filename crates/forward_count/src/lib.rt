//! Literals that are pushed and taken back, and what is counted for them: whether they are dead,
//! and what the others add.
#![tactic(auto)]

mod afresh;
mod counts;
mod forward;
mod moves;
mod recount;
mod rows;
mod start;
mod step;
mod window;

pub use forward::Forward;
