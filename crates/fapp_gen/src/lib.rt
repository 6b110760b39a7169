//! Networks made from a number: large texts of instances to try a planner on.
#![tactic(auto)]

mod line;
mod network;

pub use fapp_text::NoMemory;
pub use network::{MAX_GENERATED, MAX_SEED, generate};

#[cfg(test)]
mod tests;
