//! Shared rows of a worker over its seat of the pool.
#![tactic(auto)]

mod calls;
mod rows;
mod take;
#[cfg(test)]
mod tests;

pub use rows::{PoolRows, SeatBack};
