//! A worker's own copies of shared rows, filed by a literal of each.
#![tactic(auto)]

mod copies;
#[cfg(test)]
mod tests;

pub use copies::Copies;
