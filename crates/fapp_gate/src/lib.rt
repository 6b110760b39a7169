//! Gates that workers pass at each job, so that a test can hold one worker until another has come.
#![tactic(auto)]

mod gate;
mod hold;
mod order;

pub use gate::{Gate, OpenGate};
pub use hold::HoldGate;
pub use order::OrderGate;

#[cfg(test)]
mod tests;
