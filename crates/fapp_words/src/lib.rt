//! The words of a command line, and what they ask for.
#![tactic(auto)]

mod commands;
mod forms;
mod options;
mod reading;
mod request;

pub use fapp_text::NoMemory;
pub use options::{
    CheckOptions, DEFAULT_POOL, DEFAULT_SPLIT, DEFAULT_WORKERS, MAX_VERSION, SolveOptions,
};
pub use reading::read_words;
pub use request::{Request, Seed};

#[cfg(test)]
mod tests;
