//! Whether an answer is accepted, its certificate lines judged side by side.
#![tactic(auto)]

mod checking;
mod rounds;

pub use cert_check::CheckError;
pub use checking::check_parallel;

#[cfg(test)]
mod tests;
