//! The one call that the program makes: from its words and its input to what it writes and its
//! status.
#![tactic(auto)]

mod check_input;
mod judgement;
mod laws;
mod made;
mod plan;
mod reply;
mod solving;
mod top;
mod version;

pub use answer_writer::Status;
pub use fapp_words::{CheckOptions, SolveOptions};
pub use fapp_workers::{Gate, OpenGate};
pub use judgement::{MAX_CHECK_INPUT, judge};
pub use laws::{a_check_has_one_status, what_is_accepted_is_right};
pub use reply::{MAX_INPUT, Reply, Solution, answer, solve_input, status_of};
pub use solving::solve_answer;
pub use top::run;

#[cfg(test)]
mod tests;
