//! What is written: answers, and the lines that tell of refusals; and how each way to end is
//! numbered.
#![tactic(auto)]

mod refusal;
mod status;
mod text;

pub use cert_check::{RejectCause, Rejected};
pub use cert_lines::{BadCert, CertCause, NoMemory};
pub use record_reader::{BadInput, Cause};
pub use refusal::refusal_text;
pub use status::Status;
pub use text::{accepted_text, answer_text};

#[cfg(test)]
mod tests;
