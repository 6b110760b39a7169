//! Answers and their text: a plan, a verdict on it, and the certificate lines that prove the
//! verdict.
#![tactic(auto)]

mod answer;
mod certificate;
mod elements;
mod fault;
mod fields;
mod kept;
mod laws;
mod line;
mod lists;
mod plan;
mod reading;
mod reject;
mod renumbering;
mod root;
mod stripping;
mod text;
mod verdict;
mod version;
mod writing;

pub use answer::{Answer, Child, Line, Rule, Verdict};
pub use fapp_text::NoMemory;
pub use fault::{AnswerError, BadCert, CertCause};
pub use kept::{deletes, is_delete};
pub use laws::{fault_behind, in_parts, no_fault, one_text, reads_back, text_of_answer};
pub use reading::read_answer;
pub use reject::{RejectCause, Rejected};
pub use renumbering::{renumbered, renumbered_cites};
pub use root::{kept_root_tag, root_tag, with_root_line};
pub use stripping::strip;
pub use writing::{head_text, lines_text, plan_text, verdict_text, write_answer};

#[cfg(test)]
mod strip_rows;
#[cfg(test)]
mod tests;
