//! Whether an answer is accepted, and its first fault where it is not.
#![tactic(auto)]

mod acceptance;
mod between;
mod cites;
mod deleters;
mod error;
mod exclusion;
mod judging;
mod least;
mod line;
mod marks;
mod near;
mod ones;
mod plan;
mod root;
mod stuck;
mod tables;
mod weight;

pub use acceptance::{check, judge_line};
pub use cert_lines::{RejectCause, Rejected};
pub use error::CheckError;
pub use fapp_model::NoMemory;
pub use marks::Marks;
pub use plan::judge_plan;
pub use root::{judge_root, root_fault};
