//! What one job of the search stands on: fuel, the bound, the shared rows, and the log of its
//! lines, with the segments that pooled rows end in it. Laws over good logs stand each as the
//! contract of a function that does nothing; the lemmas that they rest on are in `proofs/`.
#![tactic(auto)]

mod bound;
mod fuel;
mod job;
mod laws;
mod line;
mod log;
mod mem_rows;
mod piece;
mod shared;
#[cfg(test)]
mod tests;

pub use bound::{Bound, PlainBound};
pub use fuel::Fuel;
pub use job::{Job, Outcome};
pub use laws::{
    example_log, good_lines_are_implied, good_log_is_cut, good_with_more_rows,
    good_with_one_more_line, good_with_one_more_segment,
};
pub use line::{ChoiceRef, LogLine, Ref, Segment};
pub use log::{KeptPlan, Log};
pub use mem_rows::{MemRows, fits};
pub use piece::Piece;
pub use shared::{Cite, NoRows, Shared};
