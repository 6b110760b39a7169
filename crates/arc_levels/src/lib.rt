//! Which choices are outside the arcs of each level, and certificate lines that prove it.
#![tactic(auto)]

mod gaps;
mod heights;
mod laws;
mod left;
mod levels;
mod removals;
mod rounds;
mod table;

pub use cert_lines::{Line, Rule};
pub use laws::outside_at_lower_levels;
pub use table::ArcTable;
