//! What is counted for pushed literals, as plain data: one count a choice, sums of all paths, and
//! what the choices of two neighbouring paths count in each other's counts at a level, by how far
//! apart their frequencies are. Laws over it say what the counts tell of dead literals.
#![tactic(auto)]

mod breaks;
mod cells;
mod fill;
mod laws;
mod pair;
mod places;
mod rows;
mod table;
mod totals;

pub use breaks::NO_REACH;
pub use cells::{Cell, Cells};
pub use fill::PairCells;
pub use laws::{alive_is_calm, dead_is_over_bound, one_bound};
pub use pair::Edge;
pub use rows::{HARD, NO_TALLY, PathTallies, Tallies};
pub use table::TallyTable;
pub use totals::{OpenPaths, Totals};
