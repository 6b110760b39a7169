//! Rows of words that many seats share: each row is written once, by the seat that drew it, and
//! never changes.
#![tactic(auto)]

mod deal;
mod ends;
mod laws;
mod plays;
mod pool;
mod seat;
#[cfg(test)]
mod tests;
mod view;
mod words;

pub use laws::{rows_are_implied, rows_stay};
pub use seat::{MAX_ROWS, Pool, PoolSeat};
pub use view::{Content, HeldRow, PoolView, RowInWriting, TrailEntry};
