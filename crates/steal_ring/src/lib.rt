//! Jobs that many hands take without a lock: each job once. A hand goes through a list of its own,
//! and then through its neighbour's.
#![tactic(auto)]

mod deal;
mod finish;
mod hand;
mod laws;
mod next;
mod plays;
mod ring;
mod seat;
#[cfg(test)]
mod tests;
mod view;

pub use deal::MAX_WORKERS;
pub use hand::Hand;
pub use laws::won_once;
pub use seat::{Ring, RingSeat};
pub use view::RingView;
