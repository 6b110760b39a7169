//! One word that many seats share without a lock: the least cost that one of them offered.
#![tactic(auto)]

mod deal;
mod laws;
mod plays;
mod seat;
#[cfg(test)]
mod tests;
mod view;
mod word;

pub use laws::word_is_least_offered;
pub use seat::{BestSeat, BestWord};
pub use view::BestView;
