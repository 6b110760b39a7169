//! What a plan costs.
#![tactic(auto)]

mod laws;
mod plan;

pub use laws::{a_lower_level_costs_less, cost_has_the_least_clear_level, violations_below_decide};
pub use plan::cost;
