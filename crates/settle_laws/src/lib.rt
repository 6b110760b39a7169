//! What the search of a job finds and what it keeps, as definitions, and the lemmas that the search
//! rests on.
#![tactic(auto)]

mod found;
mod node;

pub use found::Found;
pub use node::Node;
