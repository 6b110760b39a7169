//! Laws over made networks: the text that a number makes is that of an instance. Each stands as the
//! contract of a function that does nothing; the lemmas that they rest on are in `proofs/`.
#![tactic(auto)]

mod laws;

pub use laws::{made_networks_are_instances, made_networks_are_short};
