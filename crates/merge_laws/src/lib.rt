//! What the lines of several logs are merged into, and laws of it. Each law stands as the contract
//! of a function that does nothing; the lemmas that they rest on are in `proofs/`.
#![tactic(auto)]

mod laws;

pub use laws::{
    gathered_lines_are_good, merged_answer_is_accepted, merged_lines_after_are_accepted,
    merged_lines_are_accepted, one_root_tag, rule_settles_prefixes, tree_lines,
};
