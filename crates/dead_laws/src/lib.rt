//! Laws over the definitions of tags, arcs and dead partial assignments. Each stands as the
//! contract of a function that does nothing; the lemmas that they rest on are in `proofs/`.
#![tactic(auto)]

mod arcs;
mod dead;
mod examples;
mod implied;
mod tags;

pub use arcs::{arcs_are_supported, arcs_have_each};
pub use dead::{
    dead_at_lower_tags, dead_by_arcs_and_test_is_implied, dead_by_test, dead_in_extensions,
    dead_is_decided, dead_is_implied, full_dead_is_implied, judged_dead_is_implied,
    none_where_dead_at_top,
};
pub use examples::{
    each_three_die, examples_are_valid, one_choice_lives, tied_pair_arcs, tied_pair_roots,
    unlike_sum, unlike_tags,
};
pub use implied::{
    implied_at_greater, implied_at_lower_tags, implied_by_branch, implied_in_extensions,
    none_at_top,
};
pub use tags::{cost_against_mode, costs_are_tags};
