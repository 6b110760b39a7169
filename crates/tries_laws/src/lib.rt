//! Laws over the definitions of prefixes, of tries and of jobs. Each stands as the contract of a
//! function that does nothing; the lemmas that they rest on are in `proofs/`.
#![tactic(auto)]

mod examples;
mod jobs;
mod prefixes;
mod tries;

pub use examples::{
    free_tries, most_paths_tries, one_path_jobs, small_example_order, three_alike_jobs,
    two_paths_tries,
};
pub use jobs::{
    assignments_have_prefixes, depth_is_greatest, jobs_by_number, one_most_lines, prefixes_are_all,
    targets_are_tags,
};
pub use prefixes::{
    choice_lists_are_all, choice_lists_by_place, extensions_are_all, lists_along_are_all,
    lists_along_by_length, prefixes_are_partial,
};
pub use tries::{one_number_of_tries, tries_at_most_prefixes, tries_by_next, tries_count_prefixes};
