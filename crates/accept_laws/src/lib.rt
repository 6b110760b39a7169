//! Laws over acceptance: the literals of good lines are implied, an accepted answer is right, and a
//! feasible plan has no fault as it is shown. Each stands as the contract of a function that does
//! nothing; the lemmas that they rest on are in `proofs/`.
#![tactic(auto)]

mod laws;

pub use laws::{
    acceptance_is_proof, accepts_by_parts, compact_keeps_acceptance, compacted_lines_are_formed,
    compacted_lines_are_good, dead_is_judged, feasible_plans_are_well_shown, good_behind_others,
    good_lines_are_implied, judged_is_dead, no_plan_has_no_fault, strip_keeps_acceptance,
    stripped_again, stripped_lines_are_formed, stripped_lines_are_good,
};
