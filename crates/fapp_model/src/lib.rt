//! The instance that is planned, a radio network with its constraint records, and what its plans
//! are worth: paths, records, choices, costs. The definitions that contracts of every crate cite
//! stand in `specs/`.
#![tactic(auto)]

mod choice;
mod counts;
mod instance;
mod items;
mod laws;
mod level;
mod limits;
mod literal;
mod record;
mod tag;
mod triple;

pub use choice::{Choice, choice_at, choice_count, chosen};
pub use counts::{ViolationCounts, add_violations, triple_of_counts};
pub use instance::{Instance, Path};
pub use items::Items;
pub use laws::{codes_follow_tags, limits_are, literals_are_partial, one_work_order};
pub use level::{LEVELS, MAX_LEVELS, MOST_FURTHER, levels};
pub use limits::{
    MAX_CHOICES, MAX_DEPTH, MAX_DOMAIN_FREQUENCIES, MAX_DOMAIN_RECORDS, MAX_FUEL, MAX_MADE_PATHS,
    MAX_NUMBER, MAX_PATH_CHOICES, MAX_PATHS, MAX_POOL, MAX_RECORDS, MAX_SPLIT, MAX_TEXT,
    MAX_WORKERS, S_SPAN, V_SPAN,
};
pub use literal::Literal;
pub use record::Record;
pub use std::alloc::AllocError as NoMemory;
pub use tag::{Tag, is_tag, level_of, tag_of, triple_of};
pub use triple::Triple;
