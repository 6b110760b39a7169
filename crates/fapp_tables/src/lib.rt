//! Indexes over the records of an instance, and what the records between two choices weigh.
#![tactic(auto)]

mod counts;
mod laws;
mod links;
mod order;
mod pairs;
mod runs;
mod tables;

pub use counts::{Counts, record_counts, record_height};
pub use laws::{neighbours_share_records, pairs_are_added, records_name_both};
pub use pairs::{pair_clashes, pair_counts};
pub use tables::Tables;
