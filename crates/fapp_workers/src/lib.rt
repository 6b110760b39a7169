//! The jobs of a plan, settled by workers side by side that share the least cost and their refuted
//! lines, and take jobs from each other.
#![tactic(auto)]

mod bound;
mod closing;
mod dealing;
mod first_rows;
mod gather;
mod job;
mod laws;
mod place;
mod settings;
mod solve;
mod start;
mod worker;

pub use bound::SharedBound;
pub use fapp_gate::{Gate, OpenGate};
pub use job::Done;
pub use laws::{
    enough_settles, jobs_are_settled, offers_are_counted, open_says_so, pooled_seats_close,
    segments_are_used, settled_jobs_stay, shared_logs_are_good, shared_outcomes_are_shown,
    shared_run_is_settled, work_goes_on,
};
pub use pool_rows::{PoolRows, SeatBack};
pub use settings::Settings;
pub use solve::{Gathered, solve_jobs, solve_rows};
pub use worker::work;
