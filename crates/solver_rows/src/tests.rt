mod arcs;
mod counts;
mod falling;
mod jobs;
mod plans;
mod tables;
