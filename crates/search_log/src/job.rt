// What a job is, and how it ends.
use crate::Ref;
use fapp_model::{Items, Literal, Tag};

/// A part of the work: a level on a prefix.
#[derive(Debug, Drop)]
pub struct Job {
    /// The level, from 0 to the number of the instance's levels.
    pub level: u32,
    /// Choices of the first paths of the work order, in that order.
    pub prefix: Items<Literal>,
}

/// How a job ended.
#[derive(Clone, Copy, Debug, PartialEq, Eq)]
pub enum Outcome {
    /// No assignment that extends the job's prefix and meets the imperative records costs less than
    /// the tag. A line of the log or a row of the pool says so.
    Refuted { line: Ref, tag: Tag },
    /// There is nothing to find: the bound was read as this.
    Moot { seen: Tag },
    /// The fuel was spent.
    Spent,
}
