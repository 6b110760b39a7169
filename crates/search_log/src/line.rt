// What a log is made of.
use fapp_model::{Items, Literal, Tag};

/// What a line of a log rests on.
#[derive(Clone, Copy, Debug, PartialEq, Eq)]
pub enum Ref {
    /// A line of the same log, by its place, from 0.
    Own(u32),
    /// A row of the nogood pool, by its number.
    Row(u32),
}

/// What settles a choice of a Branch line's path, or what a Count line rests on.
#[derive(Clone, Copy, Debug, PartialEq, Eq)]
pub struct ChoiceRef {
    /// The index of the choice. In a Count line it means nothing.
    pub choice: u16,
    pub line: Ref,
}

/// A line of a log: no assignment that extends its literals and breaks no imperative record costs
/// less than its tag.
#[derive(Debug, Drop)]
pub struct LogLine {
    pub tag: Tag,
    /// Ascending by their paths' positions, each path at most once.
    pub lits: Items<Literal>,
    /// The position of a Branch line's path. A line without a path is a Count line.
    pub path: Option<u16>,
    /// In a Branch line their choices ascend.
    pub refs: Items<ChoiceRef>,
}

/// The lines of a log behind those of the segment before it, up to one that was published as a row
/// of the pool.
#[derive(Clone, Copy, Debug, PartialEq, Eq)]
pub struct Segment {
    /// The place of its last line in the log, from 0.
    pub last: u32,
    /// The number of the row that this line was published as.
    pub row: u32,
}
