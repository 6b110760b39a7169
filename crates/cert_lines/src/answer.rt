//! Answers: a plan, what is claimed of it, and the lines that prove it.

use fapp_model::{Choice, Items, Literal, Tag, Triple};

/// What is worth citing of a choice of a Branch line's path.
#[derive(Clone, Copy, Debug, PartialEq, Eq)]
pub struct Child {
    /// The index of the choice.
    pub choice: u16,
    /// The number of a certificate line, from 1.
    pub cite: u32,
}

/// Why no assignment that extends a line's literals costs less than the line's tag.
#[derive(Debug, Drop)]
pub enum Rule {
    /// It follows by counting, with the help of the cited lines. Their numbers ascend.
    Count { cites: Items<u32> },
    /// It follows for each choice of a path, given by its position. The children's choices ascend,
    /// and a choice without a child needs no citation.
    Branch { path: u16, children: Items<Child> },
    /// Nothing: no later line cites the named ones. Their numbers ascend.
    Delete { cites: Items<u32> },
}

/// A line of a certificate: no assignment that extends its literals and breaks no imperative record
/// costs less than its tag.
#[derive(Debug, Drop)]
pub struct Line {
    pub tag: Tag,
    /// Ascending by their paths' positions, each path at most once.
    pub lits: Items<Literal>,
    pub rule: Rule,
}

/// What an answer claims.
#[derive(Debug, Drop)]
pub enum Verdict {
    /// The plan costs this, and no plan costs less.
    Best(Triple),
    /// No assignment meets the imperative records.
    NoneFeasible,
    /// The search ended early.
    Open {
        /// What the shown plan costs, or (`levels + 1`, 0, 0) where none is shown.
        best: Triple,
        /// No plan costs less than this.
        lower: Tag,
        /// The level of the named job, at most the number of the instance's levels.
        level: u32,
        /// The choices that the named job began with, ascending by position.
        prefix: Items<Literal>,
    },
}

/// A plan, what is claimed of it, and the lines that prove it.
#[derive(Debug, Drop)]
pub struct Answer {
    /// The choices of the first paths, in the order of the paths.
    pub plan: Items<Choice>,
    pub verdict: Verdict,
    /// 1, or 2 where lines may be Delete lines.
    pub version: u32,
    /// They count from 1.
    pub lines: Items<Line>,
}
