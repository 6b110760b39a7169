// What a seat knows of the pool. No value of these types is made but `Key`.
use atomic_table::TableRule;
use fapp_model::{Instance, Literal};
use nogood::Row;
use std::collections::LinkedList;
use std::snapshot::Snapshot;

/// The literals of a row and the code of its tag.
pub struct Content {
    pub lits: LinkedList<Literal>,
    pub tag: u64,
}

/// A row that holds a content.
pub struct HeldRow {
    pub row: u64,
    pub content: Content,
}

/// A row that was drawn, the content that it will hold, and how many literals are stored.
pub struct RowInWriting {
    pub row: u64,
    pub content: Content,
    pub stored: u64,
}

/// A step that is recorded.
pub enum TrailEntry {
    /// The counter was found to be this number.
    Counted(u64),
    /// The counter was expected to be the first number and found to be the second.
    Exchanged(u64, u64),
    /// The tag word of a row, the first number, was found to be the second.
    Read(u64, u64),
}

/// What a seat knows.
pub struct PoolView {
    pub spent: bool,
    pub share: u64,
    pub instance: Instance,
    pub rows: u64,
    pub counter: u64,
    pub writing: Option<RowInWriting>,
    pub published: LinkedList<HeldRow>,
    pub seen: LinkedList<HeldRow>,
    pub trail: LinkedList<TrailEntry>,
}

/// What a pool is told when it is made.
#[derive(Drop)]
pub struct Key {
    pub rows: u64,
    pub instance: Snapshot<Instance>,
}

/// Each row that has a tag holds a content that is implied, for good.
pub struct PoolRule;

impl TableRule<Row, PoolView, Key> for PoolRule {
    ghost use Rattle.nogood_pool.specs.Pool.{IsPool, first_view};

    ghost holds = { λ k. IsPool k.rows k.instance.value };

    ghost first = { λ k. first_view k.rows k.instance.value };
}
