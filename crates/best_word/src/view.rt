// What a seat knows.
use atomic_table::TableRule;
use std::collections::LinkedList;

/// What a seat knows of the word. Contracts speak of it; no value of it is made.
pub struct BestView {
    /// How many levels the instance has whose costs are offered.
    pub levels: u64,
    /// The seat was joined into another.
    pub spent: bool,
    /// Its part of the whole share.
    pub share: u64,
    /// The least code that it read or offered.
    pub least: u64,
    /// The codes that it offered, in order.
    pub offers: LinkedList<u64>,
    /// The codes that its loads and offers found, in order.
    pub found: LinkedList<u64>,
}

/// The word is the least code offered. The key is the number of levels.
pub struct BoundRule;

impl TableRule<(), BestView, u64> for BoundRule {
    ghost use Rattle.best_word.specs.Bound.{IsBestWord, first_view};

    ghost holds = { IsBestWord };

    ghost first = { first_view };
}
