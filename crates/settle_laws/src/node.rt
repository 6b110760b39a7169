use fapp_model::{Items, Tag};
use search_log::ChoiceRef;

/// Literals of which a further path is being tried, choice by choice.
#[derive(Debug, Drop)]
pub struct Node {
    /// The least tag that the literals or a choice so far were judged at.
    pub tag: Tag,
    /// That path: the next one of the work order, or one that was looked ahead to.
    pub path: u16,
    /// The choice that comes next, or that is being tried: the index, or the number of choices at
    /// the end.
    pub choice: u32,
    /// How many choices the path has.
    pub count: u32,
    /// What settles the choices before it that were not dead.
    pub refs: Items<ChoiceRef>,
}
