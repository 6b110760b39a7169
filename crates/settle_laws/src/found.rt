use fapp_model::Tag;
use search_log::Ref;

/// What the search found of some literals.
#[derive(Clone, Copy, Debug, PartialEq, Eq)]
pub enum Found {
    /// They are dead at the tag.
    Dead { tag: Tag },
    /// A line of the log or a row says at the tag, or at a greater one, that nothing is left of
    /// them.
    Settled { line: Ref, tag: Tag },
    /// At the job's level nothing can cost less than what is known: the bound was read as this.
    Moot { seen: Tag },
    /// There was no fuel.
    Spent,
}
