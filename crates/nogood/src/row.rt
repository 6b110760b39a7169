ghost use Rattle.std.specs.Prelude.{◌≡◌, ◌≤◌};

use fapp_model::{Literal, Tag};

/// A shared conflict: at most 8 literals, and the tag at which they are implied. It has no place
/// for more, so a longer one is not shared.
#[derive(Clone, Copy, Debug)]
pub struct Row {
    pub tag: Tag,
    /// How many literals count, at most 8.
    pub len: u8,
    /// Their places, from the first on. What stands behind them means nothing.
    pub lits: [Literal; 8],
    ghost short: { len ≤ 8 },
}

impl Row {
    ghost use Rattle.nogood.specs.Rows.{row_literals};

    /// The literals that count.
    pub fn literals(&self) -> &[Literal]
        ensures { result.now ≡ row_literals self.now }
    {
        &self.lits[..self.len as usize]
    }
}

/// What became of an offer to share a conflict.
#[derive(Clone, Copy, Debug, PartialEq, Eq)]
pub enum Published {
    /// It stands in the row of this number.
    Home(u32),
    /// There is no row left: so many were found taken.
    Full(u64),
    /// Another one took the row: `read` rows were found taken, and then `seen`.
    Busy { read: u64, seen: u64 },
    /// It has more literals than a row.
    TooLong,
}
