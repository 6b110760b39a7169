//! What records add to a cost.

ghost use Rattle.std.specs.Prelude.{◌≡◌, ◌+◌};
ghost use Rattle.cert_lines.specs.acceptance.Judged.{is_pair_at_most};
ghost use Rattle.cert_check.specs.Weights.{pair_of};

/// How many records are bad one level below a level, and at how many levels further below.
#[derive(Clone, Copy, Debug, PartialEq, Eq)]
pub(crate) struct Weight {
    pub(crate) v: u64,
    pub(crate) s: u64,
}

impl Weight {
    /// Whether it comes before another one, or is the same.
    pub(crate) fn is_at_most(self, other: Weight) -> bool
        ensures { result ≡ is_pair_at_most (pair_of self) (pair_of other) }
    {
        self.v < other.v || (self.v == other.v && self.s <= other.s)
    }
}
