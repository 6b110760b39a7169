ghost use Rattle.std.specs.Prelude.{IsTrue, ◌↔◌};
ghost use Rattle.fapp_model.specs.Triples.{IsBelow};

/// What a plan costs: `k` is the least level at which nothing is violated, `v` the number of
/// violations at the level below it, and `s` their sum over the levels further below. Triples are
/// ordered by `k`, then `v`, then `s`.
#[derive(Clone, Copy, Debug, PartialEq, Eq, PartialOrd, Ord)]
pub struct Triple {
    pub k: u32,
    pub v: u32,
    pub s: u32,
}

impl Triple {
    /// Whether it comes before another one: it costs less.
    pub fn is_below(self, other: Triple) -> bool
        ensures { IsTrue result ↔ IsBelow self other }
    {
        self < other
    }
}
