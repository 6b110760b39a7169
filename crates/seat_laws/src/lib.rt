//! Laws of seats: rights to step on shared words, each with a view of what its holder knows and
//! with a part of one whole share. They hold whatever else a view has.
#![tactic(auto)]

ghost use Rattle.std.specs.Prelude.{ℕ, List, Bool};
ghost use Rattle.seat_laws.specs.Shares.{WholeIsAlone};

/// The share of all seats together.
pub const WHOLE_SHARE: u64 = 1 << 32;

/// What every view has: whether its seat was joined into another, and its share.
pub trait View {
    ghost spent: { Self → Bool };

    ghost share: { Self → ℕ };
}

/// A seat that has the whole share is the only one that is not spent.
pub fn whole_is_alone<V: View>()
    ensures { (whole : ℕ) → WholeIsAlone V.spent V.share whole }
{}
