// What each kind of step tells its seat.
use crate::view::BestView;
use atomic_table::{Join, Play, Split};

/// A load of the word.
pub struct Look;

impl Play<(), BestView> for Look {
    ghost use Rattle.best_word.specs.BestSteps.{LoadsBest};

    ghost then = { LoadsBest };
}

/// The word is lowered to an offer, where that is less.
pub struct Lower;

impl Play<(), BestView> for Lower {
    ghost use Rattle.best_word.specs.BestSteps.{Lowers};

    ghost then = { Lowers };
}

/// A load that is made for the share alone.
pub struct Share;

impl Play<(), BestView> for Share {
    ghost use Rattle.best_word.specs.BestSteps.{HasPart};

    ghost then = { HasPart };
}

/// A seat gives half of its share to a new one.
pub struct Halve;

impl Split<BestView> for Halve {
    ghost use Rattle.best_word.specs.Bound.{kept_half, given_half};

    ghost left = { kept_half };

    ghost right = { given_half };
}

/// A seat takes in another.
pub struct Unite;

impl Join<BestView> for Unite {
    ghost use Rattle.best_word.specs.Bound.{after_join, spent_view};

    ghost both = { after_join };

    ghost spent = { spent_view };
}
