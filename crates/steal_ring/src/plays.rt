// What each kind of step tells its seat.
use crate::view::RingView;
use atomic_table::{Join, Play, Split};

/// A swap of a job's word with 1.
pub struct Take;

impl Play<(), RingView> for Take {
    ghost use Rattle.steal_ring.specs.RingSteps.{TakesJob};

    ghost then = { TakesJob };
}

/// A load that is made for the share alone.
pub struct Share;

impl Play<(), RingView> for Share {
    ghost use Rattle.steal_ring.specs.RingSteps.{HasPart};

    ghost then = { HasPart };
}

/// A seat gives half of its share to a new one.
pub struct Halve;

impl Split<RingView> for Halve {
    ghost use Rattle.steal_ring.specs.Jobs.{kept_half, given_half};

    ghost left = { kept_half };

    ghost right = { given_half };
}

/// A seat takes in another.
pub struct Unite;

impl Join<RingView> for Unite {
    ghost use Rattle.steal_ring.specs.Jobs.{after_join, spent_view};

    ghost both = { after_join };

    ghost spent = { spent_view };
}
