// What each step tells.
use crate::view::PoolView;
use atomic_table::{Join, Play, Split};
use nogood::Row;

pub struct Count;

impl Play<Row, PoolView> for Count {
    ghost use Rattle.nogood_pool.specs.PoolSteps.{Counts};

    ghost then = { Counts };
}

pub struct Draw;

impl Play<Row, PoolView> for Draw {
    ghost use Rattle.nogood_pool.specs.PoolSteps.{Draws};

    ghost then = { Draws };
}

pub struct StoreLiteral;

impl Play<Row, PoolView> for StoreLiteral {
    ghost use Rattle.nogood_pool.specs.PoolSteps.{Stores};

    ghost then = { Stores };
}

pub struct StoreTag;

impl Play<Row, PoolView> for StoreTag {
    ghost use Rattle.nogood_pool.specs.PoolSteps.{StoresTag};

    ghost then = { StoresTag };
}

pub struct ReadTag;

impl Play<Row, PoolView> for ReadTag {
    ghost use Rattle.nogood_pool.specs.PoolSteps.{LoadsTag};

    ghost then = { LoadsTag };
}

pub struct ReadLiteral;

impl Play<Row, PoolView> for ReadLiteral {
    ghost use Rattle.nogood_pool.specs.PoolSteps.{ReadsLiteral};

    ghost then = { ReadsLiteral };
}

pub struct Share;

impl Play<Row, PoolView> for Share {
    ghost use Rattle.nogood_pool.specs.PoolSteps.{HasPart};

    ghost then = { HasPart };
}

pub struct Halve;

impl Split<PoolView> for Halve {
    ghost use Rattle.nogood_pool.specs.Pool.{kept_half, given_half};

    ghost left = { kept_half };

    ghost right = { given_half };
}

pub struct Unite;

impl Join<PoolView> for Unite {
    ghost use Rattle.nogood_pool.specs.Pool.{after_join, spent_view};

    ghost both = { after_join };

    ghost spent = { spent_view };
}
