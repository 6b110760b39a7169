// What a worker keeps of the pool.
ghost use Rattle.std.specs.Prelude.{◌≡◌, ◌≤◌, ◌++◌, [], vec_capacity};
ghost use Rattle.nogood_pool.specs.Seats.{IsSeatOf, view_of};
ghost use Rattle.pool_rows.specs.Copying.{AreSeatCopies};

use nogood_pool::{Pool, PoolSeat};
use row_copies::Copies;

/// A worker's copies of the rows of a pool, and its seat.
#[derive(Drop)]
pub struct PoolRows<'a> {
    pub(crate) pool: &'a Pool,
    pub(crate) seat: PoolSeat,
    pub(crate) copies: Copies,
    /// Rows below it were asked for.
    pub(crate) next: u32,
    /// Those of them that had no content yet.
    pub(crate) missing: Vec<u32>,
    /// Room for those that still have none after a look-up.
    pub(crate) spare: Vec<u32>,
    ghost own: { IsSeatOf pool.now seat },
    ghost room: { (copies.room ≡ pool.now.rows) × (pool.now.rows ≤ vec_capacity missing)
        × (pool.now.rows ≤ vec_capacity spare) },
    ghost empty: { spare.items ≡ [] },
    ghost copied: { AreSeatCopies (view_of seat) copies.cites next missing.items },
}

/// A seat that comes back: there was no memory for what it was given for.
#[derive(Drop)]
pub struct SeatBack {
    pub seat: PoolSeat,
}
