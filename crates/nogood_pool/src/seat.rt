// The pool and a seat, as they are kept.
ghost use Rattle.nogood_pool.specs.declared.seat.TheConstants.{MAX_ROWS};
ghost use Rattle.nogood_pool.specs.PoolSteps.{AreRowsApart};
ghost use Rattle.std.specs.Prelude.{◌≡◌, ◌+◌, ◌*◌, ◌≤◌, false, [], None};

use crate::view::{Key, PoolRule, PoolView};
use atomic_table::{Seat, Table};
use nogood::Row;
use std::alloc::Global;

/// The most rows of a pool.
pub const MAX_ROWS: u32 = 65_536;

/// Rows of words.
#[derive(Drop)]
pub struct Pool {
    pub(crate) table: Table<Row, PoolView, Key, PoolRule, Global>,
    pub(crate) rows: u32,
    ghost sizes: { (table.shared.table_id.words ≡ 1 + 9 * rows)
        × (table.shared.table_id.slots ≡ 0) },
    ghost key: { table.shared.key.rows ≡ rows },
    ghost most: { rows ≤ MAX_ROWS },
}

/// A right to step on the rows, with what its holder knows.
#[derive(Drop)]
pub struct PoolSeat {
    pub(crate) seat: Seat<Row, PoolView>,
    pub(crate) share: u64,
    pub(crate) counter: u64,
    ghost empty: { seat.me.1 ≡ [] },
    ghost unspent: { seat.me.0.spent ≡ false },
    ghost idle: { seat.me.0.writing ≡ None },
    ghost shares: { seat.me.0.share ≡ share },
    ghost counts: { seat.me.0.counter ≡ counter },
    ghost apart: { AreRowsApart seat.me.0.published },
}
