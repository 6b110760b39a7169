// The ring and a seat, as they are kept.
ghost use Rattle.std.specs.Prelude.{◌≡◌, ◌<◌, false, []};

use crate::view::{RingRule, RingView};
use atomic_table::{Seat, Table};
use std::alloc::Global;

/// One word for each job.
#[derive(Drop)]
pub struct Ring {
    pub(crate) table: Table<(), RingView, u64, RingRule, Global>,
    pub(crate) jobs: u32,
    ghost sizes: { (table.shared.table_id.words ≡ jobs) × (table.shared.table_id.slots ≡ 0) },
    ghost key: { table.shared.key ≡ jobs },
    ghost some: { 0 < jobs },
}

/// A right to take jobs, with what its holder knows.
#[derive(Drop)]
pub struct RingSeat {
    pub(crate) seat: Seat<(), RingView>,
    pub(crate) share: u64,
    ghost empty: { seat.me.1 ≡ [] },
    ghost unspent: { seat.me.0.spent ≡ false },
    ghost shares: { seat.me.0.share ≡ share },
}
