// The word and a seat, as they are kept.
ghost use Rattle.std.specs.Prelude.{◌≡◌, ◌≤◌, false, [], All};
ghost use Rattle.best_word.specs.Bound.{top_code};

use crate::view::{BestView, BoundRule};
use atomic_table::{Seat, Table};
use fapp_model::Tag;
use std::alloc::Global;

/// The word.
#[derive(Drop)]
pub struct BestWord {
    pub(crate) table: Table<(), BestView, u64, BoundRule, Global>,
    ghost sizes: { (table.shared.table_id.words ≡ 1) × (table.shared.table_id.slots ≡ 0) },
}

/// A right to step on the word, with what its holder knows. It is given only to calls of the word
/// that it was made from.
#[derive(Drop)]
pub struct BestSeat {
    pub(crate) seat: Seat<(), BestView>,
    pub(crate) share: u64,
    pub(crate) least: Tag,
    ghost empty: { seat.me.1 ≡ [] },
    ghost unspent: { seat.me.0.spent ≡ false },
    ghost shares: { seat.me.0.share ≡ share },
    ghost lows: { seat.me.0.least ≡ least.code },
    ghost most: { seat.me.0.least ≤ top_code seat.me.0.levels },
    ghost offered: { All (λ n. seat.me.0.least ≤ n) seat.me.0.offers },
}
