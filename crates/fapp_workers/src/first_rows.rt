// Rows that stand in the pool before the workers start.
ghost use Rattle.std.specs.Prelude.{◌≡◌, ◌≤◌, [], length, IfOk};
ghost use Rattle.seat_laws.specs.declared.TheConstants.{WHOLE_SHARE};
ghost use Rattle.nogood_pool.specs.Seats.{view_of, instance_seen, IsSeatOf};
ghost use Rattle.pool_rows.specs.Copying.{all_known};
ghost use Rattle.search_log.specs.NumberedRows.{numbered_rows};
ghost use Rattle.fapp_workers.specs.FirstRows.{ArePublishable, AreTwins};

use fapp_model::NoMemory;
use nogood::{Published, Row};
use nogood_pool::{Pool, PoolSeat};
use std::alloc::Global;

/// Publishes each row once, in order, by the only seat of a pool, which has room for them. The
/// answer pairs the number of each row in the pool with its place; they are equal.
pub(crate) fn publish_first(
    alloc: Global,
    pool: &Pool,
    seat: &mut PoolSeat,
    first: &[Row],
) -> Result<Vec<(u32, u32)>, NoMemory>
    requires own { IsSeatOf pool.now seat.old }
    requires share { (view_of seat.old).share ≡ WHOLE_SHARE }
    requires fresh { ((view_of seat.old).published ≡ []) × ((view_of seat.old).counter ≡ 0) }
    requires room { length first.now ≤ pool.now.rows }
    requires rows { ArePublishable (instance_seen pool.now) first.now }
    ensures own { IsSeatOf pool.now seat.new }
    ensures share { (view_of seat.new).share ≡ WHOLE_SHARE }
    ensures published { IfOk result (λ placed.
        all_known (view_of seat.new).published ≡ numbered_rows first.now) }
    ensures placed { IfOk result (λ placed. AreTwins (length first.now) placed.items) }
{
    let mut placed = Vec::with_capacity(alloc, first.len())?;
    for place in 0..first.len() {
        let said = &first[place];
        let Published::Home(row) = pool.publish(seat, said.literals(), said.tag) else {
            unreachable!()
        };
        placed.push_reserved((row, place as u32));
    }
    Ok(placed)
}
