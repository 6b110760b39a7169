// How seats begin, are cut and put together, and end.
ghost use Rattle.std.specs.Prelude.{◌≡◌, ◌≤◌, IfOk};
ghost use Rattle.seat_laws.specs.declared.TheConstants.{WHOLE_SHARE};
ghost use Rattle.nogood_pool.specs.Pool.{first_view, kept_half, given_half, after_join};
ghost use Rattle.nogood_pool.specs.Ends.{IsWholePool};
ghost use Rattle.nogood_pool.specs.Seats.{view_of, instance_seen, IsSeatOf, IsSameSeat};

use crate::plays::{Halve, Share, Unite};
use crate::seat::{MAX_ROWS, Pool, PoolSeat};
use crate::view::Key;
use atomic_table::Table;
use fapp_model::{Instance, NoMemory};
use seat_laws::WHOLE_SHARE;
use std::alloc::Global;
use std::snapshot::Snapshot;

impl Pool {
    /// A pool of so many rows, at most `MAX_ROWS`, for nogoods of the instance, and the first seat.
    /// All memory is taken here: 72 bytes a row.
    pub fn new(alloc: Global, rows: u32, instance: &Instance) -> Result<(Pool, PoolSeat), NoMemory>
        requires { rows ≤ MAX_ROWS }
        ensures { IfOk result (λ r. IsSeatOf r.0 r.1 × (view_of r.1 ≡ first_view rows instance.now)
            × (r.0.rows ≡ rows) × (instance_seen r.0 ≡ instance.now)) }
    {
        let key = Key {
            rows: u64::from(rows),
            instance: Snapshot::of(instance),
        };
        let words = vec![in alloc; 0u64; 1 + 9 * rows as usize]?;
        let (table, seat) = Table::of_words(alloc, words.as_slice(), &key)?;
        Ok((
            Pool { table, rows },
            PoolSeat {
                seat,
                share: WHOLE_SHARE,
                counter: 0,
            },
        ))
    }

    /// Another seat, which gets half of the share, rounded down, and is given the rows that the
    /// seat published or saw.
    pub fn split(&self, seat: &mut PoolSeat) -> PoolSeat
        requires own { IsSeatOf self.now seat.old }
        requires share { 2 ≤ (view_of seat.old).share }
        ensures same { IsSameSeat seat.old seat.new × IsSeatOf self.now result }
        ensures kept { view_of seat.new ≡ kept_half (view_of seat.old) }
        ensures given { view_of result ≡ given_half (view_of seat.old) }
    {
        let other = self.table.shared.split_seat::<Halve>(&mut seat.seat);
        let half = seat.share / 2;
        seat.share -= half;
        PoolSeat {
            seat: other,
            share: half,
            counter: seat.counter,
        }
    }

    /// Takes in another seat's share and what it knows.
    pub fn join(&self, seat: &mut PoolSeat, other: PoolSeat)
        requires { IsSeatOf self.now seat.old × IsSeatOf self.now other }
        ensures same { IsSameSeat seat.old seat.new }
        ensures view { view_of seat.new ≡ after_join (view_of seat.old) (view_of other) }
    {
        let PoolSeat {
            seat: joined,
            share,
            counter,
        } = other;
        self.table.shared.join_seat::<Unite>(&mut seat.seat, joined);
        // This load shows that the shares add up to the whole at most.
        self.table.shared.load::<Share>(&mut seat.seat, 0);
        seat.share += share;
        if seat.counter < counter {
            seat.counter = counter;
        }
    }

    /// The end, once every other seat was joined. Each row that a seat saw stands with the same
    /// content among those that were published, and no row was published twice.
    pub fn close(self, seat: PoolSeat)
        requires own { IsSeatOf self seat }
        requires share { (view_of seat).share ≡ WHOLE_SHARE }
        ensures { IsWholePool (view_of seat) }
    {
        let Pool { table, rows: _ } = self;
        let PoolSeat {
            seat,
            share: _,
            counter: _,
        } = seat;
        table.close_with(seat).free();
    }
}
