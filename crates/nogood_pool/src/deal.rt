// Seats for many holders, and the end of all of them.
ghost use Rattle.std.specs.Prelude.{◌≡◌, ◌+◌, ◌≤◌, ◌∷◌, length, map, All, IfOk, OnErr};
ghost use Rattle.seat_laws.specs.declared.TheConstants.{WHOLE_SHARE};
ghost use Rattle.nogood_pool.specs.Dealt.{shares_of, IsSplitFrom, KeepsAllButShare};
ghost use Rattle.nogood_pool.specs.Ends.{ArePooled};
ghost use Rattle.nogood_pool.specs.Seats.{view_of, IsSeatOf, IsSameSeat};

use crate::seat::{Pool, PoolSeat};
use fapp_model::NoMemory;
use std::alloc::Global;

impl Pool {
    /// So many seats, split off one that has the whole share, which keeps what it knows. They have
    /// published nothing, and are given the rows that it published or saw. Room is made first:
    /// where there is none, the seat is as it was.
    pub fn split_seats(
        &self,
        alloc: Global,
        seat: &mut PoolSeat,
        holders: u32,
    ) -> Result<Vec<PoolSeat>, NoMemory>
        requires own { IsSeatOf self.now seat.old }
        requires share { (view_of seat.old).share ≡ WHOLE_SHARE }
        requires holders { holders ≤ 32 }
        ensures same { IsSameSeat seat.old seat.new }
        ensures kept { KeepsAllButShare (view_of seat.old) (view_of seat.new) }
        ensures count { IfOk result (λ seats. length seats.items ≡ holders) }
        ensures own { IfOk result (λ seats. All (IsSeatOf self.now) seats.items) }
        ensures new { IfOk result (λ seats.
            All (λ other. IsSplitFrom (view_of seat.old) (view_of other)) seats.items) }
        ensures shares { IfOk result (λ seats.
            (view_of seat.new).share + shares_of seats.items ≡ WHOLE_SHARE) }
        ensures unchanged { OnErr result (seat.new ≡ seat.old) }
    {
        let mut seats = Vec::with_capacity(alloc, holders as usize)?;
        for _ in 0..holders {
            seats.push_reserved(self.split(seat));
        }
        Ok(seats)
    }

    /// The end, once all seats came back: the first one, and those of a list. Each row that one of
    /// them saw was published by one of them, with the same content, and no row was published
    /// twice.
    pub fn close_seats(self, first: PoolSeat, seats: Vec<PoolSeat>)
        requires first { IsSeatOf self first }
        requires own { All (IsSeatOf self) seats.items }
        requires shares { (view_of first).share + shares_of seats.items ≡ WHOLE_SHARE }
        ensures { ArePooled (view_of first ∷ map view_of seats.items) }
    {
        let mut first = first;
        let mut seats = seats;
        let Some(mut later) = seats.pop() else {
            self.close(first);
            return;
        };
        while let Some(mut seat) = seats.pop() {
            self.join(&mut seat, later);
            later = seat;
        }
        self.join(&mut first, later);
        self.close(first);
    }
}
