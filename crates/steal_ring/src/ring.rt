// The steps on the ring.
ghost use Rattle.std.specs.Prelude.{◌≡◌, ◌<◌, ◌≤◌, IfOk, MatchBool};
ghost use Rattle.seat_laws.specs.declared.TheConstants.{WHOLE_SHARE};
ghost use Rattle.steal_ring.specs.Jobs.{first_view, given_half, kept_half, after_miss, after_win, after_join};
ghost use Rattle.steal_ring.specs.Seats.{view_of, IsSeatOf, IsSameSeat, IsWholeRing};

use crate::plays::{Halve, Share, Take, Unite};
use crate::seat::{Ring, RingSeat};
use atomic_table::Table;
use seat_laws::WHOLE_SHARE;
use std::alloc::{AllocError as NoMemory, Global};

impl RingSeat {
    /// Its part of the whole share.
    pub(crate) fn share(&self) -> u64
        ensures { result ≡ (view_of self.now).share }
    {
        self.share
    }
}

impl Ring {
    /// So many free jobs, and the first seat.
    pub(crate) fn free(alloc: Global, jobs: u32) -> Result<(Ring, RingSeat), NoMemory>
        requires { 0 < jobs }
        ensures { IfOk result (λ made. IsSeatOf made.0 made.1 × (view_of made.1 ≡ first_view)
            × (made.0.jobs ≡ jobs)) }
    {
        let words = vec![in alloc; 0u64; jobs as usize]?;
        let (table, seat) = Table::of_words(alloc, words.as_slice(), &u64::from(jobs))?;
        Ok((
            Ring { table, jobs },
            RingSeat {
                seat,
                share: WHOLE_SHARE,
            },
        ))
    }

    /// Swaps the word of a job with 1, and says whether the job was free.
    pub(crate) fn take(&self, seat: &mut RingSeat, job: u32) -> bool
        requires own { IsSeatOf self.now seat.old }
        requires job { job < self.now.jobs }
        ensures same { IsSameSeat seat.old seat.new }
        ensures view { MatchBool result (view_of seat.new ≡ after_win (view_of seat.old) job)
            (view_of seat.new ≡ after_miss (view_of seat.old) job) }
    {
        self.table
            .shared
            .swap::<Take>(&mut seat.seat, job as usize, 1)
            == 0
    }

    /// Another seat, which gets half of the share.
    pub(crate) fn split(&self, seat: &mut RingSeat) -> RingSeat
        requires own { IsSeatOf self.now seat.old }
        requires share { 2 ≤ (view_of seat.old).share }
        ensures same { IsSameSeat seat.old seat.new × IsSeatOf self.now result }
        ensures kept { view_of seat.new ≡ kept_half (view_of seat.old) }
        ensures given { view_of result ≡ given_half (view_of seat.old) }
    {
        let other = self.table.shared.split_seat::<Halve>(&mut seat.seat);
        let half = seat.share / 2;
        seat.share -= half;
        RingSeat {
            seat: other,
            share: half,
        }
    }

    /// Takes in another seat's share and what it knows.
    pub(crate) fn join(&self, seat: &mut RingSeat, other: RingSeat)
        requires { IsSeatOf self.now seat.old × IsSeatOf self.now other }
        ensures same { IsSameSeat seat.old seat.new }
        ensures view { view_of seat.new ≡ after_join (view_of seat.old) (view_of other) }
    {
        let RingSeat {
            seat: joined,
            share,
        } = other;
        self.table.shared.join_seat::<Unite>(&mut seat.seat, joined);
        // This load shows that the shares add up to the whole at most.
        self.table.shared.load::<Share>(&mut seat.seat, 0);
        seat.share += share;
    }

    /// The end, once all seats are joined.
    pub(crate) fn end(self, seat: RingSeat)
        requires own { IsSeatOf self seat }
        requires share { (view_of seat).share ≡ WHOLE_SHARE }
        ensures { IsWholeRing (view_of seat) }
    {
        let Ring { table, jobs: _ } = self;
        let RingSeat { seat, share: _ } = seat;
        table.close_with(seat).free();
    }
}
