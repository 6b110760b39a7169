// What each worker is given, and what all of them share.
ghost use Rattle.std.specs.Prelude.{◌≡◌, ◌+◌, ◌<◌, ◌≤◌, All, IfOk, IfSome, length, map};
ghost use Rattle.std.specs.Option.{ForSome};
ghost use Rattle.fapp_model.specs.declared.limits.TheConstants.{MAX_POOL};
ghost use Rattle.seat_laws.specs.declared.TheConstants.{WHOLE_SHARE};
ghost use Rattle.fapp_model.specs.Least.{IsFeasible};
ghost use Rattle.fapp_model.specs.Levels.{levels_of};
ghost use Rattle.best_word.specs.Seats.{shares_of as seat_shares, view_of, IsNewSeat, IsSeatOf};
ghost use Rattle.nogood_pool.specs.Dealt.{shares_of as pool_shares};
ghost use Rattle.nogood_pool.specs.Seats.{IsSeatOf as IsPoolSeatOf};
ghost use Rattle.fapp_workers.specs.Begun.{IsFresh, OffersFirst};
ghost use Rattle.fapp_workers.specs.FirstRows.{ArePublishable};
ghost use Rattle.fapp_workers.specs.WorkerPlaces.{IsUnpublished, IsSeated, hands_of, pool_seats_of, seats_of};
ghost use Rattle.fapp_workers.specs.Starts.{IsDealtOut};

use crate::first_rows::publish_first;
use crate::place::Place;
use crate::start::keep_start;
use best_word::{BestSeat, BestWord};
use fapp_model::{NoMemory, levels};
use fapp_plan::Plan;
use nogood::Row;
use nogood_pool::{Pool, PoolSeat};
use search_log::Log;
use std::alloc::Global;
use steal_ring::{Hand, Ring};

/// A ring of the plan's jobs, a word, a pool with its first seat, which no worker has, the numbers
/// of the rows that stand in it with their places, and a place for each worker.
#[derive(Drop)]
pub(crate) struct Dealt {
    pub ring: Ring,
    pub word: BestWord,
    pub pool: Pool,
    pub first: PoolSeat,
    pub placed: Vec<(u32, u32)>,
    pub places: Vec<Place>,
}

/// A place for each hand, with one of the seats of the word and one of the pool.
fn place_all(
    alloc: Global,
    plan: &Plan,
    word: &BestWord,
    pool: &Pool,
    hands: Vec<Hand>,
    seats: Vec<BestSeat>,
    pool_seats: Vec<PoolSeat>,
) -> Result<Vec<Place>, NoMemory>
    requires count { (length seats.items ≡ length hands.items)
        × (length pool_seats.items ≡ length hands.items) }
    requires own { All (IsSeatOf word.now) seats.items }
    requires new { All (λ seat. IsNewSeat (levels_of plan.now.instance) (view_of seat))
        seats.items }
    requires pool_own { All (IsPoolSeatOf pool.now) pool_seats.items }
    requires pool_new { All (IsUnpublished plan.now.instance) pool_seats.items }
    ensures hands { IfOk result (λ places. hands_of places.items ≡ hands.items) }
    ensures seated { IfOk result (λ places.
        All (IsSeated plan.now word.now pool.now) places.items) }
    ensures shares { IfOk result (λ places.
        seat_shares (seats_of places.items) ≡ seat_shares seats.items) }
    ensures pool_shares { IfOk result (λ places.
        pool_shares (pool_seats_of places.items) ≡ pool_shares pool_seats.items) }
    ensures fresh { IfOk result (λ places.
        All (IsFresh (levels_of plan.now.instance)) places.items) }
{
    let mut seats = seats;
    let mut pool_seats = pool_seats;
    let mut places = Vec::with_capacity(alloc, hands.len())?;
    for hand in hands {
        let Some(seat) = seats.pop() else {
            unreachable!()
        };
        let Some(pool_seat) = pool_seats.pop() else {
            unreachable!()
        };
        places.push(Place {
            hand,
            seat,
            pool_seat,
            log: Log::new(alloc),
            done: Ok(Vec::new(alloc)),
        })?;
    }
    Ok(places)
}

/// All that workers need to begin, with a pool of so many rows, of which the first are these.
pub(crate) fn deal(
    alloc: Global,
    plan: &Plan,
    workers: u32,
    rows: u32,
    first_rows: &[Row],
    start: Option<&[u16]>,
) -> Result<Dealt, NoMemory>
    requires workers { (0 < workers) × (workers ≤ 32) }
    requires rows { rows ≤ MAX_POOL }
    requires room { length first_rows.now ≤ rows }
    requires first { ArePublishable plan.now.instance first_rows.now }
    requires start { ForSome start (λ s. IsFeasible plan.now.instance s.now) }
    ensures dealt { IfOk result (IsDealtOut plan.now workers first_rows.now) }
    ensures started { IfOk result (λ dealt.
        IfSome start.entry (λ s. OffersFirst plan.now.instance s.now dealt.places.items)) }
{
    let (ring, hands) = Ring::new(alloc, plan.job_count(), workers)?;
    let (word, seats) = BestWord::with_seats(alloc, levels(plan.instance()), workers)?;
    let (pool, mut first) = Pool::new(alloc, rows, plan.instance())?;
    let placed = publish_first(alloc, &pool, &mut first, first_rows)?;
    let pool_seats = pool.split_seats(alloc, &mut first, workers)?;
    let fresh = place_all(alloc, plan, &word, &pool, hands, seats, pool_seats)?;
    let places = keep_start(plan, &word, &pool, fresh, start)?;
    Ok(Dealt {
        ring,
        word,
        pool,
        first,
        placed,
        places,
    })
}
