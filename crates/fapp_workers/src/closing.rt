// What is known once all places came back.
ghost use Rattle.std.specs.Prelude.{◌≡◌, ◌+◌, ◌<◌, All, IfOk, length, map};
ghost use Rattle.seat_laws.specs.declared.TheConstants.{WHOLE_SHARE};
ghost use Rattle.best_word.specs.Seats.{shares_of as seat_shares, IsSeatOf};
ghost use Rattle.nogood_pool.specs.Dealt.{shares_of as pool_shares};
ghost use Rattle.nogood_pool.specs.Seats.{view_of as pool_view, IsSeatOf as IsPoolSeatOf};
ghost use Rattle.steal_ring.specs.Hands.{shares_of, IsDealt, IsHandOf};
ghost use Rattle.fapp_workers.specs.WorkerPlaces.{IsFinished, hands_of, pool_seats_of, seats_of};
ghost use Rattle.fapp_workers.specs.Closings.{kept_by, kept_of, IsClosedRun};

use crate::job::Done;
use crate::place::Place;
use best_word::{BestSeat, BestWord};
use fapp_model::{NoMemory, Tag};
use nogood_pool::{Pool, PoolSeat};
use search_log::Log;
use std::alloc::Global;
use steal_ring::{Hand, Ring};

/// What a worker has done: its log, and its jobs in the order in which it was given them.
#[derive(Drop)]
pub(crate) struct Work {
    pub log: Log,
    pub done: Vec<Done>,
}

/// The hands, the seats, and what the workers have done, in order.
#[derive(Drop)]
struct Parts {
    hands: Vec<Hand>,
    seats: Vec<BestSeat>,
    pool_seats: Vec<PoolSeat>,
    works: Vec<Work>,
}

/// Takes the places apart. The first that found no memory ends it.
fn take_apart(alloc: Global, places: Vec<Place>) -> Result<Parts, NoMemory>
    ensures hands { IfOk result (λ parts. parts.hands.items ≡ hands_of places.items) }
    ensures seats { IfOk result (λ parts. parts.seats.items ≡ seats_of places.items) }
    ensures pool_seats { IfOk result (λ parts.
        parts.pool_seats.items ≡ pool_seats_of places.items) }
    ensures works { IfOk result (λ parts.
        map kept_by parts.works.items ≡ map kept_of places.items) }
{
    let mut hands = Vec::with_capacity(alloc, places.len())?;
    let mut seats = Vec::with_capacity(alloc, places.len())?;
    let mut pool_seats = Vec::with_capacity(alloc, places.len())?;
    let mut works = Vec::with_capacity(alloc, places.len())?;
    for place in places {
        let Place {
            hand,
            seat,
            pool_seat,
            log,
            done,
        } = place;
        hands.push(hand)?;
        seats.push(seat)?;
        pool_seats.push(pool_seat)?;
        works.push(Work { log, done: done? })?;
    }
    Ok(Parts {
        hands,
        seats,
        pool_seats,
        works,
    })
}

/// What the workers have done, and the least cost that one of them offered. The first that found no
/// memory ends it.
pub(crate) fn close(
    alloc: Global,
    ring: Ring,
    word: BestWord,
    pool: Pool,
    first: PoolSeat,
    places: Vec<Place>,
) -> Result<(Vec<Work>, Tag), NoMemory>
    requires some { 0 < length places.items }
    requires hands { All (λ place. IsHandOf ring place.hand) places.items }
    requires seats { All (λ place. IsSeatOf word place.seat) places.items }
    requires pool_seats { IsPoolSeatOf pool first
        × All (λ place. IsPoolSeatOf pool place.pool_seat) places.items }
    requires dealt { IsDealt ring.jobs (hands_of places.items) }
    requires hand_shares { shares_of (hands_of places.items) ≡ WHOLE_SHARE }
    requires seat_shares { seat_shares (seats_of places.items) ≡ WHOLE_SHARE }
    requires pool_shares { (pool_view first).share + pool_shares (pool_seats_of places.items)
        ≡ WHOLE_SHARE }
    requires finished { All IsFinished places.items }
    ensures { IfOk result (λ closed. IsClosedRun ring.jobs (pool_view first) places.items
        closed.0.items closed.1.code) }
{
    let parts = take_apart(alloc, places)?;
    ring.close(parts.hands);
    pool.close_seats(first, parts.pool_seats);
    Ok((parts.works, word.close_seats(parts.seats)))
}
