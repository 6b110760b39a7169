// What a worker owns, which goes to a thread and comes back.
ghost use Rattle.std.specs.Prelude.{◌≡◌, ℕ, ◌<◌, ◌≤◌, All, IfOk, length, slice_index_or};
ghost use Rattle.fapp_model.specs.search.Jobs.{job_count};
ghost use Rattle.fapp_workers.specs.WorkerPlaces.{IsTended, IsFreshPlace};

use crate::bound::SharedBound;
use crate::job::Done;
use crate::worker::work;
use arc_levels::ArcTable;
use best_word::{BestSeat, BestWord};
use fapp_gate::Gate;
use fapp_model::NoMemory;
use fapp_plan::Plan;
use fapp_tables::Tables;
use nogood_pool::{Pool, PoolSeat};
use pool_rows::{PoolRows, SeatBack};
use search_log::Log;
use std::alloc::Global;
use std::thread::{self, Threads};
use steal_ring::{Hand, Ring};

/// A worker's hand, its seats of the word and of the pool, its log, and the jobs that it has done.
#[derive(Drop)]
pub(crate) struct Place {
    pub hand: Hand,
    pub seat: BestSeat,
    pub pool_seat: PoolSeat,
    pub log: Log,
    pub done: Result<Vec<Done>, NoMemory>,
}

/// One worker at its place. All that it owns comes back, whatever fails.
fn tend<G: Gate>(
    alloc: Global,
    tables: &Tables,
    arcs: &ArcTable,
    plan: &Plan,
    fuel: u64,
    ring: &Ring,
    word: &BestWord,
    pool: &Pool,
    place: Place,
    gate: &G,
) -> Place
    requires arcs { arcs.now ≡ tables.now }
    requires plan { plan.now.instance ≡ tables.now }
    requires jobs { ring.now.jobs ≡ job_count plan.now.instance plan.now.split }
    requires stands { IsFreshPlace plan.now ring.now word.now pool.now place }
    ensures { IsTended plan.now fuel ring.now word.now pool.now place result }
{
    let Place {
        mut hand,
        seat,
        pool_seat,
        mut log,
        done: _,
    } = place;
    let mut rows = match PoolRows::new(alloc, pool, pool_seat) {
        Ok(rows) => rows,
        Err(SeatBack { seat: pool_seat }) => {
            return Place {
                hand,
                seat,
                pool_seat,
                log,
                done: Err(NoMemory),
            };
        }
    };
    let mut bound = SharedBound::new(word, seat);
    let done = work(
        alloc, tables, arcs, plan, fuel, ring, &mut hand, &mut bound, &mut rows, &mut log, gate,
    );
    Place {
        hand,
        seat: bound.into_seat(),
        pool_seat: rows.into_seat(),
        log,
        done,
    }
}

/// All workers at their places, side by side.
pub(crate) fn tend_all<R: Threads + Sync, G: Gate>(
    rt: &R,
    alloc: Global,
    tables: &Tables,
    arcs: &ArcTable,
    plan: &Plan,
    fuel: u64,
    ring: &Ring,
    word: &BestWord,
    pool: &Pool,
    places: Vec<Place>,
    gate: &G,
) -> Result<Vec<Place>, NoMemory>
    requires arcs { arcs.now ≡ tables.now }
    requires plan { plan.now.instance ≡ tables.now }
    requires jobs { ring.now.jobs ≡ job_count plan.now.instance plan.now.split }
    requires stand { All (IsFreshPlace plan.now ring.now word.now pool.now) places.items }
    ensures count { IfOk result (λ all. length all.items ≡ length places.items) }
    ensures each { IfOk result (λ all. (i : ℕ) (d e : _) → i < length places.items →
        IsTended plan.now fuel ring.now word.now pool.now (slice_index_or places.items i d)
        (slice_index_or all.items i e)) }
{
    thread::map_vec(
        rt,
        places,
        &|place: Place| -> Place
            requires { (arcs.now ≡ tables.now) × (plan.now.instance ≡ tables.now)
                × (ring.now.jobs ≡ job_count plan.now.instance plan.now.split)
                × IsFreshPlace plan.now ring.now word.now pool.now place }
            ensures { IsTended plan.entry.now fuel ring.entry.now word.entry.now pool.entry.now
                place result }
        {
            tend(
                alloc, tables, arcs, plan, fuel, ring, word, pool, place, gate,
            )
        },
    )
}
