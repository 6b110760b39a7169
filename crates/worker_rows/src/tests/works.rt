ghost use Rattle.std.specs.Prelude.{◌≡◌, ◌≤◌, [], length};
ghost use Rattle.fapp_model.specs.search.Jobs.{job_count};
ghost use Rattle.best_word.specs.Seats.{view_of, IsSeatOf};
ghost use Rattle.nogood_pool.specs.Seats.{view_of as pool_view, IsSeatOf as IsPoolSeatOf};
ghost use Rattle.steal_ring.specs.Hands.{IsHandOf};

use super::{CLASH, EDGE, read};
use arc_levels::ArcTable;
use best_word::{BestSeat, BestWord};
use fapp_gate::OpenGate;
use fapp_model::{NoMemory, Triple, levels, triple_of};
use fapp_plan::Plan;
use fapp_tables::Tables;
use fapp_workers::{Done, PoolRows, SharedBound, work};
use nogood_pool::{Pool, PoolSeat};
use search_log::{Log, Outcome, Ref};
use std::alloc::Global;
use std::test::Fail;
use steal_ring::{Hand, Ring};

const FREE: Triple = Triple { k: 0, v: 0, s: 0 };

// One worker with a pool: its first job publishes a row without literals, which settles all others.
#[test]
fn later_jobs_are_refuted_by_the_first_ones_row(rt: HostRuntime) -> Result<(), Fail> {
    assert!(rt; CLASH.len() <= 1000);
    let instance = read(rt.alloc(), CLASH)?;
    let tables = Tables::new(rt.alloc(), &instance)?;
    let arcs = ArcTable::build(rt.alloc(), &tables)?;
    let plan = Plan::new(rt.alloc(), &tables, 1)?;
    let (ring, mut hands) = Ring::new(rt.alloc(), plan.job_count(), 1)?;
    let (word, seat) = BestWord::new(rt.alloc(), levels(plan.instance()))?;
    let (pool, pool_seat) = Pool::new(rt.alloc(), 4096, plan.instance())?;
    let Some(mut hand) = hands.pop() else {
        panic!(rt; "a worker has a hand");
    };
    let mut bound = SharedBound::new(&word, seat);
    let Ok(mut rows) = PoolRows::new(rt.alloc(), &pool, pool_seat) else {
        panic!(rt; "memory is there");
    };
    let mut log = Log::new(rt.alloc());
    let done = work(
        rt.alloc(),
        &tables,
        &arcs,
        &plan,
        1003,
        &ring,
        &mut hand,
        &mut bound,
        &mut rows,
        &mut log,
        &OpenGate,
    )?;
    assert_eq!(rt; done.len(), 12);
    for (job, id) in done.as_slice().iter().zip(0u32..) {
        assert_eq!(rt; job.id, id);
        assert_eq!(rt; triple_of(job.start), Triple { k: 12, v: 0, s: 0 });
        let Outcome::Refuted { line, tag } = job.outcome else {
            panic!(rt; "each job is refuted");
        };
        if id == 0 {
            assert!(rt; job.ticks > 0 && job.segments == 0);
            assert_eq!(rt; triple_of(tag), Triple { k: 12, v: 0, s: 0 });
        } else {
            assert!(rt; job.ticks == 0 && job.segments > 0 && matches!(line, Ref::Row(_)));
            assert_eq!(rt;
                triple_of(tag),
                Triple {
                    k: 12u32.saturating_sub(id),
                    v: 0,
                    s: 0
                }
            );
        }
    }
    Ok(())
}

/// What one worker makes of the jobs that it is given.
fn jobs_of(
    alloc: Global,
    tables: &Tables,
    arcs: &ArcTable,
    plan: &Plan,
    ring: &Ring,
    mut hand: Hand,
    word: &BestWord,
    seat: BestSeat,
    pool: &Pool,
    pool_seat: PoolSeat,
) -> Result<Vec<Done>, NoMemory>
    requires arcs { arcs.now ≡ tables.now }
    requires plan { plan.now.instance ≡ tables.now }
    requires jobs { ring.now.jobs ≡ job_count plan.now.instance plan.now.split }
    requires hand { IsHandOf ring.now hand }
    requires own { IsSeatOf word.now seat }
    requires offers { (view_of seat).offers ≡ [] }
    requires pool_own { IsPoolSeatOf pool.now pool_seat }
    requires serves { (pool_view pool_seat).instance ≡ plan.now.instance }
    requires published { (pool_view pool_seat).published ≡ [] }
{
    let mut bound = SharedBound::new(word, seat);
    let Ok(mut rows) = PoolRows::new(alloc, pool, pool_seat) else {
        return Err(NoMemory);
    };
    let mut log = Log::new(alloc);
    work(
        alloc, tables, arcs, plan, 1002, ring, &mut hand, &mut bound, &mut rows, &mut log,
        &OpenGate,
    )
}

/// What two workers make of their jobs, where the second begins when the first has ended.
fn one_after_another(alloc: Global, text: &str) -> Result<(Vec<Done>, Vec<Done>), Fail>
    requires { length text.now ≤ 1000 }
{
    let instance = read(alloc, text)?;
    let tables = Tables::new(alloc, &instance)?;
    let arcs = ArcTable::build(alloc, &tables)?;
    let plan = Plan::new(alloc, &tables, 1)?;
    let (ring, mut hands) = Ring::new(alloc, plan.job_count(), 2)?;
    let (word, mut seat) = BestWord::new(alloc, levels(plan.instance()))?;
    let (pool, mut pool_seat) = Pool::new(alloc, 0, plan.instance())?;
    let other_seat = word.split(&mut seat);
    let other_pool_seat = pool.split(&mut pool_seat);
    let (Some(second), Some(first)) = (hands.pop(), hands.pop()) else {
        return Err("two workers have two hands".into());
    };
    let of_first = jobs_of(
        alloc, &tables, &arcs, &plan, &ring, first, &word, seat, &pool, pool_seat,
    )?;
    let of_second = jobs_of(
        alloc,
        &tables,
        &arcs,
        &plan,
        &ring,
        second,
        &word,
        other_seat,
        &pool,
        other_pool_seat,
    )?;
    Ok((of_first, of_second))
}

// The first takes its own jobs and then those of its neighbour, which is left none.
#[test]
fn the_first_of_two_workers_takes_all_jobs(rt: HostRuntime) -> Result<(), Fail> {
    assert!(rt; EDGE.len() <= 1000);
    let (jobs, left) = one_after_another(rt.alloc(), EDGE)?;
    assert!(rt; left.is_empty());
    let wanted = [0, 2, 4, 6, 8, 10, 1, 3, 5, 7, 9, 11];
    assert_eq!(rt; jobs.len(), wanted.len());
    for (job, id) in jobs.as_slice().iter().zip(wanted.iter()) {
        assert_eq!(rt; job.id, *id);
        if *id == 0 {
            assert!(rt; job.ticks > 0);
        } else {
            assert_eq!(rt; triple_of(job.start), FREE);
            assert_eq!(rt; job.outcome, Outcome::Moot { seen: job.start });
            assert_eq!(rt; job.ticks, 0);
        }
    }
    Ok(())
}
