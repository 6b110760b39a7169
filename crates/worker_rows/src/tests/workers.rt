ghost use Rattle.std.specs.Prelude.{◌≤◌, length};
ghost use Rattle.fapp_workers.specs.Ranges.{AreInRange};

use super::counting::CountingGate;
use super::{CLASH, EDGE, SINGLE, read};
use arc_levels::ArcTable;
use fapp_gate::{Gate, HoldGate, OpenGate, OrderGate};
use fapp_model::{Triple, triple_of};
use fapp_plan::{Collected, Plan};
use fapp_tables::Tables;
use fapp_workers::{Settings, solve_jobs};
use search_log::Log;
use std::alloc::Global;
use std::test::Fail;
use std::thread::Threads;
use worked_networks::SMALL;

const FREE: Triple = Triple { k: 0, v: 0, s: 0 };

/// Whether each of the first jobs has an outcome.
fn have_ended(collected: &Collected, jobs: u32) -> bool
    requires { jobs ≤ length collected.now }
{
    for id in 0..jobs {
        if collected.get(id).is_none() {
            return false;
        }
    }
    true
}

/// How many segments some logs have, each for a row that was published.
fn segments_in(logs: &[Log]) -> usize {
    let mut count: usize = 0;
    for log in logs {
        count = count.saturating_add(log.segments().len());
    }
    count
}

/// What workers find for a network: the word, whether each job has an outcome, the ticks of each
/// job, and how many rows they published.
#[derive(Drop)]
struct Found {
    word: Triple,
    ended: bool,
    ticks: Vec<u64>,
    published: usize,
}

fn found_by<R: Threads + Sync, G: Gate>(
    rt: &R,
    alloc: Global,
    text: &str,
    settings: &Settings,
    gate: &G,
) -> Result<Found, Fail>
    requires text { length text.now ≤ 1000 }
    requires settings { AreInRange settings.now }
{
    let instance = read(alloc, text)?;
    let tables = Tables::new(alloc, &instance)?;
    let arcs = ArcTable::build(alloc, &tables)?;
    let plan = Plan::new(alloc, &tables, settings.split)?;
    let gathered = solve_jobs(rt, alloc, &tables, &arcs, &plan, settings, gate)?;
    Ok(Found {
        word: triple_of(gathered.word),
        ended: have_ended(&gathered.collected, plan.job_count()),
        ticks: gathered.ticks,
        published: segments_in(gathered.logs.as_slice()),
    })
}

/// How many of the jobs after the first have taken ticks.
fn busy_after_first(found: &Found) -> usize {
    found
        .ticks
        .iter()
        .skip(1)
        .filter(|ticks| **ticks > 0)
        .count()
}

/// Jobs of one prefix each level, without a pool.
fn plain(workers: u32) -> Settings
    requires some { 1 ≤ workers }
    requires few { workers ≤ 32 }
    ensures { AreInRange result }
{
    Settings {
        workers,
        fuel: 1002,
        split: 1,
        pool: 0,
    }
}

#[test]
fn any_number_of_workers_finds_the_least_cost(rt: HostRuntime) -> Result<(), Fail> {
    assert!(rt; SMALL.len() <= 1000);
    for workers in [1, 2, 8] {
        let settings = Settings {
            workers,
            fuel: 1004,
            split: 64,
            pool: 0,
        };
        let found = found_by(&rt, rt.alloc(), SMALL, &settings, &OpenGate)?;
        assert_eq!(rt; found.word, Triple { k: 4, v: 1, s: 3 }, "at {workers}");
        assert!(rt; found.ended, "at {workers}");
    }
    Ok(())
}

// A gate that waits for a job that never comes is missed: so workers pass it at each job.
#[test]
fn two_workers_meet_and_steal(rt: HostRuntime) -> Result<(), Fail> {
    assert!(rt; SINGLE.len() <= 1000);
    for (other, turns, misses) in [
        (1, 200_000_000, false),
        (2, 200_000_000, false),
        (99, 1000, true),
    ] {
        let gate = HoldGate::new(0, other, turns);
        let found = found_by(&rt, rt.alloc(), SINGLE, &plain(2), &gate)?;
        assert_eq!(rt; found.word, FREE, "at {other}");
        assert_eq!(rt; gate.missed(), misses, "at {other}");
    }
    Ok(())
}

#[test]
fn each_job_is_entered_and_left_once(rt: HostRuntime) -> Result<(), Fail> {
    assert!(rt; CLASH.len() <= 1000);
    let gate = CountingGate::new();
    let found = found_by(&rt, rt.alloc(), CLASH, &plain(4), &gate)?;
    let each_once = 0x0084_2108_4210_8421;
    assert_eq!(rt; gate.counts(), (each_once, each_once));
    assert!(rt; found.ended);
    Ok(())
}

#[test]
fn the_second_worker_reads_what_the_first_offered(rt: HostRuntime) -> Result<(), Fail> {
    assert!(rt; EDGE.len() <= 1000);
    let gate = OrderGate::new(0, 1, 200_000_000);
    let found = found_by(&rt, rt.alloc(), EDGE, &plain(2), &gate)?;
    assert!(rt; !gate.missed());
    assert_eq!(rt; found.word, FREE);
    assert!(rt; found.ticks.get(0) > Some(&0));
    assert_eq!(rt; found.ticks.get(1), Some(&0));
    Ok(())
}

// The row without literals that the first job publishes settles all other jobs; without a pool each
// job takes ticks.
#[test]
fn a_published_row_settles_the_other_jobs(rt: HostRuntime) -> Result<(), Fail> {
    assert!(rt; CLASH.len() <= 1000);
    for (pool, others) in [(4096, 0), (0, 11)] {
        let settings = Settings {
            workers: 1,
            fuel: 1003,
            split: 1,
            pool,
        };
        let found = found_by(&rt, rt.alloc(), CLASH, &settings, &OpenGate)?;
        assert!(rt; found.ticks.get(0) > Some(&0), "at {pool}");
        assert_eq!(rt; busy_after_first(&found), others, "at {pool}");
    }
    Ok(())
}

// The second worker begins when the first has ended a job: the row that it published settles all
// that is left.
#[test]
fn a_row_of_one_worker_settles_the_other_workers_jobs(rt: HostRuntime) -> Result<(), Fail> {
    assert!(rt; CLASH.len() <= 1000);
    let gate = OrderGate::new(0, 1, 200_000_000);
    let settings = Settings {
        workers: 2,
        fuel: 1003,
        split: 1,
        pool: 4096,
    };
    let found = found_by(&rt, rt.alloc(), CLASH, &settings, &gate)?;
    assert!(rt; !gate.missed());
    assert!(rt; found.ticks.get(0) > Some(&0));
    assert_eq!(rt; busy_after_first(&found), 0);
    Ok(())
}

// Each of the eight assignments of three paths is refuted by a row of its own, where the pool has
// room for it.
#[test]
fn as_many_rows_are_published_as_the_pool_has(rt: HostRuntime) -> Result<(), Fail> {
    assert!(rt; CLASH.len() <= 1000);
    for (pool, published) in [(0, 0), (1, 1), (2, 2), (4096, 8)] {
        let settings = Settings {
            workers: 1,
            fuel: 1003,
            split: 64,
            pool,
        };
        let found = found_by(&rt, rt.alloc(), CLASH, &settings, &OpenGate)?;
        assert_eq!(rt; found.published, published, "at {pool}");
    }
    Ok(())
}
