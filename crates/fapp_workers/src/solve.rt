// The workers side by side.
ghost use Rattle.std.specs.Prelude.{◌≡◌, ◌≤◌, IfOk, IfSome, length};
ghost use Rattle.std.specs.Option.{ForSome};
ghost use Rattle.fapp_model.specs.Least.{IsFeasible};
ghost use Rattle.fapp_workers.specs.Begun.{IsStartUsed};
ghost use Rattle.search_log.specs.NumberedRows.{numbered_rows};
ghost use Rattle.fapp_workers.specs.Collections.{IsGatheredRun, IsGatheredOver, IsPutByWorkers};
ghost use Rattle.fapp_workers.specs.FirstRows.{ArePublishable, AreTwins};
ghost use Rattle.fapp_workers.specs.Ranges.{AreInRange};
ghost use Rattle.fapp_workers.specs.Solved.{AreSolved, works_logs};

use crate::closing::{Work, close};
use crate::dealing::{Dealt, deal};
use crate::gather::{collect, logs_of, puts_of};
use crate::place::tend_all;
use crate::settings::Settings;
use arc_levels::ArcTable;
use fapp_gate::Gate;
use fapp_model::{NoMemory, Tag};
use fapp_plan::{Collected, Plan};
use fapp_tables::Tables;
use nogood::Row;
use search_log::Log;
use std::alloc::Global;
use std::thread::Threads;

/// What all workers found: their logs, what became of each job, the least cost that a log keeps, or
/// the top tag where none keeps one, and how many ticks each job took.
#[derive(Drop)]
pub struct Gathered {
    pub logs: Vec<Log>,
    pub collected: Collected,
    pub word: Tag,
    pub ticks: Vec<u64>,
}

/// What all workers do, the least cost that one of them offered, and the placed rows.
fn solve_all<R: Threads + Sync, G: Gate>(
    rt: &R,
    alloc: Global,
    tables: &Tables,
    arcs: &ArcTable,
    plan: &Plan,
    settings: &Settings,
    first_rows: &[Row],
    start: Option<&[u16]>,
    gate: &G,
) -> Result<(Vec<Work>, Tag, Vec<(u32, u32)>), NoMemory>
    requires arcs { arcs.now ≡ tables.now }
    requires plan { plan.now.instance ≡ tables.now }
    requires settings { AreInRange settings.now }
    requires room { length first_rows.now ≤ settings.now.pool }
    requires first { ArePublishable plan.now.instance first_rows.now }
    requires start { ForSome start (λ s. IsFeasible plan.now.instance s.now) }
    ensures solved { IfOk result (λ solved.
        AreSolved plan.now settings.now.fuel settings.now.workers (numbered_rows first_rows.now)
        solved.0.items solved.1.code) }
    ensures placed { IfOk result (λ solved. AreTwins (length first_rows.now) solved.2.items) }
    ensures started { IfOk result (λ solved.
        IfSome start.entry (λ s. IsStartUsed plan.now.instance s.now (works_logs solved.0.items)
        solved.1.code)) }
{
    let _valid = plan.instance();
    let Dealt {
        ring,
        word,
        pool,
        first,
        placed,
        places,
    } = deal(
        alloc,
        plan,
        settings.workers,
        settings.pool,
        first_rows,
        start,
    )?;
    let places = tend_all(
        rt,
        alloc,
        tables,
        arcs,
        plan,
        settings.fuel,
        &ring,
        &word,
        &pool,
        places,
        gate,
    )?;
    let (works, least) = close(alloc, ring, word, pool, first, places)?;
    Ok((works, least, placed))
}

/// The same as `solve_jobs`, where some rows stand in the pool from the start. They are published
/// before the workers begin, in order; the second answer pairs the number of each of them in the
/// pool with its place. An assignment to begin with is kept in the first log and offered at its
/// cost.
pub fn solve_rows<R: Threads + Sync, G: Gate>(
    rt: &R,
    alloc: Global,
    tables: &Tables,
    arcs: &ArcTable,
    plan: &Plan,
    settings: &Settings,
    first_rows: &[Row],
    start: Option<&[u16]>,
    gate: &G,
) -> Result<(Gathered, Vec<(u32, u32)>), NoMemory>
    requires arcs { arcs.now ≡ tables.now }
    requires plan { plan.now.instance ≡ tables.now }
    requires settings { AreInRange settings.now }
    requires room { length first_rows.now ≤ settings.now.pool }
    requires first { ArePublishable plan.now.instance first_rows.now }
    requires start { ForSome start (λ s. IsFeasible plan.now.instance s.now) }
    ensures gathered { IfOk result (λ all.
        IsGatheredOver plan.now settings.now.fuel (numbered_rows first_rows.now) all.0) }
    ensures put { IfOk result (λ all. IsPutByWorkers plan.now settings.now.workers settings.now.fuel
        all.0) }
    ensures placed { IfOk result (λ all. AreTwins (length first_rows.now) all.1.items) }
    ensures started { IfOk result (λ all.
        IfSome start.entry (λ s. IsStartUsed plan.now.instance s.now all.0.logs.items
        all.0.word.code)) }
{
    let (works, word, placed) = solve_all(
        rt, alloc, tables, arcs, plan, settings, first_rows, start, gate,
    )?;
    let puts = puts_of(alloc, &works)?;
    let (collected, ticks) = collect(alloc, plan, &puts)?;
    let logs = logs_of(alloc, works)?;
    let gathered = Gathered {
        logs,
        collected,
        word,
        ticks,
    };
    Ok((gathered, placed))
}

/// Settles all jobs of a plan by workers side by side, which share the least cost and their refuted
/// lines, and take jobs from one another. `NoMemory` comes where a worker or the collection found
/// no memory.
pub fn solve_jobs<R: Threads + Sync, G: Gate>(
    rt: &R,
    alloc: Global,
    tables: &Tables,
    arcs: &ArcTable,
    plan: &Plan,
    settings: &Settings,
    gate: &G,
) -> Result<Gathered, NoMemory>
    requires arcs { arcs.now ≡ tables.now }
    requires plan { plan.now.instance ≡ tables.now }
    requires settings { AreInRange settings.now }
    ensures gathered { IfOk result (IsGatheredRun plan.now settings.now.fuel) }
    ensures put { IfOk result (IsPutByWorkers plan.now settings.now.workers settings.now.fuel) }
{
    let (gathered, _) = solve_rows(rt, alloc, tables, arcs, plan, settings, &[], None, gate)?;
    Ok(gathered)
}
