// One worker: its own counts, log and seats, and the jobs that its hand is given.
ghost use Rattle.std.specs.Prelude.{◌≡◌, ◌<◌, ◌≤◌, [], IfErr, IfOk};
ghost use Rattle.fapp_model.specs.search.Jobs.{job_count};
ghost use Rattle.search_log.specs.Segments.{IsGoodLog};
ghost use Rattle.search_log.specs.Shares.{known};
ghost use Rattle.settle_laws.specs.Worlds.{IsLeastOffered};
ghost use Rattle.best_word.specs.Seats.{view_of};
ghost use Rattle.nogood_pool.specs.Seats.{view_of as pool_view};
ghost use Rattle.pool_rows.specs.PoolRows.{AreLater, state_of_rows};
ghost use Rattle.steal_ring.specs.Hands.{won_of, IsHandOf, IsSameHand};
ghost use Rattle.fapp_workers.specs.SharedBounds.{IsLater};
ghost use Rattle.fapp_workers.specs.States.{state_of};
ghost use Rattle.fapp_workers.specs.Jobs.{AreDecided, held};
ghost use Rattle.fapp_workers.specs.Rows.{IsOffersClause, IsRowsClause};
ghost use Rattle.fapp_workers.specs.Works.{IsBoundClause, IsCutShort, IsHandClause, IsLogClause};

use crate::bound::SharedBound;
use crate::job::{Done, decide};
use arc_levels::ArcTable;
use fapp_gate::Gate;
use fapp_model::NoMemory;
use fapp_plan::Plan;
use fapp_tables::Tables;
use forward_count::Forward;
use pool_rows::PoolRows;
use search_log::{Log, Shared};
use std::alloc::Global;
use steal_ring::{Hand, Ring};

/// Asks the hand for jobs until none is left, and decides each of them, over any shared rows. After
/// `NoMemory` the hand, the bound, the rows and the log keep what was done until then.
pub(crate) fn decide_all<H: Shared, G: Gate>(
    alloc: Global,
    tables: &Tables,
    arcs: &ArcTable,
    plan: &Plan,
    fuel: u64,
    ring: &Ring,
    hand: &mut Hand,
    bound: &mut SharedBound,
    shared: &mut H,
    log: &mut Log,
    gate: &G,
) -> Result<Vec<Done>, NoMemory>
    requires arcs { arcs.now ≡ tables.now }
    requires plan { plan.now.instance ≡ tables.now }
    requires hand { IsHandOf ring.now hand.old }
    requires jobs { ring.now.jobs ≡ job_count plan.now.instance plan.now.split }
    requires serves { H.serves shared.old plan.now.instance }
    requires good { IsGoodLog plan.now.instance (known (H.state shared.old)) log.old.lines
        log.old.segments }
    requires least { IsLeastOffered log.old.best (state_of bound.old).least }
    ensures hand { IsHandOf ring.now hand.new × IsSameHand hand.old hand.new }
    ensures later { IsLater bound.old.seat bound.new.seat }
    ensures shared { (was : H) → H.since was shared.old → H.since was shared.new }
    ensures serves { H.serves shared.new plan.now.instance }
    ensures jobs { IfOk result (λ done. IsHandClause hand.old hand.new done.items) }
    ensures bound { IfOk result (λ done. IsBoundClause (view_of bound.old.seat).found
        (view_of bound.new.seat).found done.items) }
    ensures short { IfErr result (λ _. IsCutShort plan.now fuel (won_of hand.old) (won_of hand.new)
        (held (state_of bound.old) (H.state shared.old) log.old)
        (held (state_of bound.new) (H.state shared.new) log.new)) }
    ensures decided { IfOk result (λ done.
        AreDecided plan.now fuel (held (state_of bound.old) (H.state shared.old) log.old) done.items
        (held (state_of bound.new) (H.state shared.new) log.new)) }
    ensures log { IfOk result (λ done. IsLogClause plan.now fuel
        (held (state_of bound.old) (H.state shared.old) log.old)
        (held (state_of bound.new) (H.state shared.new) log.new) done.items) }
{
    let mut forward = Forward::new(alloc, tables, arcs)?;
    let mut done = Vec::new(alloc);
    while let Some(id) = ring.next(hand) {
        gate.enter(id);
        let decided = decide(alloc, plan, id, fuel, &mut forward, bound, shared, log);
        gate.leave(id);
        done.push(decided?)?;
    }
    Ok(done)
}

/// One worker: it asks its hand for jobs until none is left, and decides each of them. It reads the
/// shared least cost as each job begins, looks up the rows of the pool, and offers it the lines
/// that refute its jobs. There is one `Done` a job, in the order in which the hand was given them.
/// After `NoMemory` the hand, the bound, the rows and the log keep what was done until then, and
/// the job that was given up leaves what its search leaves.
pub fn work<G: Gate>(
    alloc: Global,
    tables: &Tables,
    arcs: &ArcTable,
    plan: &Plan,
    fuel: u64,
    ring: &Ring,
    hand: &mut Hand,
    bound: &mut SharedBound,
    rows: &mut PoolRows,
    log: &mut Log,
    gate: &G,
) -> Result<Vec<Done>, NoMemory>
    requires arcs { arcs.now ≡ tables.now }
    requires plan { plan.now.instance ≡ tables.now }
    requires hand { IsHandOf ring.now hand.old }
    requires ring { ring.now.jobs ≡ job_count plan.now.instance plan.now.split }
    requires serves { (pool_view rows.old.seat).instance ≡ plan.now.instance }
    requires good { IsGoodLog plan.now.instance (known (state_of_rows rows.old)) log.old.lines
        log.old.segments }
    requires least { IsLeastOffered log.old.best (state_of bound.old).least }
    ensures hand { IsHandOf ring.now hand.new × IsSameHand hand.old hand.new }
    ensures later { IsLater bound.old.seat bound.new.seat }
    ensures same_rows { AreLater rows.old rows.new }
    ensures jobs { IfOk result (λ done. IsHandClause hand.old hand.new done.items) }
    ensures bound { IfOk result (λ done. IsBoundClause (view_of bound.old.seat).found
        (view_of bound.new.seat).found done.items) }
    ensures short { IfErr result (λ _. IsCutShort plan.now fuel (won_of hand.old) (won_of hand.new)
        (held (state_of bound.old) (state_of_rows rows.old) log.old)
        (held (state_of bound.new) (state_of_rows rows.new) log.new)) }
    ensures decided { IfOk result (λ done.
        AreDecided plan.now fuel (held (state_of bound.old) (state_of_rows rows.old) log.old)
        done.items
        (held (state_of bound.new) (state_of_rows rows.new) log.new)) }
    ensures log { IfOk result (λ done. IsLogClause plan.now fuel
        (held (state_of bound.old) (state_of_rows rows.old) log.old)
        (held (state_of bound.new) (state_of_rows rows.new) log.new) done.items) }
    ensures rows { IfOk result (λ done. IsRowsClause plan.now
        (held (state_of bound.old) (state_of_rows rows.old) log.old)
        (held (state_of bound.new) (state_of_rows rows.new) log.new) done.items) }
    ensures offers { IfOk result (λ done.
        IsOffersClause (held (state_of bound.old) (state_of_rows rows.old) log.old)
        (held (state_of bound.new) (state_of_rows rows.new) log.new) done.items) }
{
    decide_all(
        alloc, tables, arcs, plan, fuel, ring, hand, bound, rows, log, gate,
    )
}
