// One job of a worker: the bound is read, and where it leaves something to find the job is
// searched.
ghost use Rattle.std.specs.Prelude.{◌≡◌, ◌<◌, ◌≤◌, [], ◌∷◌, IfErr, IfOk};
ghost use Rattle.fapp_model.specs.search.Jobs.{job_count, job_level, job_prefix};
ghost use Rattle.best_word.specs.Seats.{view_of};
ghost use Rattle.fapp_workers.specs.SharedBounds.{FindsFirst, IsLater};
ghost use Rattle.fapp_workers.specs.States.{state_of};
ghost use Rattle.fapp_workers.specs.Jobs.{Decides, IsGivenUp, IsLacking, IsSearched, held};

use crate::bound::SharedBound;
use fapp_model::{NoMemory, Tag, Triple, tag_of};
use fapp_plan::Plan;
use forward_count::Forward;
use search_log::{Bound, Fuel, Job, Log, Outcome, Shared};
use std::alloc::Global;
use subtree_search::settle;

/// What became of a job: the bound that was read as it began, how many segments the log had then,
/// and its ticks.
#[derive(Clone, Copy, Debug, PartialEq, Eq)]
pub struct Done {
    pub id: u32,
    pub start: Tag,
    pub segments: u32,
    pub ticks: u64,
    pub outcome: Outcome,
}

/// How a search ended, and its ticks.
#[derive(Clone, Copy, Debug, PartialEq, Eq)]
struct Ended {
    outcome: Outcome,
    ticks: u64,
}

/// The search of one job.
fn search<B: Bound, H: Shared>(
    alloc: Global,
    plan: &Plan,
    id: u32,
    job: &Job,
    amount: u64,
    forward: &mut Forward,
    bound: &mut B,
    shared: &mut H,
    log: &mut Log,
) -> Result<Ended, NoMemory>
    requires plan { plan.now.instance ≡ forward.old.instance }
    requires empty { forward.old.pushed ≡ [] }
    requires id { id < job_count plan.now.instance plan.now.split }
    requires job { (job.now.level ≡ job_level plan.now.instance id)
        × (job.now.prefix ≡ job_prefix plan.now.instance plan.now.split id) }
    requires serves { H.serves shared.old plan.now.instance }
    ensures bound { (was : B) → B.since was bound.old → B.since was bound.new }
    ensures shared { (was : H) → H.since was shared.old → H.since was shared.new }
    ensures serves { H.serves shared.new plan.now.instance }
    ensures instance { forward.new.instance ≡ forward.old.instance }
    ensures empty { forward.new.pushed ≡ [] }
    ensures lack { IfErr result (λ _. IsLacking plan.now amount id (B.state bound.old)
        (held (B.state bound.old) (H.state shared.old) log.old)
        (held (B.state bound.new) (H.state shared.new) log.new)) }
    ensures searched { IfOk result (λ ended.
        IsSearched plan.now amount id (B.state bound.old)
        (held (B.state bound.old) (H.state shared.old) log.old)
        (held (B.state bound.new) (H.state shared.new) log.new) ended.outcome ended.ticks) }
{
    let mut fuel = Fuel::new(amount);
    let outcome = settle(alloc, job, forward, &mut fuel, bound, shared, log)?;
    Ok(Ended {
        outcome,
        ticks: amount - fuel.left(),
    })
}

/// One job: the bound is read, and where it leaves something to find the job is searched.
pub(crate) fn decide<H: Shared>(
    alloc: Global,
    plan: &Plan,
    id: u32,
    amount: u64,
    forward: &mut Forward,
    bound: &mut SharedBound,
    shared: &mut H,
    log: &mut Log,
) -> Result<Done, NoMemory>
    requires plan { plan.now.instance ≡ forward.old.instance }
    requires empty { forward.old.pushed ≡ [] }
    requires id { id < job_count plan.now.instance plan.now.split }
    requires serves { H.serves shared.old plan.now.instance }
    ensures later { IsLater bound.old.seat bound.new.seat }
    ensures shared { (was : H) → H.since was shared.old → H.since was shared.new }
    ensures serves { H.serves shared.new plan.now.instance }
    ensures instance { forward.new.instance ≡ forward.old.instance }
    ensures empty { forward.new.pushed ≡ [] }
    ensures id { IfOk result (λ done. done.id ≡ id) }
    ensures first { IfOk result (λ done. FindsFirst (view_of bound.old.seat).found
        (view_of bound.new.seat).found done.start.code) }
    ensures lack { IfErr result (λ _. IsGivenUp plan.now amount (id ∷ [])
        (held (state_of bound.old) (H.state shared.old) log.old)
        (held (state_of bound.new) (H.state shared.new) log.new)) }
    ensures decides { IfOk result (Decides plan.now amount
        (held (state_of bound.old) (H.state shared.old) log.old)
        (held (state_of bound.new) (H.state shared.new) log.new)) }
{
    let job = plan.job(alloc, id)?;
    let segments = log.segments().len() as u32;
    let start = bound.now();
    let level = tag_of(Triple {
        k: job.level,
        v: 0,
        s: 0,
    });
    if start.code <= level.code {
        return Ok(Done {
            id,
            start,
            segments,
            ticks: 0,
            outcome: Outcome::Moot { seen: start },
        });
    }
    let ended = search(alloc, plan, id, &job, amount, forward, bound, shared, log)?;
    Ok(Done {
        id,
        start,
        segments,
        ticks: ended.ticks,
        outcome: ended.outcome,
    })
}
