// What became of all jobs, by their numbers.
ghost use Rattle.std.specs.Prelude.{◌≡◌, ℕ, ◌<◌, ◌≤◌, ◌^◌, ◌++◌, All, IfOk, OnOk, length, map};
ghost use Rattle.fapp_model.specs.search.Jobs.{job_count};
ghost use Rattle.steal_ring.specs.Jobs.{times};
ghost use Rattle.fapp_workers.specs.Puts.{ArePut, puts_from, put_at, put_ids};
ghost use Rattle.fapp_workers.specs.Solved.{works_logs};

use crate::closing::Work;
use crate::job::Done;
use fapp_model::NoMemory;
use fapp_plan::{Collected, Plan};
use search_log::Log;
use std::alloc::Global;

/// What became of a job, with the place of its worker.
#[derive(Clone, Copy, Debug, PartialEq, Eq)]
pub(crate) struct Put {
    pub place: u32,
    pub done: Done,
}

/// The jobs of one worker, behind those of others.
fn add_all(puts: &mut Vec<Put>, place: u32, done: &[Done]) -> Result<(), NoMemory>
    ensures { OnOk result (puts.new.items ≡ puts.old.items ++ map (put_at place) done.now) }
{
    for one in done {
        puts.push(Put { place, done: *one })?;
    }
    Ok(())
}

/// The jobs of all workers, each with the place of its worker.
pub(crate) fn puts_of(alloc: Global, works: &[Work]) -> Result<Vec<Put>, NoMemory>
    requires { length works.now < 2 ^ 32 }
    ensures { IfOk result (λ puts. puts.items ≡ puts_from 0 works.now) }
{
    let mut puts = Vec::new(alloc);
    for place in 0..works.len() {
        add_all(&mut puts, place as u32, works[place].done.as_slice())?;
    }
    Ok(puts)
}

/// The outcome and the ticks of each job.
pub(crate) fn collect(
    alloc: Global,
    plan: &Plan,
    puts: &[Put],
) -> Result<(Collected, Vec<u64>), NoMemory>
    requires inside { All (λ put. put.done.id < job_count plan.now.instance plan.now.split)
        puts.now }
    requires once { (job : ℕ) → times job (put_ids puts.now) ≤ 1 }
    ensures { IfOk result (λ made. ArePut (job_count plan.now.instance plan.now.split) puts.now
        made.0 made.1.items) }
{
    let mut collected = Collected::new(alloc, plan)?;
    let mut ticks = vec![in alloc; 0u64; plan.job_count() as usize]?;
    for k in 0..puts.len() {
        let put = puts[k];
        collected.put(put.done.id, put.place, put.done.outcome);
        ticks[put.done.id as usize] = put.done.ticks;
    }
    Ok((collected, ticks))
}

/// The logs of the workers, in order.
pub(crate) fn logs_of(alloc: Global, works: Vec<Work>) -> Result<Vec<Log>, NoMemory>
    ensures { IfOk result (λ logs. logs.items ≡ works_logs works.items) }
{
    let mut logs = Vec::with_capacity(alloc, works.len())?;
    for work in works {
        logs.push(work.log)?;
    }
    Ok(logs)
}
