//! The whole check.

ghost use Rattle.std.specs.Prelude.{◌≡◌, ◌≤◌, IfOk, length};
ghost use Rattle.fapp_model.specs.Instances.{IsInstance};
ghost use Rattle.cert_lines.specs.WellFormed.{IsWellFormed};
ghost use Rattle.cert_lines.specs.acceptance.Accepts.{answer_fault};
ghost use Rattle.cert_check.specs.Checked.{IsChecked};

use crate::rounds::lines_fault;
use cert_check::{CheckError, Marks, judge_plan, root_fault};
use cert_lines::{Answer, Rejected};
use fapp_model::{Instance, MAX_NUMBER, NoMemory};
use std::alloc::Global;
use std::thread::Threads;

/// Accepts an answer, or refuses it with its first fault: the plan's, then a certificate line's,
/// then the root's. It is what `check` answers, for every number of workers from 1 to 32.
/// `NoMemory` comes where room could not be had, in whichever thread. Nothing says that two lines
/// are judged at the same time.
pub fn check_parallel(
    rt: &(impl Threads + Sync),
    alloc: Global,
    instance: &Instance,
    answer: &Answer,
    workers: u32,
) -> Result<(), CheckError>
    requires instance { IsInstance instance.now }
    requires answer { IsWellFormed instance.now answer.now }
    requires few { length answer.now.lines ≤ MAX_NUMBER }
    requires workers { (1 ≤ workers) × (workers ≤ 32) }
    ensures { IsChecked instance.now answer.now result }
{
    match answer_fault(rt, alloc, instance, answer, workers)? {
        Some(fault) => Err(CheckError::Rejected(fault)),
        None => Ok(()),
    }
}

/// The first fault of an answer. `None` where it is accepted.
#[tactic(auto, unfolding(cert_lines::specs::acceptance::Accepts::answer_fault))]
fn answer_fault(
    rt: &(impl Threads + Sync),
    alloc: Global,
    instance: &Instance,
    answer: &Answer,
    workers: u32,
) -> Result<Option<Rejected>, NoMemory>
    requires instance { IsInstance instance.now }
    requires answer { IsWellFormed instance.now answer.now }
    requires few { length answer.now.lines ≤ MAX_NUMBER }
    requires workers { (1 ≤ workers) × (workers ≤ 32) }
    ensures { IfOk result (λ fault. fault ≡ answer_fault instance.now answer.now) }
{
    if let Some(fault) = judge_plan(instance, answer) {
        return Ok(Some(fault));
    }
    let marks = Marks::new(alloc, instance, answer)?;
    if let Some(fault) = lines_fault(rt, alloc, instance, answer, &marks, workers)? {
        return Ok(Some(fault));
    }
    Ok(root_fault(instance, answer, &marks))
}
