//! The calls of the checker: a whole answer, and each part of it.

ghost use Rattle.std.specs.Prelude.{◌≡◌, ◌<◌, ◌≤◌, ◌-◌, ◌+◌, length, IfOk};
ghost use Rattle.std.specs.Option.{option_map};
ghost use Rattle.fapp_model.specs.Instances.{IsInstance};
ghost use Rattle.cert_lines.specs.WellFormed.{IsWellFormed};
ghost use Rattle.cert_lines.specs.acceptance.Accepts.{answer_fault};
ghost use Rattle.cert_lines.specs.acceptance.LineFaults.{fault_at, lines_fault, rejected_at};
ghost use Rattle.cert_check.specs.Checked.{IsChecked};
ghost use Rattle.cert_check.specs.Marked.{IsMarks};

use crate::error::CheckError;
use crate::line::line_fault;
use crate::marks::Marks;
use crate::plan::judge_plan;
use crate::root::root_fault;
use cert_lines::{Answer, RejectCause, Rejected};
use fapp_model::{Instance, MAX_NUMBER, NoMemory};
use std::alloc::Global;

pub(crate) fn rejected_at(line: u32, cause: Option<RejectCause>) -> Option<Rejected>
    ensures { result ≡ option_map (rejected_at line) cause }
{
    match cause {
        Some(cause) => Some(Rejected { line, cause }),
        None => None,
    }
}

/// The first fault of line n of an answer's certificate, counted from 1.
pub fn judge_line(
    alloc: Global,
    instance: &Instance,
    answer: &Answer,
    marks: &Marks,
    n: u32,
) -> Result<Option<Rejected>, NoMemory>
    requires instance { IsInstance instance.now }
    requires answer { IsWellFormed instance.now answer.now }
    requires marks { IsMarks instance.now answer.now.lines marks.now }
    requires low { 0 < n }
    requires high { n ≤ length answer.now.lines }
    ensures { IfOk result (λ fault. fault ≡ fault_at instance.now answer.now.lines (n - 1)) }
{
    let cause = line_fault(
        alloc,
        instance,
        marks,
        answer.lines.as_slice(),
        n as usize - 1,
    )?;
    Ok(rejected_at(n, cause))
}

/// The first fault of the lines.
fn lines_fault(
    alloc: Global,
    instance: &Instance,
    answer: &Answer,
    marks: &Marks,
) -> Result<Option<Rejected>, NoMemory>
    requires instance { IsInstance instance.now }
    requires answer { IsWellFormed instance.now answer.now }
    requires marks { IsMarks instance.now answer.now.lines marks.now }
    requires few { length answer.now.lines ≤ MAX_NUMBER }
    ensures { IfOk result (λ fault. fault ≡ lines_fault instance.now answer.now.lines) }
{
    for n in 0..answer.lines.len() {
        let fault = judge_line(alloc, instance, answer, marks, n as u32 + 1)?;
        if fault.is_some() {
            return Ok(fault);
        }
    }
    Ok(None)
}

/// Accepts an answer, or refuses it with its first fault: the plan's, then a certificate line's,
/// then the root's. Lists are in range and in order as `read_answer` gives them. `NoMemory` comes
/// where room could not be had.
pub fn check(alloc: Global, instance: &Instance, answer: &Answer) -> Result<(), CheckError>
    requires instance { IsInstance instance.now }
    requires answer { IsWellFormed instance.now answer.now }
    requires few { length answer.now.lines ≤ MAX_NUMBER }
    ensures { IsChecked instance.now answer.now result }
{
    match answer_fault(alloc, instance, answer)? {
        Some(fault) => Err(CheckError::Rejected(fault)),
        None => Ok(()),
    }
}

/// The first fault of an answer. `None` where it is accepted.
#[tactic(auto, unfolding(cert_lines::specs::acceptance::Accepts::answer_fault))]
fn answer_fault(
    alloc: Global,
    instance: &Instance,
    answer: &Answer,
) -> Result<Option<Rejected>, NoMemory>
    requires instance { IsInstance instance.now }
    requires answer { IsWellFormed instance.now answer.now }
    requires few { length answer.now.lines ≤ MAX_NUMBER }
    ensures { IfOk result (λ fault. fault ≡ answer_fault instance.now answer.now) }
{
    if let Some(fault) = judge_plan(instance, answer) {
        return Ok(Some(fault));
    }
    let marks = Marks::new(alloc, instance, answer)?;
    if let Some(fault) = lines_fault(alloc, instance, answer, &marks)? {
        return Ok(Some(fault));
    }
    Ok(root_fault(instance, answer, &marks))
}
