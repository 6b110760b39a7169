//! The lines of a certificate, judged in rounds of a slice for each worker.

ghost use Rattle.std.specs.Prelude.{◌≡◌, ◌<◌, ◌≤◌, ◌+◌, ◌*◌, IfOk, length};
ghost use Rattle.std.specs.List.{AllZip, range_with_len};
ghost use Rattle.fapp_model.specs.Instances.{IsInstance};
ghost use Rattle.cert_lines.specs.WellFormed.{IsWellFormed};
ghost use Rattle.cert_lines.specs.acceptance.LineFaults.{lines_fault};
ghost use Rattle.cert_check.specs.Marked.{IsMarks};
ghost use Rattle.check_parallel.specs.Slices.{edge, fault_between, slice_fault};

use cert_check::{Marks, judge_line};
use cert_lines::{Answer, Rejected};
use fapp_model::{Instance, MAX_NUMBER, NoMemory};
use rayon::prelude::*;
use std::alloc::Global;
use std::thread::Threads;

/// How many lines a slice has.
pub(crate) const SLICE: usize = 4096;

/// The first fault of the lines, judged in rounds of a slice for each worker. No round follows one
/// with a fault.
pub(crate) fn lines_fault(
    rt: &(impl Threads + Sync),
    alloc: Global,
    instance: &Instance,
    answer: &Answer,
    marks: &Marks,
    workers: u32,
) -> Result<Option<Rejected>, NoMemory>
    requires instance { IsInstance instance.now }
    requires answer { IsWellFormed instance.now answer.now }
    requires marks { IsMarks instance.now answer.now.lines marks.now }
    requires few { length answer.now.lines ≤ MAX_NUMBER }
    requires workers { (1 ≤ workers) × (workers ≤ 32) }
    ensures { IfOk result (λ fault. fault ≡ lines_fault instance.now answer.now.lines) }
{
    let count = answer.lines.len();
    let mut from = 0;
    while from < count {
        let fault = round_fault(rt, alloc, instance, answer, marks, workers, from)?;
        if fault.is_some() {
            return Ok(fault);
        }
        from = edge(count, from, workers);
    }
    Ok(None)
}

/// The first fault of the round that begins behind so many lines.
fn round_fault(
    rt: &(impl Threads + Sync),
    alloc: Global,
    instance: &Instance,
    answer: &Answer,
    marks: &Marks,
    workers: u32,
    from: usize,
) -> Result<Option<Rejected>, NoMemory>
    requires instance { IsInstance instance.now }
    requires answer { IsWellFormed instance.now answer.now }
    requires marks { IsMarks instance.now answer.now.lines marks.now }
    requires few { length answer.now.lines ≤ MAX_NUMBER }
    requires workers { workers ≤ 32 }
    requires from { from ≤ length answer.now.lines }
    ensures { let lines = answer.now.lines in
        IfOk result (λ fault. fault ≡ fault_between instance.now lines from
        (edge (length lines) from workers)) }
{
    let faults = slice_faults(rt, alloc, instance, answer, marks, workers, from)?;
    for k in 0..faults.len() {
        let fault = faults[k]?;
        if fault.is_some() {
            return Ok(fault);
        }
    }
    Ok(None)
}

/// The first fault of each slice of a round. One item of `rayon` is one slice, so no more threads
/// than workers judge.
fn slice_faults(
    rt: &(impl Threads + Sync),
    alloc: Global,
    instance: &Instance,
    answer: &Answer,
    marks: &Marks,
    workers: u32,
    from: usize,
) -> Result<Vec<Result<Option<Rejected>, NoMemory>>, NoMemory>
    requires instance { IsInstance instance.now }
    requires answer { IsWellFormed instance.now answer.now }
    requires marks { IsMarks instance.now answer.now.lines marks.now }
    requires few { length answer.now.lines ≤ MAX_NUMBER }
    requires workers { workers ≤ 32 }
    requires from { from ≤ length answer.now.lines }
    ensures { IfOk result (λ faults. AllZip (λ k fault.
        IfOk fault (λ f. f ≡ slice_fault instance.now answer.now.lines from k))
        (range_with_len 0 workers) faults.items) }
{
    let faults = (0..workers)
        .into_par_iter()
        .with_min_len(1)
        .map(
            |slice: u32| -> Result<Option<Rejected>, NoMemory>
                requires { (slice < 32) × (from ≤ length answer.now.lines) × IsInstance instance.now
                    × IsWellFormed instance.now answer.now
                    × IsMarks instance.now answer.now.lines marks.now
                    × (length answer.now.lines ≤ MAX_NUMBER) }
                ensures { IfOk result (λ fault.
                    fault ≡ slice_fault instance.entry.now answer.entry.now.lines from slice) }
            { slice_fault(alloc, instance, answer, marks, from, slice) },
        )
        .collect::<Vec<Result<Option<Rejected>, NoMemory>>>(rt, alloc)?;
    Ok(faults)
}

/// The first fault of one slice of the round that begins behind so many lines.
fn slice_fault(
    alloc: Global,
    instance: &Instance,
    answer: &Answer,
    marks: &Marks,
    from: usize,
    slice: u32,
) -> Result<Option<Rejected>, NoMemory>
    requires instance { IsInstance instance.now }
    requires answer { IsWellFormed instance.now answer.now }
    requires marks { IsMarks instance.now answer.now.lines marks.now }
    requires few { length answer.now.lines ≤ MAX_NUMBER }
    requires from { from ≤ length answer.now.lines }
    requires slice { slice < 32 }
    ensures { IfOk result (λ fault. fault ≡ slice_fault instance.now answer.now.lines from slice) }
{
    let count = answer.lines.len();
    for n in edge(count, from, slice)..edge(count, from, slice + 1) {
        let fault = judge_line(alloc, instance, answer, marks, n as u32 + 1)?;
        if fault.is_some() {
            return Ok(fault);
        }
    }
    Ok(None)
}

/// How many lines stand before a slice of the round that begins behind so many lines.
fn edge(count: usize, from: usize, slice: u32) -> usize
    requires count { count ≤ MAX_NUMBER }
    requires from { from ≤ count }
    requires slice { slice ≤ 32 }
    ensures { result ≡ edge count from slice }
{
    count.min(from + SLICE * slice as usize)
}
