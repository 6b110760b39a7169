//! The call that reads, solves and relays.

ghost use Rattle.std.specs.Prelude.{◌≡◌, ◌≤◌, ◌+◌, false, IfOk};
ghost use Rattle.fapp_io.specs.Whole.{DropsUpTo};
ghost use Rattle.cert_lines.specs.Spelling.{answer_text};
ghost use Rattle.cert_lines.specs.WellFormed.{IsWellFormed};
ghost use Rattle.answer_writer.specs.Refusals.{refusal_line};
ghost use Rattle.fapp_run.specs.Answers.{AreOptions, status_of};
ghost use Rattle.relay_cli.specs.Runs.{IsRelayRun, CompletesRelay};
ghost use Rattle.relay_cli.specs.RelaySteps.{IsRunBy, IsSolutionOf, IsWriting};

use crate::options::relay_options;
use answer_writer::refusal_text;
use cert_lines::Answer;
use cert_relay::{End, relay};
use fapp_io::{NoMemory, ReadEnd, Sink, Source, WriteEnd, read_all, write_all};
use fapp_model::{Instance, MAX_NUMBER};
use fapp_run::{Gate, MAX_INPUT, OpenGate, Solution, Status, solve_input, status_of};
use fapp_words::SolveOptions;
use std::alloc::Global;
use std::sync::Wait;
use std::thread::Threads;

/// The most senders of a relay.
const MAX_SENDERS: u32 = 8;

/// Does all that the program does, for the words after its name: reads an instance, solves it as
/// the command `solve` does, and relays the answer's text to the sink by as many senders as
/// workers, 8 at most. A refusal is written as `solve` writes it. The text of an answer is made
/// while it is written: `NoMemory` may come after a front of it.
pub fn run_relay<R: Threads + Wait + Sync, S: Source, K: Sink, G: Gate>(
    rt: &R,
    alloc: Global,
    words: &[String],
    source: &mut S,
    sink: &mut K,
    gate: &G,
) -> Status
    // What was read, what was written, and the cause of the status.
    ensures run { IsRelayRun words.now (S.moment source.old) (S.moment source.new)
        (K.moment sink.old) (K.moment sink.new) result }

    // On promised words, a text of an instance and no fault, the answer is Best, NoneFeasible or
    // Open, and not Open where the fuel is enough for one level; or there was no memory.
    ensures completes { CompletesRelay words.now (S.moment source.old) (S.moment source.new)
        (K.moment sink.old) (K.moment sink.new) result }
{
    match relay_options(alloc, words) {
        Ok(Some(options)) => solve_and_relay(rt, alloc, &options, source, sink, gate),
        Ok(None) => refused(alloc, Status::Usage, sink),
        Err(NoMemory) => Status::NoMemory,
    }
}

/// Reads an instance, solves it by the options and writes the answer.
fn solve_and_relay<R: Threads + Wait + Sync, S: Source, K: Sink, G: Gate>(
    rt: &R,
    alloc: Global,
    options: &SolveOptions,
    source: &mut S,
    sink: &mut K,
    gate: &G,
) -> Status
    requires range { AreOptions options.now }
    requires whole { options.now.answer_only ≡ false }
    ensures reads { DropsUpTo (S.moment source.old).left (S.moment source.new).left
        (MAX_INPUT + 1) }
    ensures run { IsRunBy options.now (S.moment source.old) (S.moment source.new)
        (K.moment sink.old) (K.moment sink.new) result }
{
    match solution(rt, alloc, options, source, gate) {
        Ok(Solution::Refused(status)) => refused(alloc, status, sink),
        Ok(Solution::Answered { instance, answer }) => {
            let senders = options.workers.min(MAX_SENDERS);
            relayed(rt, alloc, &instance, &answer, senders, sink)
        }
        Err(NoMemory) => Status::NoMemory,
    }
}

/// What the options make of the source.
fn solution<R: Threads + Sync, S: Source, G: Gate>(
    rt: &R,
    alloc: Global,
    options: &SolveOptions,
    source: &mut S,
    gate: &G,
) -> Result<Solution, NoMemory>
    requires { AreOptions options.now }
    ensures reads { DropsUpTo (S.moment source.old).left (S.moment source.new).left
        (MAX_INPUT + 1) }
    ensures solution { IfOk result (IsSolutionOf options.now (S.moment source.old)
        (S.moment source.new)) }
{
    match read_all(alloc, source, MAX_INPUT) {
        Ok(bytes) => solve_input(rt, alloc, &bytes, options, gate),
        Err(ReadEnd::TooLong) => Ok(Solution::Refused(Status::TooLong)),
        Err(ReadEnd::ReadFault) => Ok(Solution::Refused(Status::ReadFault)),
        Err(ReadEnd::NoMemory) => Err(NoMemory),
    }
}

/// Writes the line that tells of a refusal.
fn refused<K: Sink>(alloc: Global, status: Status, sink: &mut K) -> Status
    ensures { IsWriting status (refusal_line status) (K.moment sink.old) (K.moment sink.new)
        result }
{
    let Ok(text) = refusal_text(alloc, &status) else {
        return Status::NoMemory;
    };
    match write_all(sink, &text) {
        Ok(()) => status,
        Err(WriteEnd::WriteFault) => Status::WriteFault,
    }
}

/// Writes an answer by so many senders. `NoMemory` also comes, before anything is written, where
/// there are more than `MAX_NUMBER` certificate lines, which no merge makes, although no clause
/// says so.
fn relayed<R: Threads + Wait + Sync, K: Sink>(
    rt: &R,
    alloc: Global,
    instance: &Instance,
    answer: &Answer,
    senders: u32,
    sink: &mut K,
) -> Status
    requires answer { IsWellFormed instance.now answer.now }
    requires senders { (1 ≤ senders) × (senders ≤ 8) }
    ensures { IsWriting (status_of answer.now.verdict) (answer_text instance.now answer.now)
        (K.moment sink.old) (K.moment sink.new) result }
{
    if answer.lines.len() > MAX_NUMBER as usize {
        return Status::NoMemory;
    }
    let Ok(relayed) = relay(rt, alloc, instance, answer, senders, &OpenGate, sink) else {
        return Status::NoMemory;
    };
    match relayed.end {
        End::Written => status_of(&answer.verdict),
        End::WriteFault => Status::WriteFault,
        End::OutOfMemory(_) => Status::NoMemory,
    }
}
