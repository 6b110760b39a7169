// The call that reads, answers and writes.
ghost use Rattle.std.specs.Prelude.{◌≡◌, ◌+◌, ◌≤◌, ◌⊎◌, IfOk, OnErr, Some, string_bytes, map};
ghost use Rattle.fapp_io.specs.Whole.{DropsUpTo};
ghost use Rattle.fapp_words.specs.Promises.{ReadsWords};
ghost use Rattle.fapp_run.specs.Made.{AreRequested};
ghost use Rattle.fapp_run.specs.declared.judgement.TheConstants.{MAX_CHECK_INPUT};
ghost use Rattle.fapp_run.specs.declared.reply.TheConstants.{MAX_INPUT};
ghost use Rattle.fapp_run.specs.Answers.{AreOptions};
ghost use Rattle.fapp_run.specs.Judgements.{AreCheckOptions};
ghost use Rattle.fapp_run.specs.Replies.{IsCheckReply, IsReply, IsReplyFor, IsSolveReply, ReadsFor, ReadsFront};
ghost use Rattle.fapp_run.specs.Runs.{AreLimits, IsRun, Completes, CompletesCheck, CompletesGen, CompletesDemo, ProvesAccepted};

use crate::judgement::{MAX_CHECK_INPUT, judge};
use crate::made::{demonstrated, generated};
use crate::reply::{MAX_INPUT, Reply, answer, refusal};
use answer_writer::Status;
use fapp_io::{NoMemory, ReadEnd, Sink, Source, WriteEnd, read_all, write_all};
use fapp_words::{CheckOptions, Request, SolveOptions, read_words};
use fapp_workers::Gate;
use std::alloc::Global;
use std::thread::Threads;

/// Does all that the program does, for the words after its name: reads an instance, solves it by
/// workers side by side and writes the answer; or reads an instance and an answer, and writes
/// whether it is accepted; or writes a made network, or the verdict on one. All output is made
/// before the first write.
pub fn run<R: Threads + Sync, S: Source, K: Sink, G: Gate>(
    rt: &R,
    alloc: Global,
    words: &[String],
    source: &mut S,
    sink: &mut K,
    gate: &G,
) -> Status
    // What was read, what was written, and the cause of the status.
    ensures run { IsRun words.now (S.moment source.old) (S.moment source.new)
        (K.moment sink.old) (K.moment sink.new) result }

    // On the words of solve, a text of an instance and no fault, the answer is Best, NoneFeasible
    // or Open, and not Open where the fuel is enough for one level.
    ensures completes { Completes words.now (S.moment source.old) (S.moment source.new)
        (K.moment sink.old) (K.moment sink.new) result }

    // On the words of check, an instance with an answer that is to be accepted and no fault, it is
    // accepted.
    ensures completes_check { CompletesCheck words.now (S.moment source.old) (S.moment source.new)
        (K.moment sink.old) (K.moment sink.new) result }

    // On the words of gen and no fault, the network is written.
    ensures completes_gen { CompletesGen words.now (K.moment sink.old) (K.moment sink.new) result }

    // On the words of demo and no fault, the verdict on the made network is written, or there was
    // no memory; and it is not Open where the fuel is enough for one level.
    ensures completes_demo { CompletesDemo words.now (K.moment sink.old) (K.moment sink.new)
        result }

    // What an accepted answer claims is so.
    ensures right { ProvesAccepted (S.moment source.old) result }

    // The limits of an input and of levels, as numbers.
    ensures limits { AreLimits }
{
    let Ok(reply) = reply_of(rt, alloc, words, source, gate) else {
        return Status::NoMemory;
    };
    match write_all(sink, &reply.text) {
        Ok(()) => reply.status,
        Err(WriteEnd::WriteFault) => Status::WriteFault,
    }
}

/// The reply to the words, and where they ask for an input to be read to that input.
fn reply_of<R: Threads + Sync, S: Source, G: Gate>(
    rt: &R,
    alloc: Global,
    words: &[String],
    source: &mut S,
    gate: &G,
) -> Result<Reply, NoMemory>
    ensures reply { IfOk result (λ reply.
        IsReply words.now (S.moment source.old) (S.moment source.new) reply.status
        reply.text.items) }
    ensures no_memory { OnErr result (ReadsFront words.now (S.moment source.old)
        (S.moment source.new)) }
{
    match read_words(alloc, words)? {
        Some(request) => requested(rt, alloc, request, source, gate),
        None => refusal(alloc, Status::Usage),
    }
}

/// The reply to a request.
fn requested<R: Threads + Sync, S: Source, G: Gate>(
    rt: &R,
    alloc: Global,
    request: Request,
    source: &mut S,
    gate: &G,
) -> Result<Reply, NoMemory>
    requires { AreRequested request }
    ensures reply { IfOk result (λ reply.
        IsReplyFor (Some request) (S.moment source.old) (S.moment source.new) reply.status
        reply.text.items) }
    ensures no_memory { OnErr result (ReadsFor request (S.moment source.old)
        (S.moment source.new)) }
{
    match request {
        Request::Solve(options) => solved(rt, alloc, options, source, gate),
        Request::Check(options) => checked(rt, alloc, options, source),
        Request::Gen(seed) => generated(alloc, seed),
        Request::Demo(seed) => demonstrated(rt, alloc, seed, gate),
    }
}

/// The reply to an input that is to be solved.
fn solved<R: Threads + Sync, S: Source, G: Gate>(
    rt: &R,
    alloc: Global,
    options: SolveOptions,
    source: &mut S,
    gate: &G,
) -> Result<Reply, NoMemory>
    requires { AreOptions options }
    ensures reply { IfOk result (λ reply.
        IsSolveReply options (S.moment source.old) (S.moment source.new) reply.status
        reply.text.items) }
    ensures no_memory { OnErr result (
        DropsUpTo (S.moment source.old).left (S.moment source.new).left (MAX_INPUT + 1)) }
{
    match read_all(alloc, source, MAX_INPUT) {
        Ok(bytes) => answer(rt, alloc, &bytes, &options, gate),
        Err(ReadEnd::TooLong) => refusal(alloc, Status::TooLong),
        Err(ReadEnd::ReadFault) => refusal(alloc, Status::ReadFault),
        Err(ReadEnd::NoMemory) => Err(NoMemory),
    }
}

/// The reply to an input that is to be checked.
fn checked<R: Threads + Sync, S: Source>(
    rt: &R,
    alloc: Global,
    options: CheckOptions,
    source: &mut S,
) -> Result<Reply, NoMemory>
    requires { AreCheckOptions options }
    ensures reply { IfOk result (λ reply.
        IsCheckReply (S.moment source.old) (S.moment source.new) reply.status reply.text.items) }
    ensures no_memory { OnErr result (
        DropsUpTo (S.moment source.old).left (S.moment source.new).left (MAX_CHECK_INPUT + 1)) }
{
    match read_all(alloc, source, MAX_CHECK_INPUT) {
        Ok(bytes) => judge(rt, alloc, &bytes, &options),
        Err(ReadEnd::TooLong) => refusal(alloc, Status::TooLong),
        Err(ReadEnd::ReadFault) => refusal(alloc, Status::ReadFault),
        Err(ReadEnd::NoMemory) => Err(NoMemory),
    }
}
