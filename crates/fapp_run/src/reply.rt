// What is answered to the bytes of an input that is to be solved.
ghost use Rattle.std.specs.Prelude.{◌≡◌, IfOk};
ghost use Rattle.fapp_model.specs.Instances.{IsInstance};
ghost use Rattle.cert_lines.specs.WellFormed.{IsWellFormed};
ghost use Rattle.answer_writer.specs.Refusals.{refusal_line};
ghost use Rattle.answer_writer.specs.Texts.{written_text};
ghost use Rattle.fapp_workers.specs.Ranges.{AreInRange};
ghost use Rattle.fapp_run.specs.Answers.{Answers, AreOptions, IsAnswerIn, Solves, fuel_of, status_of};

use crate::solving::solve_answer;
use crate::version::in_version;
use answer_writer::{Status, answer_text, refusal_text};
use cert_lines::{Answer, Verdict};
use fapp_io::NoMemory;
use fapp_model::Instance;
use fapp_words::SolveOptions;
use fapp_workers::{Gate, Settings};
use record_reader::{ReadError, read_instance};
use std::alloc::Global;
use std::thread::Threads;

/// The most bytes of an input.
pub const MAX_INPUT: usize = 134_217_728;

/// How a run is to end, unless its writing fails.
#[derive(Drop)]
pub struct Reply {
    /// What the run ends with.
    pub status: Status,
    /// All that is to be written before.
    pub text: Vec<u8>,
}

/// What the bytes of an input are solved to.
#[derive(Drop)]
pub enum Solution {
    /// The input is refused, as `TooLong` or `BadInput`.
    Refused(Status),
    /// The instance, and an answer to it in the version that is asked for.
    Answered { instance: Instance, answer: Answer },
}

/// The reply to an input, given as its bytes: the answer to the instance whose text it is, the
/// first refused line of another text, or `TooLong` for more than `MAX_INPUT` bytes. `run` answers
/// just so to what it reads.
pub fn answer<R: Threads + Sync, G: Gate>(
    rt: &R,
    alloc: Global,
    bytes: &[u8],
    options: &SolveOptions,
    gate: &G,
) -> Result<Reply, NoMemory>
    requires { AreOptions options.now }
    ensures { IfOk result (λ reply. Answers options.now bytes.now reply.status reply.text.items) }
{
    match solve_input(rt, alloc, bytes, options, gate)? {
        Solution::Refused(status) => refusal(alloc, status),
        Solution::Answered { instance, answer } => {
            told(alloc, &instance, &answer, options.answer_only)
        }
    }
}

/// What an input is solved to, given as its bytes: the instance whose text it is, with an answer;
/// or a refusal, `BadInput` with the first refused line of another text, and `TooLong` for more
/// than `MAX_INPUT` bytes. No text is made.
pub fn solve_input<R: Threads + Sync, G: Gate>(
    rt: &R,
    alloc: Global,
    bytes: &[u8],
    options: &SolveOptions,
    gate: &G,
) -> Result<Solution, NoMemory>
    requires { AreOptions options.now }
    ensures { IfOk result (Solves options.now bytes.now) }
{
    if bytes.len() > MAX_INPUT {
        return Ok(Solution::Refused(Status::TooLong));
    }
    match read_instance(alloc, bytes) {
        Ok(instance) => {
            let answer = solved(rt, alloc, &instance, options, gate)?;
            Ok(Solution::Answered { instance, answer })
        }
        Err(ReadError::Bad(bad)) => Ok(Solution::Refused(Status::BadInput(bad))),
        Err(ReadError::NoMemory) => Err(NoMemory),
    }
}

/// An answer to an instance, in the version that is asked for.
fn solved<R: Threads + Sync, G: Gate>(
    rt: &R,
    alloc: Global,
    instance: &Instance,
    options: &SolveOptions,
    gate: &G,
) -> Result<Answer, NoMemory>
    requires instance { IsInstance instance.now }
    requires options { AreOptions options.now }
    ensures { IfOk result (IsAnswerIn instance.now options.now) }
{
    let settings = settings_for(instance, options);
    let answer = solve_answer(rt, alloc, instance, &settings, gate)?;
    in_version(alloc, instance, answer, options.cert)
}

/// An answer with its status.
fn told(
    alloc: Global,
    instance: &Instance,
    answer: &Answer,
    answer_only: bool,
) -> Result<Reply, NoMemory>
    requires { IsWellFormed instance.now answer.now }
    ensures status { IfOk result (λ reply. reply.status ≡ status_of answer.now.verdict) }
    ensures text { IfOk result (λ reply. reply.text.items
        ≡ written_text instance.now answer.now answer_only) }
{
    let text = answer_text(alloc, instance, answer, answer_only)?;
    Ok(Reply {
        status: status_of(&answer.verdict),
        text,
    })
}

/// The status that tells of a verdict.
pub fn status_of(verdict: &Verdict) -> Status
    ensures { result ≡ status_of verdict.now }
{
    match verdict {
        Verdict::Best(_) => Status::Best,
        Verdict::NoneFeasible => Status::NoneFeasible,
        Verdict::Open { .. } => Status::Open,
    }
}

/// The settings of the workers: where no fuel is named, it is 1,000 and the number of paths.
pub fn settings_for(instance: &Instance, options: &SolveOptions) -> Settings
    requires instance { IsInstance instance.now }
    requires options { AreOptions options.now }
    ensures range { AreInRange result }
    ensures fuel { result.fuel ≡ fuel_of options.now instance.now }
    ensures split { result.split ≡ options.now.split }
    ensures workers { result.workers ≡ options.now.workers }
    ensures pool { result.pool ≡ options.now.pool }
{
    let fuel = match options.fuel {
        Some(fuel) => fuel,
        None => 1000 + instance.paths.len() as u32,
    };
    Settings {
        workers: options.workers,
        fuel: u64::from(fuel),
        split: options.split,
        pool: options.pool,
    }
}

/// A status with the line that tells of it.
pub fn refusal(alloc: Global, status: Status) -> Result<Reply, NoMemory>
    ensures { IfOk result (λ reply. (reply.status ≡ status)
        × (reply.text.items ≡ refusal_line status)) }
{
    let text = refusal_text(alloc, &status)?;
    Ok(Reply { status, text })
}
