// What is answered to the bytes of the input of a check.
ghost use Rattle.std.specs.Prelude.{◌≡◌, ◌≤◌, ◌+◌, length, IfOk};
ghost use Rattle.fapp_model.specs.Instances.{IsInstance};
ghost use Rattle.fapp_text.specs.Reading.{fault};
ghost use Rattle.cert_lines.specs.WellFormed.{IsWellFormed};
ghost use Rattle.cert_check.specs.Checked.{IsChecked};
ghost use Rattle.fapp_run.specs.Halves.{halves_of};
ghost use Rattle.fapp_run.specs.Judgements.{AreCheckOptions, Judges, IsJudgedText, IsJudgedAnswer, IsJudgedAlone, IsJudgedInput};

use crate::check_input::{CheckInput, cut};
use crate::reply::{Reply, refusal};
use answer_writer::{BadCert, Status, accepted_text};
use cert_check::{CheckError, check};
use cert_lines::{Answer, AnswerError, read_answer};
use check_parallel::check_parallel;
use fapp_io::NoMemory;
use fapp_model::{Instance, MAX_NUMBER};
use fapp_text::MAX_TEXT;
use fapp_words::CheckOptions;
use record_reader::{ReadError, read_instance};
use std::alloc::Global;
use std::thread::Threads;

/// The most bytes of the input of a check.
pub const MAX_CHECK_INPUT: usize = 1_073_741_824;

/// The reply to a check, for an input given as its bytes: that the answer after the first line `--`
/// is accepted for the instance before that line, or the first refusal, in this order: `TooLong`
/// for more than `MAX_CHECK_INPUT` bytes, the instance's first refused line, that no line is `--`,
/// the first fault of the answer's text, the first fault of the answer. It is the same for every
/// number of workers. `run` answers just so to what it reads.
pub fn judge<R: Threads + Sync>(
    rt: &R,
    alloc: Global,
    bytes: &[u8],
    options: &CheckOptions,
) -> Result<Reply, NoMemory>
    requires { AreCheckOptions options.now }
    ensures { IfOk result (λ reply. Judges bytes.now reply.status reply.text.items) }
{
    if bytes.len() > MAX_CHECK_INPUT {
        return refusal(alloc, Status::TooLong);
    }
    match cut(bytes) {
        Some(input) => judge_input(rt, alloc, &input, options),
        None => judge_alone(alloc, bytes),
    }
}

/// An input without a line `--`.
fn judge_alone(alloc: Global, bytes: &[u8]) -> Result<Reply, NoMemory>
    requires { length bytes.now ≤ MAX_TEXT }
    ensures { IfOk result (λ reply. IsJudgedAlone bytes.now reply.status reply.text.items) }
{
    match read_instance(alloc, bytes) {
        Ok(_) => refusal(alloc, Status::NoAnswer),
        Err(ReadError::Bad(bad)) => refusal(alloc, Status::BadInput(bad)),
        Err(ReadError::NoMemory) => Err(NoMemory),
    }
}

/// An input with a line `--`.
fn judge_input<R: Threads + Sync>(
    rt: &R,
    alloc: Global,
    input: &CheckInput,
    options: &CheckOptions,
) -> Result<Reply, NoMemory>
    requires options { AreCheckOptions options.now }
    requires instance { length input.now.instance.now ≤ MAX_TEXT }
    requires divider { input.now.divider ≤ MAX_TEXT }
    requires answer { length input.now.answer.now ≤ MAX_TEXT }
    ensures { IfOk result (λ reply. IsJudgedInput (halves_of input.now) reply.status
        reply.text.items) }
{
    match read_instance(alloc, input.instance) {
        Ok(instance) => judge_text(rt, alloc, &instance, input.answer, input.divider, options),
        Err(ReadError::Bad(bad)) => refusal(alloc, Status::BadInput(bad)),
        Err(ReadError::NoMemory) => Err(NoMemory),
    }
}

/// The text of an answer, behind so many lines of the input.
fn judge_text<R: Threads + Sync>(
    rt: &R,
    alloc: Global,
    instance: &Instance,
    text: &[u8],
    before: u32,
    options: &CheckOptions,
) -> Result<Reply, NoMemory>
    requires options { AreCheckOptions options.now }
    requires instance { IsInstance instance.now }
    requires text { length text.now ≤ MAX_TEXT }
    requires before { before ≤ MAX_TEXT }
    ensures { IfOk result (λ reply. IsJudgedText instance.now text.now before reply.status
        reply.text.items) }
{
    match read_answer(alloc, instance, text) {
        Ok(answer) => judge_answer(rt, alloc, instance, &answer, options),
        Err(AnswerError::Bad(bad)) => refusal(alloc, Status::BadAnswer(fault_behind(bad, before))),
        Err(AnswerError::NoMemory) => Err(NoMemory),
    }
}

/// A fault of a text that stands behind so many lines.
fn fault_behind(bad: BadCert, before: u32) -> BadCert
    requires { before + bad.line ≤ u32.MAX }
    ensures { result ≡ fault (before + bad.line) bad.cause }
{
    BadCert {
        line: before + bad.line,
        cause: bad.cause,
    }
}

/// What is said of an answer.
fn judge_answer<R: Threads + Sync>(
    rt: &R,
    alloc: Global,
    instance: &Instance,
    answer: &Answer,
    options: &CheckOptions,
) -> Result<Reply, NoMemory>
    requires options { AreCheckOptions options.now }
    requires instance { IsInstance instance.now }
    requires answer { IsWellFormed instance.now answer.now }
    requires few { length answer.now.lines ≤ MAX_NUMBER }
    ensures { IfOk result (λ reply. IsJudgedAnswer instance.now answer.now reply.status
        reply.text.items) }
{
    match checked(rt, alloc, instance, answer, options) {
        Ok(()) => Ok(Reply {
            status: Status::Accepted,
            text: accepted_text(alloc, &answer.verdict)?,
        }),
        Err(CheckError::Rejected(fault)) => refusal(alloc, Status::Rejected(fault)),
        Err(CheckError::NoMemory) => Err(NoMemory),
    }
}

/// Whether an answer is accepted, its lines judged one after another by one worker, and side by
/// side by more.
fn checked<R: Threads + Sync>(
    rt: &R,
    alloc: Global,
    instance: &Instance,
    answer: &Answer,
    options: &CheckOptions,
) -> Result<(), CheckError>
    requires options { AreCheckOptions options.now }
    requires instance { IsInstance instance.now }
    requires answer { IsWellFormed instance.now answer.now }
    requires few { length answer.now.lines ≤ MAX_NUMBER }
    ensures { IsChecked instance.now answer.now result }
{
    if options.workers == 1 {
        check(alloc, instance, answer)
    } else {
        check_parallel(rt, alloc, instance, answer, options.workers)
    }
}
