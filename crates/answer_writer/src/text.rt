ghost use Rattle.std.specs.Prelude.{◌≡◌, ◌++◌, codes, IfOk};
ghost use Rattle.cert_lines.specs.Spelling.{verdict_text};
ghost use Rattle.cert_lines.specs.WellFormed.{IsWellFormed};
ghost use Rattle.answer_writer.specs.Texts.{written_text, accepted_text};

use crate::NoMemory;
use cert_lines::{Answer, Verdict, plan_text, verdict_text, write_answer};
use fapp_model::Instance;
use std::alloc::Global;

/// The text of a well-formed answer, or the lines of its plan alone. `NoMemory` comes where its
/// room could not be had.
pub fn answer_text(
    alloc: Global,
    instance: &Instance,
    answer: &Answer,
    answer_only: bool,
) -> Result<Vec<u8>, NoMemory>
    requires { IsWellFormed instance.now answer.now }
    ensures { IfOk result (λ text. text.items ≡ written_text instance.now answer.now answer_only) }
{
    if answer_only {
        plan_text(alloc, instance, answer.plan.as_slice())
    } else {
        write_answer(alloc, instance, answer)
    }
}

/// The line that tells of an accepted answer, with its verdict. `NoMemory` comes where its room
/// could not be had.
pub fn accepted_text(alloc: Global, verdict: &Verdict) -> Result<Vec<u8>, NoMemory>
    ensures { IfOk result (λ text. text.items ≡ accepted_text verdict.now) }
{
    let verdict = verdict_text(alloc, verdict)?;
    let mut out = Vec::from_slice(alloc, b"ACCEPTED ")?;
    out.extend_from_slice(&verdict)?;
    Ok(out)
}
