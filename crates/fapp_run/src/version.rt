// An answer in the version that is asked for.
ghost use Rattle.std.specs.Prelude.{◌≡◌, All, IfOk};
ghost use Rattle.cert_lines.specs.WellFormed.{IsWellFormed};
ghost use Rattle.cert_lines.specs.acceptance.Accepts.{Accepts};
ghost use Rattle.merge_laws.specs.MergedLines.{HasNoCite};
ghost use Rattle.fapp_run.specs.Versions.{IsWrittenIn};

use cert_lines::Answer;
use cert_merge::compact;
use fapp_io::NoMemory;
use fapp_model::{Instance, Items};
use std::alloc::Global;

/// An answer of version 1 in a version: in the second with Delete lines for what is cited no more,
/// and else as it is.
pub(crate) fn in_version(
    alloc: Global,
    _instance: &Instance,
    answer: Answer,
    version: u32,
) -> Result<Answer, NoMemory>
    requires formed { IsWellFormed _instance.now answer }
    requires first { answer.version ≡ 1 }
    requires accepted { Accepts _instance.now answer }
    requires bare { All (λ line. line.tag.code ≡ 0 → HasNoCite line.rule) answer.lines }
    ensures { IfOk result (IsWrittenIn _instance.now version answer) }
{
    if version != 2 {
        return Ok(answer);
    }
    let Answer {
        plan,
        verdict,
        version: _,
        lines,
    } = answer;
    let lines = compact(alloc, lines.as_slice())?;
    Ok(Answer {
        plan,
        verdict,
        version: 2,
        lines: Items::from_vec(lines),
    })
}
