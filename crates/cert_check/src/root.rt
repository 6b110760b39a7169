//! The fault of a root.

ghost use Rattle.std.specs.Prelude.{◌≡◌, ◌+◌, ◌<◌, length, IsTrue, if◌then◌else◌};
ghost use Rattle.std.specs.Option.{option_map};
ghost use Rattle.fapp_model.specs.Tags.{is_tag};
ghost use Rattle.cert_lines.specs.WellFormed.{IsVerdict, IsWellFormed};
ghost use Rattle.cert_lines.specs.acceptance.Deleted.{is_kept, kept};
ghost use Rattle.cert_lines.specs.acceptance.LineFaults.{rejected_at};
ghost use Rattle.cert_lines.specs.acceptance.RootFaults.{tag_for, verdict_tag, root_tag, root_fault, root_fault_by, with_root_line};
ghost use Rattle.cert_lines.specs.acceptance.Excluded.{line_at};
ghost use Rattle.cert_check.specs.Marked.{IsMarks, AreDeleters};

use crate::acceptance::rejected_at;
use crate::marks::Marks;
use cert_lines::{
    Answer, Line, RejectCause, Rejected, Verdict, is_delete, kept_root_tag, with_root_line,
};
use fapp_model::{Instance, MAX_LEVELS, Tag, Triple, levels, tag_of};

fn tag_for(t: Triple) -> Tag
    requires { IsTrue (is_tag MAX_LEVELS t) }
    ensures { result ≡ tag_for t }
{
    tag_of(t)
}

fn verdict_tag(instance: &Instance, verdict: &Verdict) -> Tag
    requires { IsVerdict instance.now verdict.now }
    ensures { result ≡ verdict_tag instance.now verdict.now }
{
    match verdict {
        Verdict::Best(t) => tag_for(*t),
        Verdict::NoneFeasible => tag_for(Triple {
            k: levels(instance) + 1,
            v: 0,
            s: 0,
        }),
        Verdict::Open { lower, .. } => *lower,
    }
}

fn fault_of(claimed: Tag, found: Option<Tag>) -> Option<RejectCause>
    ensures { result ≡ root_fault_by claimed found }
{
    match found {
        None => Some(RejectCause::NoRootLine),
        Some(found) => {
            if claimed.code <= found.code {
                None
            } else {
                Some(RejectCause::RootTagTooLow { claimed, found })
            }
        }
    }
}

/// The fault of an answer's root. It looks through the lines again for each of its root lines.
#[tactic(auto, unfolding(cert_lines::specs::acceptance::RootFaults::root_fault))]
pub fn judge_root(instance: &Instance, answer: &Answer) -> Option<Rejected>
    requires { IsWellFormed instance.now answer.now }
    ensures { result ≡ option_map (rejected_at 0)
        (root_fault instance.now answer.now.verdict answer.now.lines) }
{
    let claimed = verdict_tag(instance, &answer.verdict);
    let found = kept_root_tag(answer.lines.as_slice());
    rejected_at(0, fault_of(claimed, found))
}

/// What `judge_root` answers, by the index of the answer's lines: it goes through the lines once,
/// and takes no memory.
#[tactic(auto, unfolding(cert_lines::specs::acceptance::RootFaults::root_fault))]
pub fn root_fault(instance: &Instance, answer: &Answer, marks: &Marks) -> Option<Rejected>
    requires answer { IsWellFormed instance.now answer.now }
    requires marks { IsMarks instance.now answer.now.lines marks.now }
    ensures { result ≡ option_map (rejected_at 0)
        (root_fault instance.now answer.now.verdict answer.now.lines) }
{
    let claimed = verdict_tag(instance, &answer.verdict);
    let found = root_tag_by(answer.lines.as_slice(), marks.deleters.as_slice());
    rejected_at(0, fault_of(claimed, found))
}

/// The greatest tag of the root lines that none deletes.
#[tactic(auto, unfolding(cert_lines::specs::acceptance::RootFaults::root_tag, cert_lines::specs::acceptance::Deleted::kept))]
fn root_tag_by(lines: &[Line], deleters: &[u32]) -> Option<Tag>
    requires { AreDeleters lines.now deleters.now }
    ensures { result ≡ root_tag (kept lines.now) }
{
    let mut found = None;
    for place in 0..lines.len() {
        found = with_kept(found, lines, deleters, place);
    }
    found
}

/// The greatest tag so far, and that of the line at a position where it is a root line that is
/// kept.
fn with_kept(found: Option<Tag>, lines: &[Line], deleters: &[u32], place: usize) -> Option<Tag>
    requires deleters { AreDeleters lines.now deleters.now }
    requires place { place < length lines.now }
    ensures { let line = line_at lines.now (place + 1) in
        result ≡ (if is_kept lines.now (place + 1) line then with_root_line found line else found) }
{
    if is_kept(lines, deleters, place) {
        with_root_line(found, &lines[place])
    } else {
        found
    }
}

/// Whether a line is no Delete line, and none deletes it.
fn is_kept(lines: &[Line], deleters: &[u32], place: usize) -> bool
    requires deleters { AreDeleters lines.now deleters.now }
    requires place { place < length lines.now }
    ensures { result ≡ is_kept lines.now (place + 1) (line_at lines.now (place + 1)) }
{
    !is_delete(&lines[place].rule) && deleters[place] as usize >= lines.len()
}
