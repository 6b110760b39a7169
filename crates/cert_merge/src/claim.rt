// The tag that a verdict claims, and root lines that have it.
ghost use Rattle.std.specs.Prelude.{◌≡◌, IsTrue};
ghost use Rattle.fapp_model.specs.Tags.{is_tag};
ghost use Rattle.cert_lines.specs.WellFormed.{IsVerdict};
ghost use Rattle.cert_lines.specs.acceptance.RootFaults.{tag_for, verdict_tag};
ghost use Rattle.merge_laws.specs.OldRoots.{is_rooted};

use cert_lines::{Line, Verdict, root_tag};
use fapp_model::{Instance, MAX_LEVELS, Tag, Triple, levels, tag_of};

fn tag_for(t: Triple) -> Tag
    requires { IsTrue (is_tag MAX_LEVELS t) }
    ensures { result ≡ tag_for t }
{
    tag_of(t)
}

/// The tag below which a verdict says that no assignment costs.
pub(crate) fn verdict_tag(instance: &Instance, verdict: &Verdict) -> Tag
    requires { IsVerdict instance.now verdict.now }
    ensures { result ≡ verdict_tag instance.now verdict.now }
{
    match verdict {
        Verdict::Best(t) => tag_for(*t),
        Verdict::NoneFeasible => tag_for(Triple {
            k: levels(instance) + 1,
            v: 0,
            s: 0,
        }),
        Verdict::Open { lower, .. } => *lower,
    }
}

/// Whether a root line has at least a tag.
pub(crate) fn is_rooted(tag: Tag, lines: &[Line]) -> bool
    ensures { result ≡ is_rooted tag lines.now }
{
    match root_tag(lines) {
        None => false,
        Some(found) => tag.code <= found.code,
    }
}
