// The whole certificate.
ghost use Rattle.std.specs.Prelude.{◌≡◌, ℕ, ◌≤◌, [], ◌∷◌, ◌++◌, length, IfOk};
ghost use Rattle.fapp_model.specs.Instances.{IsNumber};
ghost use Rattle.fapp_model.specs.search.Jobs.{job_count};
ghost use Rattle.merge_laws.specs.Certificates.{finished};
ghost use Rattle.merge_laws.specs.Conditions.{IsMergeable, IsMergeableAfter};
ghost use Rattle.merge_laws.specs.Levels.{root_line};
ghost use Rattle.merge_laws.specs.MergedLines.{IsCertificate, IsCertificateAfter, IsCertificateAfterAt, IsMerged, IsMergedAfter};

use crate::claim::{is_rooted, verdict_tag};
use crate::gathered::gathered;
use crate::merged::Certificate;
use arc_levels::ArcTable;
use cert_lines::{Line, Rule, Verdict};
use fapp_model::{Items, Literal, NoMemory, Tag};
use fapp_plan::{Collected, Plan};
use search_log::Log;
use std::alloc::Global;

/// One certificate for a verdict, from the arcs, from logs, each a worker's, and from the outcomes
/// of all jobs of a plan.
///
/// It has the arc lines, then the segments of the logs by their rows, then what is left of each
/// log. Count lines and lines of the tag (0, 0, 0) are left out; cites are renumbered, and a child
/// whose line was left out is no longer listed. At the end stands a root line, where the arcs' root
/// tag is at least the verdict's, or else the plan's tree: a line for each list of choices along a
/// prefix, the longest first, of which the line of a prefix cites what its first outcome says that
/// is Refuted at the verdict's tag or above. At the tag (0, 0, 0) the root line stands alone.
///
/// The logs are good over the rows that they call home, each row is home once, and no Count line of
/// them has references. Each job has an outcome, and what a Refuted one names has its literals
/// within the job's prefix and a tag that is no lower. The verdict is that of the rule, for these
/// outcomes, the arcs' root tag and some bound that may be shown.
///
/// NoMemory also comes where there would be more than 1,000,000,000 lines, or 2^32 logs or more. It
/// takes room for a number for each line of the logs and for each row number up to the greatest.
pub fn merge(
    alloc: Global,
    arcs: &ArcTable,
    logs: Vec<Log>,
    plan: &Plan,
    collected: &Collected,
    verdict: &Verdict,
) -> Result<Vec<Line>, NoMemory>
    requires arcs { arcs.now ≡ plan.now.instance }
    requires mergeable { (word : ℕ) × IsMergeable plan.now.instance plan.now.split logs.items
        collected.now word verdict.now }
    ensures order { IfOk result (λ lines.
        IsCertificate plan.now.instance plan.now.split logs.items collected.now verdict.now
        lines.items) }
    ensures accepted { IfOk result (λ lines.
        IsMerged plan.now.instance plan.now.split logs.items verdict.now lines.items) }
{
    let lines = merge_after(alloc, &[], &[], arcs, logs, plan, collected, verdict)?;
    Ok(lines)
}

/// One certificate like that of `merge`, behind old lines, which stay first and unchanged. Placed
/// rows are given as pairs of a row and the number, from 1, of an old line that has its literals
/// and its tag. Logs and outcomes may cite them, as they cite the rows that the logs call home.
///
/// Where an old root line, which has no literals, has at least the verdict's tag, the old lines
/// stand alone. Else, at the tag (0, 0, 0), one root line without cites comes behind them. The
/// further lines are at most as many as the choices, the lists of choices along the prefixes, the
/// Branch lines of the logs, and one.
///
/// The old lines are well formed and good in their order, and none is a Delete line; nor is one of
/// the result. Each row is home once or placed once, and not both. The rest is as for `merge`; but
/// the verdict's rule takes the greatest tag of an old root line in place of the arcs' root tag
/// where that tag is greater.
///
/// NoMemory also comes where there would be more than 1,000,000,000 lines, the old ones counted, or
/// 2^32 logs or more.
pub fn merge_after(
    alloc: Global,
    old: &[Line],
    placed: &[(u32, u32)],
    arcs: &ArcTable,
    logs: Vec<Log>,
    plan: &Plan,
    collected: &Collected,
    verdict: &Verdict,
) -> Result<Vec<Line>, NoMemory>
    requires arcs { arcs.now ≡ plan.now.instance }
    requires mergeable { (word : ℕ) × IsMergeableAfter plan.now.instance plan.now.split old.now
        placed.now logs.items collected.now word verdict.now }
    ensures order { IfOk result (λ lines.
        IsCertificateAfter plan.now.instance plan.now.split old.now placed.now logs.items
        collected.now verdict.now lines.items) }
    ensures accepted { IfOk result (λ lines.
        IsMergedAfter plan.now.instance plan.now.split old.now logs.items verdict.now lines.items) }
{
    let tag = verdict_tag(plan.instance(), verdict);
    let lines = certificate_at(alloc, old, placed, arcs, logs, plan, collected, tag)?;
    Ok(lines)
}

/// The certificate at a tag.
fn certificate_at(
    alloc: Global,
    old: &[Line],
    placed: &[(u32, u32)],
    arcs: &ArcTable,
    logs: Vec<Log>,
    plan: &Plan,
    collected: &Collected,
    tag: Tag,
) -> Result<Vec<Line>, NoMemory>
    requires arcs { arcs.now ≡ plan.now.instance }
    requires planned { length collected.now ≡ job_count plan.now.instance plan.now.split }
    ensures order { IfOk result (λ lines.
        IsCertificateAfterAt plan.now.instance plan.now.split old.now placed.now logs.items
        collected.now tag lines.items) }
    ensures few { IfOk result (λ lines. IsNumber (length lines.items)) }
{
    if is_rooted(tag, old) {
        let lines = old_alone(alloc, old)?;
        return Ok(lines);
    }
    if tag.code == 0 {
        let lines = old_and_root(alloc, old, tag)?;
        return Ok(lines);
    }
    let merged = gathered(alloc, old, placed, arcs.lines(), logs)?;
    let lines = finished(alloc, merged, plan, collected, tag, arcs.root_tag())?;
    Ok(lines)
}

/// The old lines alone.
fn old_alone(alloc: Global, old: &[Line]) -> Result<Vec<Line>, NoMemory>
    ensures value { IfOk result (λ lines. lines.items ≡ old.now) }
    ensures few { IfOk result (λ lines. IsNumber (length lines.items)) }
{
    let mut merged = Certificate::empty(alloc, &[], 0, 0)?;
    merged.add_copies(old)?;
    Ok(merged.into_lines())
}

/// The old lines and the root line.
fn old_and_root(alloc: Global, old: &[Line], tag: Tag) -> Result<Vec<Line>, NoMemory>
    ensures value { IfOk result (λ lines. lines.items ≡ old.now ++ root_line tag ∷ []) }
    ensures few { IfOk result (λ lines. IsNumber (length lines.items)) }
{
    let mut merged = Certificate::empty(alloc, &[], 0, 0)?;
    merged.add_copies(old)?;
    merged.add(root_line(alloc, tag))?;
    Ok(merged.into_lines())
}

/// The Count line without literals and cites.
fn root_line(alloc: Global, tag: Tag) -> Line
    ensures { result ≡ root_line tag }
{
    Line {
        tag,
        lits: Items::new(alloc),
        rule: Rule::Count {
            cites: Items::new(alloc),
        },
    }
}

/// The lines that end a certificate at a tag: one root line where the arcs' root tag is at least
/// that, else the plan's tree.
fn finished(
    alloc: Global,
    mut merged: Certificate,
    plan: &Plan,
    collected: &Collected,
    tag: Tag,
    root: Tag,
) -> Result<Vec<Line>, NoMemory>
    requires { length collected.now ≡ job_count plan.now.instance plan.now.split }
    ensures value { IfOk result (λ lines.
        lines.items ≡ finished plan.now.instance plan.now.split collected.now tag root.code
        merged) }
    ensures few { IfOk result (λ lines. IsNumber (length lines.items)) }
{
    if tag.code <= root.code {
        merged.add(root_line(alloc, tag))?;
        return Ok(merged.into_lines());
    }
    let lists = no_choices(alloc)?;
    merged.write_tree(plan, collected, tag, plan.steps(), &lists)?;
    Ok(merged.into_lines())
}

/// The list of no choice, alone.
fn no_choices(alloc: Global) -> Result<Vec<Items<Literal>>, NoMemory>
    ensures { IfOk result (λ lists. lists.items ≡ [] ∷ []) }
{
    let mut lists = Vec::with_capacity(alloc, 1)?;
    lists.push(Items::new(alloc))?;
    Ok(lists)
}
