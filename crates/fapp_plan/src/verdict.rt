// The verdict that follows from what became of the jobs.
ghost use Rattle.std.specs.Prelude.{◌≡◌, ◌*◌, ◌+◌, ◌<◌, ◌≤◌, max, min, length, map, slice_range, All, IsTrue, IfOk};
ghost use Rattle.fapp_model.specs.InstanceTags.{IsTagFor};
ghost use Rattle.fapp_model.specs.Levels.{levels_of};
ghost use Rattle.fapp_model.specs.Tags.{triple_from};
ghost use Rattle.fapp_model.specs.search.Jobs.{job_count, prefixes};
ghost use Rattle.cert_lines.specs.WellFormed.{IsVerdict, is_shown};
ghost use Rattle.cert_lines.specs.acceptance.LineFaults.{first_of};
ghost use Rattle.fapp_plan.specs.Outcomes.{IsPlacedFor, greatest_of, outcomes_at, refuted_at, refuted_code, refuted_everywhere, settled_by, settling};
ghost use Rattle.fapp_plan.specs.VerdictRule.{IsFirstOpen, IsVerdictOf, open_level, settled};

use crate::collected::Collected;
use crate::jobs::Plan;
use crate::sorting::sorted_by_path;
use cert_lines::Verdict;
use fapp_model::{Instance, NoMemory, Tag, Triple, levels, triple_of};
use search_log::{Outcome, Ref};
use std::alloc::Global;

/// The greatest tag of the Refuted ones among some outcomes, or (0, 0, 0).
fn greatest_tag(outcomes: &[Option<(u32, Outcome)>]) -> Tag
    ensures { result.code ≡ greatest_of (map refuted_code outcomes.now) }
{
    let mut greatest = Tag { code: 0 };
    for outcome in outcomes {
        greatest = greater(greatest, refuted_tag(outcome));
    }
    greatest
}

/// The tag of an outcome where it is Refuted, else (0, 0, 0).
fn refuted_tag(outcome: &Option<(u32, Outcome)>) -> Tag
    ensures { result.code ≡ refuted_code outcome.now }
{
    match outcome {
        Some((_, Outcome::Refuted { tag, .. })) => *tag,
        _ => Tag { code: 0 },
    }
}

/// What settles an outcome's prefix at a tag, where the outcome is Refuted at that tag or above.
fn settling(outcome: &Option<(u32, Outcome)>, tag: Tag) -> Option<(u32, Ref)>
    ensures { result ≡ settling tag.code outcome.now }
{
    match outcome {
        Some((log, Outcome::Refuted { line, tag: found })) if found.code >= tag.code => Some((
            *log, *line,
        )),
        _ => None,
    }
}

/// The first of these.
fn first_settling(outcomes: &[Option<(u32, Outcome)>], tag: Tag) -> Option<(u32, Ref)>
    ensures { result ≡ first_of (settling tag.code) outcomes.now }
{
    for outcome in outcomes {
        if let Some(found) = settling(outcome, tag) {
            return Some(found);
        }
    }
    None
}

/// The greater of two tags.
fn greater(t: Tag, u: Tag) -> Tag
    ensures { result.code ≡ max t.code u.code }
{
    if t.code < u.code { u } else { t }
}

/// The lesser of two tags.
fn lesser(t: Tag, u: Tag) -> Tag
    ensures { result.code ≡ min t.code u.code }
{
    if t.code < u.code { t } else { u }
}

/// The verdict on a bound that nothing costs less than.
fn settled(instance: &Instance, best: Triple) -> Verdict
    ensures { result ≡ settled instance.now best }
{
    if best.k == levels(instance) + 1 {
        Verdict::NoneFeasible
    } else {
        Verdict::Best(best)
    }
}

/// The level of a bound, or the last level where the bound is the top.
fn open_level(instance: &Instance, best: Triple) -> u32
    ensures { result ≡ open_level instance.now best }
{
    let last = levels(instance);
    if best.k == last + 1 { last } else { best.k }
}

impl Collected {
    /// The greatest tag at which a prefix is refuted, or (0, 0, 0).
    pub fn refuted_at(&self, plan: &Plan, place: u32) -> Tag
        requires planned { length self.now ≡ job_count plan.now.instance plan.now.split }
        requires place { place < length (prefixes plan.now.instance plan.now.split) }
        ensures { result.code ≡ refuted_at plan.now.instance self.now place }
    {
        greatest_tag(self.outcomes_at(plan, place))
    }

    /// What settles a prefix at a tag: the place of the log of the first of its outcomes, by
    /// number, that is Refuted at that tag or above, and what says so. None comes exactly where no
    /// outcome of the prefix is.
    #[tactic(auto, unfolding(crate::specs::Outcomes::settled_by))]
    pub fn settled_by(&self, plan: &Plan, place: u32, tag: Tag) -> Option<(u32, Ref)>
        requires planned { length self.now ≡ job_count plan.now.instance plan.now.split }
        requires place { place < length (prefixes plan.now.instance plan.now.split) }
        ensures { result ≡ settled_by plan.now.instance self.now tag.code place }
    {
        first_settling(self.outcomes_at(plan, place), tag)
    }

    /// The outcomes of a prefix's jobs.
    fn outcomes_at(&self, plan: &Plan, place: u32) -> &[Option<(u32, Outcome)>]
        requires planned { length self.now ≡ job_count plan.now.instance plan.now.split }
        requires place { place < length (prefixes plan.now.instance plan.now.split) }
        ensures { result.now ≡ outcomes_at plan.now.instance self.now place }
    {
        let jobs = levels(plan.instance()) as usize + 1;
        let first = place as usize * jobs;
        &self.outcomes()[first..first + jobs]
    }

    /// The least of these over all prefixes.
    fn refuted_everywhere(&self, plan: &Plan) -> Tag
        requires { length self.now ≡ job_count plan.now.instance plan.now.split }
        ensures { result.code ≡ refuted_everywhere plan.now.instance plan.now.split self.now }
    {
        let count = plan.prefix_count();
        let mut least = self.refuted_at(plan, 0);
        for place in 1..count {
            least = lesser(least, self.refuted_at(plan, place));
        }
        least
    }

    /// The first prefix that is refuted below a tag only.
    fn first_open(&self, plan: &Plan, word: Tag) -> u32
        requires planned { length self.now ≡ job_count plan.now.instance plan.now.split }
        requires open { refuted_everywhere plan.now.instance plan.now.split self.now < word.code }
        ensures { IsFirstOpen plan.now.instance plan.now.split self.now word.code result }
    {
        for place in 0..plan.prefix_count() {
            if self.refuted_at(plan, place) < word {
                return place;
            }
        }
        unreachable!()
    }

    /// The verdict that follows from all outcomes, the last bound, and a tag that no assignment
    /// costs less than.
    ///
    /// With r the greater of that tag and the least, over the prefixes, of the greatest tag at
    /// which the prefix is refuted: none feasible where the bound and r are (`levels + 1`, 0, 0),
    /// best where the bound is below and r is at least it, and else open, with the first prefix
    /// that is refuted below the bound only.
    ///
    /// The outcomes are those of this plan's jobs; a job that was not put counts as not refuted.
    /// The bound is one that may be shown: (0, 0, 0), (`levels + 1`, 0, 0), or a tag with a number
    /// of violations. Both tags are the instance's.
    pub fn verdict(
        &self,
        alloc: Global,
        plan: &Plan,
        word: Tag,
        arcs: Tag,
    ) -> Result<Verdict, NoMemory>
        requires planned { length self.now ≡ job_count plan.now.instance plan.now.split }
        requires outcomes { All (IsPlacedFor plan.now.instance) self.now }
        requires word { IsTrue (is_shown (levels_of plan.now.instance) (triple_from word.code)) }
        requires arcs { IsTagFor plan.now.instance arcs }
        ensures rule { IfOk result (IsVerdictOf plan.now.instance plan.now.split self.now word.code
            arcs.code) }
        ensures formed { IfOk result (IsVerdict plan.now.instance) }
    {
        let best = triple_of(word);
        let lower = greater(arcs, self.refuted_everywhere(plan));
        if lower.code >= word.code {
            return Ok(settled(plan.instance(), best));
        }
        let place = self.first_open(plan, word);
        let prefix = plan.prefix(alloc, place)?;
        Ok(Verdict::Open {
            best,
            lower,
            level: open_level(plan.instance(), best),
            prefix: sorted_by_path(alloc, prefix.as_slice())?,
        })
    }
}
