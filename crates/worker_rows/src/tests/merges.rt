ghost use Rattle.std.specs.Prelude.{◌≡◌, ◌<◌, ◌≤◌, length, slice_index_or, IfOk, IsTrue, IfSome, Some, None};
ghost use Rattle.fapp_model.specs.Levels.{levels_of};
ghost use Rattle.fapp_model.specs.Tags.{triple_from};
ghost use Rattle.fapp_model.specs.search.Jobs.{job_count};
ghost use Rattle.cert_lines.specs.WellFormed.{is_shown};
ghost use Rattle.search_log.specs.declared.job.Outcome.TheVariants.{Spent};
ghost use Rattle.worker_rows.specs.SpentJobs.{AreSpent};

use super::read;
use arc_levels::ArcTable;
use cert_lines::{Line, lines_text};
use cert_merge::merge;
use fapp_model::{Instance, NoMemory, Tag, Triple, is_tag, levels, tag_of};
use fapp_plan::{Collected, Outcome, Plan};
use fapp_tables::Tables;
use std::alloc::Global;
use std::test::Fail;
use worked_networks::{FALLING, FREE, TORN};

// Texts, with the bound where all jobs are spent and no log has a line; and the lines of the
// certificate. The verdict is as the arcs say.
const MERGES: [(&str, Triple, &str); 5] = [
    ("", Triple { k: 0, v: 0, s: 0 }, "C 0 0 0 0 0\n"),
    (FREE, Triple { k: 0, v: 0, s: 0 }, "C 0 0 0 0 0\n"),
    (FREE, Triple { k: 12, v: 0, s: 0 }, "C 0 0 0 0 0\n"),
    (
        TORN,
        Triple { k: 12, v: 0, s: 0 },
        "C 12 0 0 1 1 0 0\nC 12 0 0 1 1 1 0\nC 12 0 0 1 0 0 0\nC 12 0 0 1 0 1 0\nC 12 0 0 0 0\n",
    ),
    (
        FALLING,
        Triple { k: 12, v: 0, s: 0 },
        "C 10 0 0 1 1 0 0\nC 5 0 0 1 1 1 0\nC 5 0 0 1 0 0 0\nC 5 0 0 0 0\n",
    ),
];

/// The outcomes where all jobs are spent.
fn all_spent(alloc: Global, plan: &Plan) -> Result<Collected, NoMemory>
    ensures { IfOk result (λ collected. AreSpent (job_count plan.now.instance plan.now.split)
        collected) }
{
    let mut collected = Collected::new(alloc, plan)?;
    for id in 0..plan.job_count() {
        collected.put(id, 0, Outcome::Spent);
    }
    Ok(collected)
}

/// A bound as a tag, if it may be shown.
fn bound(instance: &Instance, t: Triple) -> Option<Tag>
    ensures { IfSome result (λ tag. IsTrue (is_shown (levels_of instance.now)
        (triple_from tag.code))) }
{
    let levels = levels(instance);
    let is_shown = is_tag(levels, t) && (t.v > 0 || t.k == 0 || t.k == levels + 1);
    if is_shown { Some(tag_of(t)) } else { None }
}

/// The certificate of no log, where all jobs are spent.
fn certificate_of(
    alloc: Global,
    arcs: &ArcTable,
    plan: &Plan,
    word: Tag,
) -> Result<Vec<Line>, NoMemory>
    requires arcs { arcs.now ≡ plan.now.instance }
    requires word { IsTrue (is_shown (levels_of plan.now.instance) (triple_from word.code)) }
{
    let collected = all_spent(alloc, plan)?;
    let verdict = collected.verdict(alloc, plan, word, arcs.root_tag())?;
    merge(alloc, arcs, Vec::new(alloc), plan, &collected, &verdict)
}

/// The text of that certificate.
fn text_of(alloc: Global, text: &str, word: Triple) -> Result<Vec<u8>, Fail>
    requires text { length text.now ≤ 1000 }
{
    let instance = read(alloc, text)?;
    let tables = Tables::new(alloc, &instance)?;
    let arcs = ArcTable::build(alloc, &tables)?;
    let plan = Plan::new(alloc, &tables, 64)?;
    let Some(word) = bound(&instance, word) else {
        return Err("no bound".into());
    };
    let lines = certificate_of(alloc, &arcs, &plan, word)?;
    Ok(lines_text(alloc, &lines)?)
}

#[test]
fn arcs_alone_are_merged(rt: HostRuntime) -> Result<(), Fail> {
    for (text, word, wanted) in MERGES.iter() {
        assert!(rt; text.len() <= 1000);
        let found = text_of(rt.alloc(), text, *word)?;
        assert_eq!(rt; found.as_slice(), wanted.as_bytes(), "at {text}");
    }
    Ok(())
}
