ghost use Rattle.std.specs.Prelude.{◌≡◌, ℕ, max, IfOk};
ghost use Rattle.std.specs.Option.{ForSome};
ghost use Rattle.arc_levels.specs.Outside.{IsRootTag};
ghost use Rattle.fapp_model.specs.Instances.{IsInstance};
ghost use Rattle.fapp_model.specs.InstanceTags.{IsTagFor};
ghost use Rattle.fapp_model.specs.Least.{IsFeasible};
ghost use Rattle.fapp_model.specs.Tags.{triple_from};
ghost use Rattle.merge_laws.specs.Conditions.{AreOld};
ghost use Rattle.merge_laws.specs.OldRoots.{old_root};

use super::placing::{paired, rows_of};
use arc_levels::ArcTable;
use cert_lines::{Line, lines_text, root_tag};
use cert_merge::merge_after;
use fapp_gate::OpenGate;
use fapp_model::{Instance, Tag, Triple, triple_of};
use fapp_plan::Plan;
use fapp_tables::Tables;
use fapp_workers::{Gathered, Settings, solve_rows};
use std::alloc::Global;
use std::test::Fail;
use std::thread::Threads;

/// What workers find, and the text of the certificate.
#[derive(Drop)]
pub(super) struct Found {
    pub word: Triple,
    pub ticks: Vec<u64>,
    pub text: Vec<u8>,
}

/// The greater of the arcs' root tag and the greatest tag of an old root line.
fn root_of(arcs: &ArcTable, old: &[Line]) -> Tag
    requires { AreOld arcs.now old.now }
    ensures tag { IsTagFor arcs.now result }
    ensures code { (root : ℕ) × IsRootTag arcs.now (triple_from root)
        × (result.code ≡ max root (old_root old.now)) }
{
    let root = arcs.root_tag();
    match root_tag(old) {
        Some(found) if found.code > root.code => found,
        _ => root,
    }
}

/// Solves on from what old lines of these numbers, from 1, say, and from an assignment to begin
/// with.
pub(super) fn gone_on<R: Threads + Sync>(
    rt: &R,
    alloc: Global,
    instance: &Instance,
    old: &[Line],
    numbers: &[u32],
    start: Option<&[u16]>,
) -> Result<Found, Fail>
    requires valid { IsInstance instance.now }
    requires old { AreOld instance.now old.now }
    requires start { ForSome start (λ s. IsFeasible instance.now s.now) }
{
    let tables = Tables::new(alloc, instance)?;
    let arcs = ArcTable::build(alloc, &tables)?;
    let plan = Plan::new(alloc, &tables, 1)?;
    let rows = rows_of(alloc, old, numbers)?;
    let settings = Settings {
        workers: 2,
        fuel: 1003,
        split: 1,
        pool: 16,
    };
    if rows.len() > 16 {
        return Err("many rows".into());
    }
    let (gathered, placed) = solve_rows(
        rt, alloc, &tables, &arcs, &plan, &settings, &rows, start, &OpenGate,
    )?;
    let pairs = paired(alloc, &placed, numbers)?;
    let Gathered {
        logs,
        collected,
        word,
        ticks,
    } = gathered;
    let verdict = collected.verdict(alloc, &plan, word, root_of(&arcs, old))?;
    let lines = merge_after(alloc, old, &pairs, &arcs, logs, &plan, &collected, &verdict)?;
    Ok(Found {
        word: triple_of(word),
        ticks,
        text: lines_text(alloc, &lines)?,
    })
}
