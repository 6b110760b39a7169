// The answer to an instance: the workers, the verdict that follows from their outcomes, and the
// certificate.
ghost use Rattle.std.specs.Prelude.{◌≡◌, All, IfOk};
ghost use Rattle.fapp_model.specs.Instances.{IsInstance};
ghost use Rattle.fapp_plan.specs.Plans.{split_of};
ghost use Rattle.fapp_workers.specs.Collections.{IsGatheredRun};
ghost use Rattle.fapp_workers.specs.Ranges.{AreInRange};
ghost use Rattle.settle_laws.specs.Worlds.{IsKeptRight};
ghost use Rattle.fapp_run.specs.Solving.{IsAnswerFor, IsKeptPlan};

use crate::plan::shown;
use arc_levels::ArcTable;
use cert_lines::Answer;
use cert_merge::merge;
use fapp_io::NoMemory;
use fapp_model::{Choice, Instance, Items, Triple, triple_of};
use fapp_plan::Plan;
use fapp_tables::Tables;
use fapp_workers::{Gate, Gathered, Settings, solve_jobs};
use search_log::Log;
use std::alloc::Global;
use std::thread::Threads;

/// The choices of an assignment that some log keeps at that cost, or none where no log does.
fn kept_plan(
    alloc: Global,
    instance: &Instance,
    logs: &[Log],
    cost: Triple,
) -> Result<Vec<Choice>, NoMemory>
    requires valid { IsInstance instance.now }
    requires right { All (λ log. IsKeptRight instance.now log.best) logs.now }
    ensures { IfOk result (λ choices. IsKeptPlan instance.now logs.now cost choices.items) }
{
    for log in logs {
        if let Some((kept, plan)) = log.best() {
            if kept == cost {
                return shown(alloc, instance, plan);
            }
        }
    }
    Ok(Vec::new(alloc))
}

/// The answer that follows from what the workers found.
fn answer_of(
    alloc: Global,
    instance: &Instance,
    arcs: &ArcTable,
    plan: &Plan,
    fuel: u64,
    gathered: Gathered,
) -> Result<Answer, NoMemory>
    requires valid { IsInstance instance.now }
    requires arcs { arcs.now ≡ instance.now }
    requires plan { plan.now.instance ≡ instance.now }
    requires gathered { IsGatheredRun plan.now fuel gathered }
    ensures { IfOk result (IsAnswerFor instance.now plan.now.split fuel) }
{
    let Gathered {
        logs,
        collected,
        word,
        ticks: _,
    } = gathered;
    let verdict = collected.verdict(alloc, plan, word, arcs.root_tag())?;
    let choices = kept_plan(alloc, instance, &logs, triple_of(word))?;
    let lines = merge(alloc, arcs, logs, plan, &collected, &verdict)?;
    Ok(Answer {
        plan: Items::from_vec(choices),
        verdict,
        version: 1,
        lines: Items::from_vec(lines),
    })
}

/// Solves an instance by workers side by side: a least plan with its certificate, that no plan
/// meets the imperative records with a certificate of that, or, where the fuel did not suffice, the
/// best plan that was found with a certified lower bound. `NoMemory` comes where a step found no
/// memory.
pub fn solve_answer<R: Threads + Sync, G: Gate>(
    rt: &R,
    alloc: Global,
    instance: &Instance,
    settings: &Settings,
    gate: &G,
) -> Result<Answer, NoMemory>
    requires valid { IsInstance instance.now }
    requires settings { AreInRange settings.now }
    ensures { IfOk result (IsAnswerFor instance.now settings.now.split settings.now.fuel) }
{
    let tables = Tables::new(alloc, instance)?;
    let arcs = ArcTable::build(alloc, &tables)?;
    let plan = Plan::new(alloc, &tables, settings.split)?;
    let gathered = solve_jobs(rt, alloc, &tables, &arcs, &plan, settings, gate)?;
    answer_of(alloc, instance, &arcs, &plan, settings.fuel, gathered)
}
