// The search of one job.
ghost use Rattle.std.specs.Prelude.{◌≡◌, ◌↔◌, ◌≤◌, ℕ, List, [], length, OnErr, OnOk};
ghost use Rattle.fapp_model.specs.declared.instance.Instance.{Instance};
ghost use Rattle.fapp_model.specs.declared.literal.Literal.{Literal};
ghost use Rattle.fapp_model.specs.Levels.{levels_of};
ghost use Rattle.fapp_model.specs.search.Prefixes.{IsPrefix};
ghost use Rattle.choice_counts.specs.ForwardStates.{at_level, with_literals};
ghost use Rattle.search_log.specs.Bounds.{BoundState};
ghost use Rattle.settle_laws.specs.Lined.{Lined};
ghost use Rattle.settle_laws.specs.Settling.{Settles};
ghost use Rattle.settle_laws.specs.Worlds.{World, world};
ghost use Rattle.subtree_search.specs.Closings.{IsClosing};
ghost use Rattle.subtree_search.specs.Walks.{IsReady};

use crate::lines::add_line;
use crate::offering::publish;
use crate::prefix::{push_all, take_all_back};
use crate::walk::{Walk, explore};
use fapp_model::{Items, NoMemory};
use forward_count::Forward;
use search_log::{Bound, Fuel, Job, Log, Outcome, Ref, Shared};
use settle_laws::Found;
use std::alloc::Global;

/// Searches the prefix that is pushed. Where it is dead at once, a line says so.
fn search_prefix<B: Bound, H: Shared>(
    walk: &mut Walk,
    forward: &mut Forward,
    fuel: &mut Fuel,
    bound: &mut B,
    shared: &mut H,
    log: &mut Log,
) -> Result<Found, NoMemory>
    requires ready { IsReady forward.old.instance walk.old }
    requires empty { walk.old.nodes.items ≡ [] }
    requires begins { walk.old.recall.first ≡ length log.old.lines }
    requires unseen { walk.old.seen.cites.items ≡ [] }
    requires prefix { IsPrefix forward.old.instance forward.old.pushed }
    requires serves { H.serves shared.old forward.old.instance }
    ensures bound { (was : B) → B.since was bound.old → B.since was bound.new }
    ensures shared { (was : H) → H.since was shared.old → H.since was shared.new }
    ensures serves { (instance : Instance) →
        H.serves shared.old instance ↔ H.serves shared.new instance }
    ensures front { forward.new ≡ with_literals forward.old forward.new.pushed }
    ensures lined { Lined forward.old.instance walk.old.level forward.old.pushed
        (world fuel.old (B.state bound.old) (H.state shared.old) log.old)
        (world fuel.new (B.state bound.new) (H.state shared.new) log.new) result }
{
    let alloc = walk.alloc;
    match explore(walk, forward, fuel, bound, shared, log)? {
        Found::Dead { tag } => add_line(alloc, tag, None, Items::new(alloc), forward, log),
        found => Ok(found),
    }
}

/// Offers the line that settles the job. Where none does, the lines from that place on are cut.
fn finish<H: Shared>(
    found: Result<Found, NoMemory>,
    from: u32,
    shared: &mut H,
    log: &mut Log,
) -> Result<Outcome, NoMemory>
    requires closing { (instance : Instance) × (level : ℕ) × (literals : List Literal)
        × (old : World) × (fuel : ℕ) × (bound : BoundState) × H.serves shared.old instance
        × IsClosing instance level literals old (world fuel bound (H.state shared.old) log.old) from
        found }
    ensures shared { (was : H) → H.since was shared.old → H.since was shared.new }
    ensures serves { (instance : Instance) →
        H.serves shared.old instance ↔ H.serves shared.new instance }
    ensures settled { (instance : Instance) (level : ℕ) (literals : List Literal) (old : World)
        (fuel : ℕ) (bound : BoundState) →
        IsClosing instance level literals old (world fuel bound (H.state shared.old) log.old) from
        found →
        Settles instance level literals old (world fuel bound (H.state shared.new) log.new) result }
{
    let found = match found {
        Ok(found) => found,
        Err(_) => {
            log.cut(from);
            return Err(NoMemory);
        }
    };
    match found {
        Found::Settled { line, tag } => match line {
            Ref::Row(_) => Ok(Outcome::Refuted { line, tag }),
            Ref::Own(place) => match publish(place, shared, log) {
                Ok(()) => Ok(Outcome::Refuted { line, tag }),
                Err(_) => {
                    log.cut(from);
                    Err(NoMemory)
                }
            },
        },
        Found::Moot { seen } => {
            log.cut(from);
            Ok(Outcome::Moot { seen })
        }
        Found::Spent => {
            log.cut(from);
            Ok(Outcome::Spent)
        }
        Found::Dead { .. } => unreachable!(),
    }
}

/// Searches a job: each assignment that extends its prefix, at its level. `forward` has no literal
/// before and after. It counts at the job's level after, and at the level that it had where
/// `NoMemory` comes.
///
/// Refuted names the line or row that settles the job, Moot what the bound told where it decided,
/// Spent that the fuel did not suffice. `NoMemory` comes where room for the open nodes, for
/// explanations, a line, the kept assignment or a segment could not be had. After Moot, Spent and
/// `NoMemory` the log has no line of this job; fuel, bound, rows and the kept assignment stay.
pub fn settle<B: Bound, H: Shared>(
    alloc: Global,
    job: &Job,
    forward: &mut Forward,
    fuel: &mut Fuel,
    bound: &mut B,
    shared: &mut H,
    log: &mut Log,
) -> Result<Outcome, NoMemory>
    requires empty { forward.old.pushed ≡ [] }
    requires level { job.now.level ≤ levels_of forward.old.instance }
    requires prefix { IsPrefix forward.old.instance job.now.prefix }
    requires serves { H.serves shared.old forward.old.instance }
    ensures bound { (was : B) → B.since was bound.old → B.since was bound.new }
    ensures shared { (was : H) → H.since was shared.old → H.since was shared.new }
    ensures serves { (instance : Instance) →
        H.serves shared.old instance ↔ H.serves shared.new instance }
    ensures ok { OnOk result (forward.new ≡ at_level forward.old job.now.level) }
    ensures err { OnErr result (forward.new ≡ forward.old) }
    ensures settles { Settles forward.old.instance job.now.level job.now.prefix
        (world fuel.old (B.state bound.old) (H.state shared.old) log.old)
        (world fuel.new (B.state bound.new) (H.state shared.new) log.new) result }
{
    let from = log.len();
    let mut walk = Walk::new(
        alloc,
        job.level,
        forward.tables().instance().paths.len(),
        from,
    )?;
    let before = forward.level();
    forward.keep_level(job.level);
    push_all(forward, job.prefix.as_slice());
    let found = search_prefix(&mut walk, forward, fuel, bound, shared, log);
    take_all_back(forward);
    let outcome = finish(found, from, shared, log);
    if outcome.is_err() {
        forward.keep_level(before);
    }
    outcome
}
