// The line that settles a prefix.
ghost use Rattle.std.specs.Prelude.{◌≡◌, ◌≤◌, ◌⊎◌, [], length, None, Some, IfOk};
ghost use Rattle.std.specs.List.{AllAdjacentBelow};
ghost use Rattle.std.specs.List.Sorted.{IsPermutation};
ghost use Rattle.fapp_model.specs.declared.limits.TheConstants.{MAX_PATHS};
ghost use Rattle.fapp_model.specs.declared.tag.Tag.{Tag as SomeTag};
ghost use Rattle.fapp_model.specs.InstanceTags.{IsTagFor};
ghost use Rattle.fapp_model.specs.Instances.{IsInstance};
ghost use Rattle.fapp_model.specs.Tags.{triple_from};
ghost use Rattle.fapp_model.specs.search.Dead.{Dead};
ghost use Rattle.fapp_model.specs.search.Prefixes.{IsPrefix};
ghost use Rattle.fapp_model.specs.search.WorkOrder.{work_order};
ghost use Rattle.settle_laws.specs.Lines.{AreSorted, IsConcluded, IsLined};
ghost use Rattle.subtree_search.specs.Plans.{IsNotAfter, IsPlanOf};

use crate::explain::{Scratch, add_dead};
use fapp_cost::cost;
use fapp_model::{Items, Literal, NoMemory, Tag, tag_of};
use forward_count::Forward;
use nogood::Partial;
use search_log::{Bound, ChoiceRef, Log, LogLine, Ref};
use settle_laws::Found;
use std::alloc::Global;

/// The literals that are pushed, ascending by path.
fn sorted_literals(alloc: Global, forward: &Forward) -> Result<Items<Literal>, NoMemory>
    ensures { IfOk result (AreSorted forward.now.instance forward.now.pushed) }
{
    let mut literals = Vec::from_slice(alloc, forward.pushed())?;
    sort_literals(&mut literals);
    Ok(Items::from_vec(literals))
}

/// Puts literals in order, by path first.
fn sort_literals(literals: &mut [Literal])
    ensures same { IsPermutation literals.old literals.new }
    ensures ordered { AllAdjacentBelow IsNotAfter literals.new (length literals.new) }
{
    literals.sort_unstable();
}

/// Adds a line on the literals that are pushed.
pub fn add_line(
    alloc: Global,
    tag: Tag,
    path: Option<u16>,
    refs: Items<ChoiceRef>,
    forward: &Forward,
    log: &mut Log,
) -> Result<Found, NoMemory>
    requires { IsInstance forward.now.instance }
    ensures { IsLined forward.now.instance forward.now.pushed tag path refs log.old log.new result }
{
    let lits = sorted_literals(alloc, forward)?;
    let place = log.push(LogLine {
        tag,
        lits,
        path,
        refs,
    })?;
    Ok(Found::Settled {
        line: Ref::Own(place),
        tag,
    })
}

/// Writes what is given at each path into a plan.
fn fill(plan: &mut [u16], part: &Partial)
    requires { length plan.old ≤ MAX_PATHS }
    ensures { IsPlanOf part.now (length plan.old) plan.new }
{
    for path in 0..plan.len() {
        plan[path] = part.get(path as u16).unwrap_or(0);
    }
}

/// Gives the assignment that is pushed to the log, offers its cost, and adds a Count line at that
/// cost.
pub fn conclude<B: Bound>(
    alloc: Global,
    scratch: &mut Scratch,
    plan: &mut [u16],
    forward: &mut Forward,
    bound: &mut B,
    log: &mut Log,
) -> Result<Found, NoMemory>
    requires valid { IsInstance forward.old.instance }
    requires room { length plan.old ≡ length forward.old.instance.paths }
    requires prefix { IsPrefix forward.old.instance forward.old.pushed }
    requires full { length (work_order forward.old.instance) ≤ length forward.old.pushed }
    requires alive { (tag : SomeTag) × IsTagFor forward.old.instance tag
        × (tag.code ≤ (B.state bound.old).told)
        × (Dead forward.old.instance (triple_from tag.code) forward.old.pushed → ⊥) }
    ensures bound { (was : B) → B.since was bound.old → B.since was bound.new }
    ensures front { forward.new ≡ forward.old }
    ensures concluded { IsConcluded forward.old.instance forward.old.pushed (B.state bound.old)
        (B.state bound.new) log.old log.new result }
{
    fill(plan, forward.partial());
    let Some(triple) = cost(forward.tables().instance(), plan) else {
        unreachable!()
    };
    log.keep_best(triple, plan)?;
    let tag = tag_of(triple);
    bound.offer(tag);
    add_dead(alloc, scratch, tag, forward, log)
}
