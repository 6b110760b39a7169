// The paths that every job's prefix names.
ghost use Rattle.std.specs.Prelude.{◌≡◌, ◌<◌, ◌≤◌, length, take, All, IfOk};
ghost use Rattle.fapp_model.specs.declared.limits.TheConstants.{MAX_PATH_CHOICES, MAX_SPLIT};
ghost use Rattle.fapp_model.specs.Assignments.{count_at};
ghost use Rattle.fapp_model.specs.Instances.{IsInstance};
ghost use Rattle.fapp_model.specs.search.Jobs.{depth, ways};
ghost use Rattle.fapp_model.specs.search.WorkOrder.{work_order};
ghost use Rattle.fapp_plan.specs.NamedPaths.{steps_along};

use fapp_model::{Instance, MAX_DEPTH, NoMemory, choice_count};
use std::alloc::Global;

/// A path that every job's prefix names.
#[derive(Clone, Copy, Debug, PartialEq, Eq)]
pub struct Step {
    pub path: u16,
    /// How many choices it has.
    pub choices: u32,
    /// How many ways to choose there are for the paths of the prefix behind it.
    pub ways: u32,
}

/// How far the prefixes go.
#[derive(Clone, Copy, Debug)]
pub struct Reach {
    /// How many paths they name.
    pub depth: usize,
    /// How many ways to choose these have together.
    pub ways: u32,
}

/// The most paths of the work order, up to `MAX_DEPTH`, that have together at most so many ways to
/// choose.
pub fn reach_of(instance: &Instance, order: &[u16], split: u32) -> Reach
    requires instance { IsInstance instance.now }
    requires order { order.now ≡ work_order instance.now }
    requires some { 1 ≤ split }
    requires few { split ≤ MAX_SPLIT }
    ensures depth { result.depth ≡ depth instance.now split }
    ensures ways { result.ways ≡ ways instance.now
        (take (depth instance.now split) (work_order instance.now)) }
{
    let most = order.len().min(MAX_DEPTH);
    let mut ways = 1;
    for place in 0..most {
        let more = ways * choices_of(instance, order[place]);
        if more > split {
            return Reach { depth: place, ways };
        }
        ways = more;
    }
    Reach { depth: most, ways }
}

/// How many choices the path at a position has.
fn choices_of(instance: &Instance, path: u16) -> u32
    requires instance { IsInstance instance.now }
    requires path { path < length instance.now.paths }
    ensures count { result ≡ count_at instance.now path }
    ensures some { 0 < result }
    ensures few { result ≤ MAX_PATH_CHOICES }
{
    choice_count(&instance.paths.as_slice()[path as usize])
}

/// The steps along some paths, which have so many ways to choose.
pub fn steps_along(
    alloc: Global,
    instance: &Instance,
    paths: &[u16],
    total: u32,
) -> Result<Vec<Step>, NoMemory>
    requires instance { IsInstance instance.now }
    requires paths { All (λ path. path < length instance.now.paths) paths.now }
    requires total { total ≡ ways instance.now paths.now }
    ensures { IfOk result (λ steps. steps.items ≡ steps_along instance.now paths.now) }
{
    let mut behind = total;
    let mut steps = Vec::with_capacity(alloc, paths.len())?;
    for path in paths {
        let choices = choices_of(instance, *path);
        behind /= choices;
        steps.push(Step {
            path: *path,
            choices,
            ways: behind,
        })?;
    }
    Ok(steps)
}
