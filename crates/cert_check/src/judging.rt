//! Whether literals are judged dead: a record between them is hard-bad, one of them is excluded, a
//! further path has no choice left, or they weigh too much.

ghost use Rattle.std.specs.Prelude.{◌≡◌, ◌<◌, ◌≤◌, ◌^◌, length, IfOk, All, not, ◌&&◌};
ghost use Rattle.std.specs.List.{list_any};
ghost use Rattle.fapp_model.specs.search.Partials.{IsLiteral};
ghost use Rattle.fapp_model.specs.Assignments.{count_at};
ghost use Rattle.fapp_model.specs.Instances.{IsInstance};
ghost use Rattle.fapp_model.specs.Tags.{mode_level, triple_from};
ghost use Rattle.cert_check.specs.Scenes.{IsScene, all_excluded, dead_by, excluded_by};
ghost use Rattle.cert_check.specs.Weighed.{IsWeighedRow, IsOwn, IsNear, IsStep, IsWeighed, near_at, far_stuck, over_by, stuck_by};
ghost use Rattle.cert_check.specs.Weights.{whole_most};

use crate::between::{clashes_with, row};
use crate::exclusion::{Scene, is_excluded};
use crate::least::{least, names, ties_of};
use crate::near::near_paths;
use crate::stuck::any_stuck;
use crate::weight::Weight;
use fapp_model::{Instance, Literal, NoMemory, choice_count, triple_of};
use std::alloc::Global;

/// What the records between a literal and the others add that name its path first. `None` where one
/// is hard-bad.
fn own_row(
    alloc: Global,
    scene: Scene,
    literals: &[Literal],
    a: Literal,
) -> Result<Option<Weight>, NoMemory>
    requires scene { IsScene scene }
    requires literals { All (IsLiteral scene.instance.now) literals.now }
    requires few { length literals.now ≤ 2 ^ 14 }
    requires literal { IsLiteral scene.instance.now a }
    ensures { IfOk result (IsWeighedRow scene.entry.instance.now scene.entry.level literals.now a) }
{
    let ties = ties_of(alloc, scene, literals, a.path)?;
    let places = ties.as_slice();
    if clashes_with(scene.instance, places, scene.level, literals, a) {
        return Ok(None);
    }
    Ok(Some(row(scene.instance, places, scene.level, literals, a)))
}

/// What the records between the literals add. `None` where one of them is hard-bad.
fn own_weight(alloc: Global, scene: Scene, literals: &[Literal]) -> Result<Option<Weight>, NoMemory>
    requires scene { IsScene scene }
    requires literals { All (IsLiteral scene.instance.now) literals.now }
    requires few { length literals.now ≤ 2 ^ 14 }
    ensures { IfOk result (IsOwn scene.entry.instance.now scene.entry.level literals.now) }
{
    let mut sum = Weight { v: 0, s: 0 };
    for a in literals {
        match own_row(alloc, scene, literals, *a)? {
            None => return Ok(None),
            Some(more) => {
                sum.v += more.v;
                sum.s += more.s;
            }
        }
    }
    Ok(Some(sum))
}

fn any_excluded(scene: Scene, literals: &[Literal]) -> bool
    requires scene { IsScene scene }
    requires literals { All (IsLiteral scene.instance.now) literals.now }
    ensures { result ≡ list_any (excluded_by scene.entry literals.now) literals.now }
{
    for a in literals {
        if is_excluded(scene, literals, *a) {
            return true;
        }
    }
    false
}

/// What a marked path adds. `None` where it has no choice left.
fn step_of(
    alloc: Global,
    scene: Scene,
    literals: &[Literal],
    near: &[bool],
    path: u16,
) -> Result<Option<Weight>, NoMemory>
    requires scene { IsScene scene }
    requires literals { All (IsLiteral scene.instance.now) literals.now }
    requires few { length literals.now ≤ 2 ^ 14 }
    requires near { IsNear scene.instance.now literals.now near.now }
    requires path { path < length scene.instance.now.paths }
    ensures { IfOk result (IsStep scene.entry literals.now near.now path) }
{
    if !near[path as usize] {
        return Ok(Some(Weight { v: 0, s: 0 }));
    }
    if names(literals, path) {
        return Ok(Some(Weight { v: 0, s: 0 }));
    }
    least(alloc, scene, literals, path)
}

/// What the further paths add. `None` where a marked one has no choice left.
fn weigh(
    alloc: Global,
    scene: Scene,
    literals: &[Literal],
    near: &[bool],
) -> Result<Option<Weight>, NoMemory>
    requires scene { IsScene scene }
    requires literals { All (IsLiteral scene.instance.now) literals.now }
    requires few { length literals.now ≤ 2 ^ 14 }
    requires near { IsNear scene.instance.now literals.now near.now }
    ensures { IfOk result (IsWeighed scene.entry literals.now near.now) }
{
    let mut sum = Weight { v: 0, s: 0 };
    for path in 0..scene.instance.paths.len() {
        match step_of(alloc, scene, literals, near, path as u16)? {
            None => return Ok(None),
            Some(more) => {
                sum.v += more.v;
                sum.s += more.s;
            }
        }
    }
    Ok(Some(sum))
}

/// Whether each choice of a path is excluded.
fn all_excluded(scene: Scene, literals: &[Literal], path: u16) -> bool
    requires scene { IsScene scene }
    requires path { path < length scene.instance.now.paths }
    ensures { result ≡ all_excluded scene.entry literals.now path }
{
    let count = count_of(scene.instance, path);
    for index in 0..count {
        let a = Literal {
            path,
            choice: index as u16,
        };
        if !is_excluded(scene, literals, a) {
            return false;
        }
    }
    true
}

pub(crate) fn count_of(instance: &Instance, path: u16) -> u32
    requires instance { IsInstance instance.now }
    requires path { path < length instance.now.paths }
    ensures count { result ≡ count_at instance.now path }
    ensures few { result ≤ 2 ^ 16 }
{
    choice_count(&instance.paths.as_slice()[path as usize])
}

/// Whether a path without a mark has no choice left.
fn is_far_stuck(scene: Scene, literals: &[Literal], near: &[bool], path: u16) -> bool
    requires scene { IsScene scene }
    requires near { IsNear scene.instance.now literals.now near.now }
    requires path { path < length scene.instance.now.paths }
    ensures { result ≡ (not (near_at near.now path) && stuck_by scene.entry literals.now path) }
{
    if near[path as usize] {
        return false;
    }
    if names(literals, path) {
        return false;
    }
    all_excluded(scene, literals, path)
}

pub(crate) fn far_stuck(scene: Scene, literals: &[Literal], near: &[bool]) -> bool
    requires scene { IsScene scene }
    requires near { IsNear scene.instance.now literals.now near.now }
    ensures { result ≡ far_stuck scene.entry literals.now near.now }
{
    for path in 0..scene.instance.paths.len() {
        if is_far_stuck(scene, literals, near, path as u16) {
            return true;
        }
    }
    false
}

/// Whether the literals' own weight and what the further paths add come to the tag's limit.
fn is_over(scene: Scene, own: Weight, more: Weight) -> bool
    requires own { (own.v ≤ whole_most) × (own.s ≤ whole_most) }
    requires more { (more.v ≤ whole_most) × (more.s ≤ whole_most) }
    ensures { result ≡ over_by scene.entry own more }
{
    let limit = triple_of(scene.tag);
    if limit.v == 0 {
        return false;
    }
    let least = Weight {
        v: u64::from(limit.v),
        s: u64::from(limit.s),
    };
    least.is_at_most(Weight {
        v: own.v + more.v,
        s: own.s + more.s,
    })
}

/// Whether literals are judged dead. Only paths that share a record with them are counted; the
/// others are looked at where the literals are not dead without them.
pub(crate) fn is_dead(alloc: Global, scene: Scene, literals: &[Literal]) -> Result<bool, NoMemory>
    requires scene { IsScene scene }
    requires level { scene.level ≡ mode_level (triple_from scene.tag.code) }
    requires literals { All (IsLiteral scene.instance.now) literals.now }
    requires few { length literals.now ≤ 2 ^ 14 }
    ensures { IfOk result (λ dead. dead ≡ dead_by scene.entry literals.now) }
{
    if any_excluded(scene, literals) {
        return Ok(true);
    }
    let Some(own) = own_weight(alloc, scene, literals)? else {
        return Ok(true);
    };
    let near = near_paths(alloc, scene, literals)?;
    if triple_of(scene.tag).v == 0 {
        return any_stuck(alloc, scene, literals, near.as_slice());
    }
    let Some(more) = weigh(alloc, scene, literals, near.as_slice())? else {
        return Ok(true);
    };
    if is_over(scene, own, more) {
        return Ok(true);
    }
    Ok(far_stuck(scene, literals, near.as_slice()))
}
