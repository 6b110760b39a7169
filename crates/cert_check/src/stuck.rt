//! Whether a path has no choice left. Where a tag has no limit, nothing more is asked of the
//! further paths.

ghost use Rattle.std.specs.Prelude.{◌≡◌, ◌<◌, length, is_none, IfOk, All, ◌&&◌};
ghost use Rattle.fapp_model.specs.search.Partials.{IsLiteral};
ghost use Rattle.cert_check.specs.Scenes.{IsScene, pair_by};
ghost use Rattle.cert_check.specs.Weighed.{IsNear, any_stuck, near_at, near_stuck, stuck_by};

use crate::exclusion::Scene;
use crate::judging::{count_of, far_stuck};
use crate::least::{names, remains, ties_of};
use fapp_model::{Literal, NoMemory};
use std::alloc::Global;

/// Whether no choice of a path remains.
fn is_spent(alloc: Global, scene: Scene, literals: &[Literal], path: u16) -> Result<bool, NoMemory>
    requires scene { IsScene scene }
    requires literals { All (IsLiteral scene.instance.now) literals.now }
    requires path { path < length scene.instance.now.paths }
    ensures { IfOk result (λ spent. spent ≡ is_none (pair_by scene.entry literals.now path)) }
{
    let ties = ties_of(alloc, scene, literals, path)?;
    let count = count_of(scene.instance, path);
    for index in 0..count {
        let a = Literal {
            path,
            choice: index as u16,
        };
        if remains(scene, ties.as_slice(), literals, a) {
            return Ok(false);
        }
    }
    Ok(true)
}

/// Whether a marked path has no choice left.
fn is_near_stuck(
    alloc: Global,
    scene: Scene,
    literals: &[Literal],
    near: &[bool],
    path: u16,
) -> Result<bool, NoMemory>
    requires scene { IsScene scene }
    requires literals { All (IsLiteral scene.instance.now) literals.now }
    requires near { length near.now ≡ length scene.instance.now.paths }
    requires path { path < length scene.instance.now.paths }
    ensures { IfOk result (λ stuck. stuck ≡ (near_at near.now path
        && stuck_by scene.entry literals.now path)) }
{
    if !near[path as usize] {
        return Ok(false);
    }
    if names(literals, path) {
        return Ok(false);
    }
    is_spent(alloc, scene, literals, path)
}

fn near_stuck(
    alloc: Global,
    scene: Scene,
    literals: &[Literal],
    near: &[bool],
) -> Result<bool, NoMemory>
    requires scene { IsScene scene }
    requires literals { All (IsLiteral scene.instance.now) literals.now }
    requires near { length near.now ≡ length scene.instance.now.paths }
    ensures { IfOk result (λ stuck. stuck ≡ near_stuck scene.entry literals.now near.now) }
{
    for path in 0..scene.instance.paths.len() {
        if is_near_stuck(alloc, scene, literals, near, path as u16)? {
            return Ok(true);
        }
    }
    Ok(false)
}

/// Whether some path has no choice left; marked paths are looked at first.
pub(crate) fn any_stuck(
    alloc: Global,
    scene: Scene,
    literals: &[Literal],
    near: &[bool],
) -> Result<bool, NoMemory>
    requires scene { IsScene scene }
    requires literals { All (IsLiteral scene.instance.now) literals.now }
    requires near { IsNear scene.instance.now literals.now near.now }
    ensures { IfOk result (λ stuck. stuck ≡ any_stuck scene.entry literals.now) }
{
    if near_stuck(alloc, scene, literals, near)? {
        return Ok(true);
    }
    Ok(far_stuck(scene, literals, near))
}
