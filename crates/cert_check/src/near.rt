//! The paths that share a record with some literals.

ghost use Rattle.std.specs.Prelude.{◌≡◌, ◌<◌, length, IfOk, All};
ghost use Rattle.fapp_model.specs.search.Partials.{IsLiteral};
ghost use Rattle.fapp_model.specs.Instances.{IsInstance};
ghost use Rattle.fapp_model.specs.Records.{first_path, second_path};
ghost use Rattle.cert_check.specs.RecordsNamed.{ArePlaces, record_at, touches};
ghost use Rattle.cert_check.specs.Scenes.{IsScene};
ghost use Rattle.cert_check.specs.Weighed.{IsNear, near_at, MarksEnds, MarksAll};

use crate::exclusion::Scene;
use crate::least::places_at;
use fapp_model::{Instance, Literal, NoMemory, Record};
use std::alloc::Global;

/// Marks both paths of a record.
fn mark(near: &mut [bool], constraint: &Record)
    requires first { first_path constraint.now < length near.old }
    requires second { second_path constraint.now < length near.old }
    ensures length { length near.new ≡ length near.old }
    ensures kept { MarksEnds constraint.now near.old near.new }
{
    near[constraint.first_path() as usize] = true;
    near[constraint.second_path() as usize] = true;
}

/// Marks the paths of some records.
fn mark_ends(instance: &Instance, places: &[u32], near: &mut [bool])
    requires instance { IsInstance instance.now }
    requires places { ArePlaces instance.now places.now }
    requires whole { length near.old ≡ length instance.now.paths }
    ensures length { length near.new ≡ length near.old }
    ensures kept { MarksAll instance.now places.now near.old near.new }
{
    let constraints = instance.records.as_slice();
    for place in places {
        mark(near, &constraints[*place as usize]);
    }
}

/// Marks each path that shares a record with a literal.
fn mark_near(scene: Scene, literals: &[Literal], near: &mut [bool])
    requires scene { IsScene scene }
    requires literals { All (IsLiteral scene.instance.now) literals.now }
    requires whole { length near.old ≡ length scene.instance.now.paths }
    ensures { IsNear scene.entry.instance.now literals.now near.new }
{
    for a in literals {
        mark_ends(scene.instance, places_at(scene, a.path), near);
    }
}

/// A mark for each path that shares a record with a literal.
pub(crate) fn near_paths(
    alloc: Global,
    scene: Scene,
    literals: &[Literal],
) -> Result<Vec<bool>, NoMemory>
    requires scene { IsScene scene }
    requires literals { All (IsLiteral scene.instance.now) literals.now }
    ensures { IfOk result (λ near. IsNear scene.entry.instance.now literals.now near.items) }
{
    let mut near = vec![in alloc; false; scene.instance.paths.len()]?;
    mark_near(scene, literals, near.as_mut_slice());
    Ok(near)
}
