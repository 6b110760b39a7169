ghost use Rattle.std.specs.Prelude.{◌≡◌, length, map, IfOk};
ghost use Rattle.std.specs.List.{AllAdjacentBelow};
ghost use Rattle.std.specs.List.Sorted.{IsPermutation};
ghost use Rattle.fapp_model.specs.Instances.{IsInstance};
ghost use Rattle.fapp_model.specs.search.WorkOrder.{work_order};
ghost use Rattle.fapp_tables.specs.PathDegrees.{IsPlannedBefore, all_degrees, all_places};

use fapp_model::{Instance, NoMemory};
use std::alloc::Global;
use std::cmp::Reverse;

/// A path's place in the work order: those that more records name come first, then those that stand
/// earlier.
#[derive(Clone, Copy, Debug, PartialEq, Eq, PartialOrd, Ord)]
pub struct Place {
    pub degree: Reverse<u32>,
    pub path: u16,
}

/// The work order.
pub fn work_order(alloc: Global, instance: &Instance) -> Result<Vec<u16>, NoMemory>
    requires { IsInstance instance.now }
    ensures { IfOk result (λ order. order.items ≡ work_order instance.now) }
{
    let mut places = places_of(alloc, instance)?;
    sort_places(&mut places);
    paths_of(alloc, &places)
}

/// The paths of places, in their order.
fn paths_of(alloc: Global, places: &[Place]) -> Result<Vec<u16>, NoMemory>
    ensures { IfOk result (λ paths. paths.items ≡ map (λ p. p.path) places.now) }
{
    places.iter().map(|place| place.path).collect(alloc)
}

/// The places of all paths, as the paths stand.
fn places_of(alloc: Global, instance: &Instance) -> Result<Vec<Place>, NoMemory>
    requires { IsInstance instance.now }
    ensures { IfOk result (λ places. places.items ≡ all_places instance.now) }
{
    let degrees = degrees_of(alloc, instance)?;
    let mut places = Vec::with_capacity(alloc, degrees.len())?;
    for path in 0..degrees.len() {
        places.push(Place {
            degree: Reverse(degrees[path]),
            path: path as u16,
        })?;
    }
    Ok(places)
}

/// How many records name each path.
fn degrees_of(alloc: Global, instance: &Instance) -> Result<Vec<u32>, NoMemory>
    requires { IsInstance instance.now }
    ensures { IfOk result (λ degrees. degrees.items ≡ all_degrees instance.now) }
{
    let mut degrees = vec![in alloc; 0u32; instance.paths.len()]?;
    for constraint in instance.records.as_slice() {
        degrees[constraint.first_path() as usize] += 1;
        degrees[constraint.second_path() as usize] += 1;
    }
    Ok(degrees)
}

/// Puts places in order.
fn sort_places(places: &mut [Place])
    ensures same { IsPermutation places.old places.new }
    ensures ordered { AllAdjacentBelow IsPlannedBefore places.new (length places.new) }
{
    places.sort_unstable();
}
