//! The least that a further path adds.

ghost use Rattle.std.specs.Prelude.{◌≡◌, ◌<◌, ◌≤◌, ◌^◌, ◌∷◌, length, take, option_map, IfOk, IfSome, All};
ghost use Rattle.fapp_model.specs.search.Clashes.{clashes_with};
ghost use Rattle.fapp_model.specs.search.Partials.{literal, names, IsLiteral};
ghost use Rattle.fapp_model.specs.search.Weights.{added_pair};
ghost use Rattle.cert_lines.specs.acceptance.Excluded.{is_excluded};
ghost use Rattle.cert_lines.specs.acceptance.Judged.{lesser};
ghost use Rattle.cert_check.specs.RecordsNamed.{reaches, places_of, ties_of, record_at};
ghost use Rattle.cert_check.specs.Scenes.{IsScene, choice_by, pair_by, remains_by};
ghost use Rattle.cert_check.specs.Weights.{added_most, pair_of};

use crate::between::{added, clashes_with};
use crate::exclusion::{Scene, is_excluded};
use crate::weight::Weight;
use fapp_model::{Instance, Literal, MAX_LEVELS, NoMemory, Record, choice_count};
use std::alloc::Global;

/// Whether one of the literals is of the path.
pub(crate) fn names(literals: &[Literal], path: u16) -> bool
    ensures { result ≡ names literals.now path }
{
    for a in literals {
        if a.path == path {
            return true;
        }
    }
    false
}

fn reaches(literals: &[Literal], constraint: &Record) -> bool
    ensures { result ≡ reaches literals.now constraint.now }
{
    names(literals, constraint.first_path()) || names(literals, constraint.second_path())
}

/// The positions of the records that name a path.
pub(crate) fn places_at<'a>(scene: Scene<'a>, path: u16) -> &'a [u32]
    requires scene { IsScene scene }
    requires path { path < length scene.instance.now.paths }
    ensures { result.now ≡ places_of scene.entry.instance.now path }
{
    scene.marks.places.as_slice()[path as usize].as_slice()
}

/// The positions of the records between a path and those of the literals.
pub(crate) fn ties_of(
    alloc: Global,
    scene: Scene,
    literals: &[Literal],
    path: u16,
) -> Result<Vec<u32>, NoMemory>
    requires scene { IsScene scene }
    requires path { path < length scene.instance.now.paths }
    ensures { IfOk result (λ ties. ties.items ≡ ties_of scene.entry.instance.now literals.now
        path) }
{
    let places = places_at(scene, path);
    let constraints = scene.instance.records.as_slice();
    let mut ties = Vec::new(alloc);
    for place in places {
        if reaches(literals, &constraints[*place as usize]) {
            ties.push(*place)?;
        }
    }
    Ok(ties)
}

fn lesser(found: Option<Weight>, other: Weight) -> Weight
    requires small { IfSome found (λ w. (w.v ≤ added_most) × (w.s ≤ added_most)) }
    requires small_other { (other.v ≤ added_most) × (other.s ≤ added_most) }
    ensures pair { pair_of result ≡ lesser (option_map pair_of found) (pair_of other) }
    ensures small_result { (result.v ≤ added_most) × (result.s ≤ added_most) }
{
    match found {
        Some(least) => {
            if least.is_at_most(other) {
                least
            } else {
                other
            }
        }
        None => other,
    }
}

/// Whether a choice is not excluded and has no hard-bad record between it and the literals.
pub(crate) fn remains(scene: Scene, ties: &[u32], literals: &[Literal], a: Literal) -> bool
    requires scene { IsScene scene }
    requires literals { All (IsLiteral scene.instance.now) literals.now }
    requires literal { IsLiteral scene.instance.now a }
    requires ties { ties.now ≡ ties_of scene.instance.now literals.now a.path }
    ensures { result ≡ remains_by scene.entry literals.now a }
{
    !is_excluded(scene, literals, a)
        && !clashes_with(scene.instance, ties, scene.level, literals, a)
}

fn added_to(scene: Scene, ties: &[u32], literals: &[Literal], a: Literal) -> Weight
    requires scene { IsScene scene }
    requires literals { All (IsLiteral scene.instance.now) literals.now }
    requires few { length literals.now ≤ 2 ^ 14 }
    requires literal { IsLiteral scene.instance.now a }
    requires ties { ties.now ≡ ties_of scene.instance.now literals.now a.path }
    ensures pair { pair_of result ≡ added_pair scene.entry.instance.now scene.entry.level
        literals.now a }
    ensures small_v { result.v ≤ added_most }
    ensures small_s { result.s ≤ added_most }
{
    added(scene.instance, ties, scene.level, literals, a)
}

fn with_choice(
    scene: Scene,
    ties: &[u32],
    literals: &[Literal],
    a: Literal,
    found: Option<Weight>,
) -> Option<Weight>
    requires scene { IsScene scene }
    requires literals { All (IsLiteral scene.instance.now) literals.now }
    requires few { length literals.now ≤ 2 ^ 14 }
    requires literal { IsLiteral scene.instance.now a }
    requires ties { ties.now ≡ ties_of scene.instance.now literals.now a.path }
    requires small { IfSome found (λ w. (w.v ≤ added_most) × (w.s ≤ added_most)) }
    ensures small { IfSome result (λ w. (w.v ≤ added_most) × (w.s ≤ added_most)) }
    ensures pair { option_map pair_of result
        ≡ choice_by scene.entry literals.now a.path (option_map pair_of found) a.choice }
{
    if remains(scene, ties, literals, a) {
        Some(lesser(found, added_to(scene, ties, literals, a)))
    } else {
        found
    }
}

/// The least that a remaining choice of a path adds. `None` where no choice remains.
pub(crate) fn least(
    alloc: Global,
    scene: Scene,
    literals: &[Literal],
    path: u16,
) -> Result<Option<Weight>, NoMemory>
    requires scene { IsScene scene }
    requires literals { All (IsLiteral scene.instance.now) literals.now }
    requires few { length literals.now ≤ 2 ^ 14 }
    requires path { path < length scene.instance.now.paths }
    ensures pair { IfOk result (λ found. option_map pair_of found
        ≡ pair_by scene.entry literals.now path) }
    ensures small { IfOk result (λ found.
        IfSome found (λ w. (w.v ≤ added_most) × (w.s ≤ added_most))) }
{
    let ties = ties_of(alloc, scene, literals, path)?;
    let count = choice_count(&scene.instance.paths.as_slice()[path as usize]);
    let mut found = None;
    for index in 0..count {
        let a = Literal {
            path,
            choice: index as u16,
        };
        found = with_choice(scene, ties.as_slice(), literals, a, found);
    }
    Ok(found)
}
