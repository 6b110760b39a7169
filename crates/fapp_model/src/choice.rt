ghost use Rattle.std.specs.Prelude.{◌≡◌, ◌*◌, ◌<◌, ◌≤◌, length, slice_index, slice_index_or, pos};
ghost use Rattle.fapp_model.specs.Choices.{both_polarizations, choices, choice};
ghost use Rattle.fapp_model.specs.Assignments.{chosen, count_at};
ghost use Rattle.fapp_model.specs.Instances.{IsPath, IsInstance};

use crate::limits::MAX_DOMAIN_FREQUENCIES;
use crate::{Instance, Path};

/// A frequency and a polarization, -1 or 1.
#[derive(Clone, Copy, Debug, PartialEq, Eq)]
pub struct Choice {
    pub freq: u32,
    pub pol: i8,
}

/// How many choices a path has: one for each of its frequencies, and two where its polarization is
/// free.
pub fn choice_count(path: &Path) -> u32
    requires { IsPath path.now }
    ensures count { result ≡ length (choices path.now) }
    ensures few { result ≤ 2 * MAX_DOMAIN_FREQUENCIES }
{
    let frequencies = path.freqs.len() as u32;
    if path.pol == 0 {
        2 * frequencies
    } else {
        frequencies
    }
}

/// A path's choice by its index: frequencies ascending, -1 before 1 at the same frequency.
pub fn choice_at(path: &Path, index: u32) -> Choice
    requires path { IsPath path.now }
    requires index { index < length (choices path.now) }
    ensures { result ≡ choice path.now index }
{
    let freqs = path.freqs.as_slice();
    if path.pol == 0 {
        Choice {
            freq: freqs[(index / 2) as usize],
            pol: polarization_at(index % 2),
        }
    } else {
        Choice {
            freq: freqs[index as usize],
            pol: path.pol,
        }
    }
}

fn polarization_at(place: u32) -> i8
    requires { place < 2 }
    ensures { result ≡ slice_index_or both_polarizations place (pos 0) }
{
    if place == 0 { -1 } else { 1 }
}

/// What a plan chooses at a position: the plan's index there, among the choices of the path.
pub fn chosen(instance: &Instance, plan: &[u16], position: u16) -> Choice
    requires instance { IsInstance instance.now }
    requires path { position < length instance.now.paths }
    requires planned { position < length plan.now }
    requires index { slice_index plan.now position < count_at instance.now position }
    ensures { result ≡ chosen instance.now plan.now position }
{
    let path = &instance.paths.as_slice()[position as usize];
    choice_at(path, plan[position as usize] as u32)
}
