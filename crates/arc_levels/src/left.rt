// The choices of a path that are left, as frequencies.
ghost use Rattle.std.specs.Prelude.{◌≡◌, ◌<◌, false, length, IfOk, IsTrue};
ghost use Rattle.std.specs.Ordering.{int_eq};
ghost use Rattle.fapp_model.specs.Assignments.{count_at};
ghost use Rattle.fapp_model.specs.Instances.{IsInstance, IsNumber};
ghost use Rattle.fapp_model.specs.search.Arcs.{HasPartner};
ghost use Rattle.fapp_model.specs.search.Partials.{literal};
ghost use Rattle.arc_levels.specs.Gaps.{IsPair};
ghost use Rattle.arc_levels.specs.Left.{AreRising, IsLeft, IsPlaceOf, has_partner, is_met, left_freqs};
ghost use Rattle.arc_levels.specs.Heights.{AreHeights, IsLonely, arc_of};

use crate::gaps::{Edge, pair_next};
use crate::removals::Removals;
use crate::rounds::path_at;
use fapp_model::{Choice, Instance, NoMemory, choice_at, choice_count};
use std::alloc::Global;

/// The frequencies of the choices of a path that are left, ascending, by their polarization.
#[derive(Debug, Drop)]
pub struct Left {
    pub minus: Vec<u32>,
    pub plus: Vec<u32>,
}

/// Whether a choice has a polarization.
fn is_at(choice: Choice, polarization: i8) -> bool
    ensures { result ≡ int_eq choice.pol polarization }
{
    choice.pol == polarization
}

/// The frequencies of the choices of a path that are left at a polarization.
fn left_at(
    alloc: Global,
    instance: &Instance,
    removals: &Removals,
    level: u32,
    path: u16,
    polarization: i8,
) -> Result<Vec<u32>, NoMemory>
    requires instance { IsInstance instance.now }
    requires rows { AreHeights instance.now removals.now.rows.items }
    requires path { path < length instance.now.paths }
    ensures { IfOk result (λ freqs. freqs.items ≡
        left_freqs instance.now level removals.now.rows.items path polarization
        (count_at instance.now path)) }
{
    let owner = path_at(instance, path);
    let mut freqs = Vec::new(alloc);
    for index in 0..choice_count(owner) {
        let choice = choice_at(owner, index);
        if removals.is_in(level, path, index as u16) && is_at(choice, polarization) {
            freqs.push(choice.freq)?;
        }
    }
    Ok(freqs)
}

/// The choices of a path that are left.
pub fn left_of(
    alloc: Global,
    instance: &Instance,
    removals: &Removals,
    level: u32,
    path: u16,
) -> Result<Left, NoMemory>
    requires instance { IsInstance instance.now }
    requires rows { AreHeights instance.now removals.now.rows.items }
    requires path { path < length instance.now.paths }
    ensures { IfOk result (IsLeft instance.now level removals.now.rows.items path) }
{
    Ok(Left {
        minus: left_at(alloc, instance, removals, level, path, -1)?,
        plus: left_at(alloc, instance, removals, level, path, 1)?,
    })
}

/// The place of the first frequency that is not below another one.
fn place_of(freqs: &[u32], next: u32) -> usize
    requires { AreRising freqs.now }
    ensures { IsPlaceOf freqs.now next result }
{
    freqs.partition_point(|freq| *freq < next)
}

/// Whether a choice goes with one at some of the frequencies and at a polarization.
fn is_met(pair: &Edge, first: Choice, polarization: i8, freqs: &[u32]) -> bool
    requires pair { IsPair pair.now }
    requires first { IsNumber first.freq }
    requires rising { AreRising freqs.now }
    ensures { result ≡ is_met pair.now first polarization freqs.now }
{
    let mut place = 0;
    while place < freqs.len() {
        let second = Choice {
            freq: freqs[place],
            pol: polarization,
        };
        let next = pair_next(pair, first, second);
        if next == second.freq {
            return true;
        }
        place = place_of(freqs, next);
    }
    false
}

/// Whether a choice goes with one that is left.
fn has_partner(pair: &Edge, first: Choice, left: &Left) -> bool
    requires pair { IsPair pair.now }
    requires first { IsNumber first.freq }
    requires minus { AreRising left.now.minus.items }
    requires plus { AreRising left.now.plus.items }
    ensures { result ≡ has_partner pair.now first left.now }
{
    is_met(pair, first, -1, &left.minus) || is_met(pair, first, 1, &left.plus)
}

/// Whether a choice of a pair's path is left and goes with none that is left of the other path.
pub fn is_lonely(pair: &Edge, left: &Left, removals: &Removals, choice: u16) -> bool
    requires pair { IsPair pair.now }
    requires rows { AreHeights pair.now.instance.now removals.now.rows.items }
    requires left { IsLeft pair.now.instance.now pair.now.level removals.now.rows.items
        pair.now.other left.now }
    requires choice { choice < count_at pair.now.instance.now pair.now.path }
    ensures yes { IsTrue result → IsLonely pair.now.instance.now pair.now.level
        removals.now.rows.items
        (literal pair.now.path choice) pair.now.other }
    ensures no { result ≡ false → IsTrue (arc_of removals.now.rows.items pair.now.level
        (literal pair.now.path choice)) →
        HasPartner pair.now.instance.now pair.now.level
        (arc_of removals.now.rows.items pair.now.level)
        (literal pair.now.path choice) pair.now.other }
{
    let first = choice_at(path_at(pair.instance, pair.path), u32::from(choice));
    removals.is_in(pair.level, pair.path, choice) && !has_partner(pair, first, left)
}
