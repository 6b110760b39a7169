ghost use Rattle.std.specs.Prelude.{◌≡◌, ◌<◌, ◌≤◌, false, length, slice_set, IfOk, OnOk};
ghost use Rattle.fapp_model.specs.declared.limits.TheConstants.{MAX_PATH_CHOICES};
ghost use Rattle.dead_laws.specs.ArcLaws.{IsArcs};
ghost use Rattle.fapp_model.specs.declared.level.TheConstants.{MAX_LEVELS};
ghost use Rattle.fapp_model.specs.Assignments.{count_at, path_at};
ghost use Rattle.fapp_model.specs.Instances.{IsInstance, IsPath};
ghost use Rattle.arc_levels.specs.Gaps.{IsPair};
ghost use Rattle.arc_levels.specs.Left.{IsLeft};
ghost use Rattle.arc_levels.specs.Heights.{Falls, arc_of};
ghost use Rattle.arc_levels.specs.Removals.{AreFresh, AreRemovals, IsRevision, IsSweep, IsTurn};

use crate::gaps::{Edge, pair_at};
use crate::left::{Left, is_lonely, left_of};
use crate::removals::Removals;
use fapp_model::{Instance, MAX_LEVELS, NoMemory, Path, choice_count};
use fapp_tables::Tables;
use std::alloc::Global;

/// The path at a position.
pub fn path_at(instance: &Instance, position: u16) -> &Path
    requires instance { IsInstance instance.now }
    requires position { position < length instance.now.paths }
    ensures path { result.now ≡ path_at instance.now position }
    ensures valid { IsPath result.now }
{
    &instance.paths.as_slice()[position as usize]
}

/// How many choices a path has.
pub fn count(instance: &Instance, path: u16) -> u32
    requires instance { IsInstance instance.now }
    requires path { path < length instance.now.paths }
    ensures count { result ≡ count_at instance.now path }
    ensures few { result ≤ MAX_PATH_CHOICES }
{
    choice_count(path_at(instance, path))
}

/// Removes the choices of a pair's path that have no partner among those left of the other one, and
/// answers whether there were any.
fn revise(
    alloc: Global,
    pair: &Edge,
    left: &Left,
    removals: &mut Removals,
) -> Result<bool, NoMemory>
    requires pair { IsPair pair.now }
    requires left { IsLeft pair.now.instance.now pair.now.level removals.old.rows.items
        pair.now.other left.now }
    requires removals { AreRemovals pair.now.instance.now pair.now.level removals.old.rows.items
        removals.old.lines }
    ensures removals { OnOk result (
        AreRemovals pair.now.instance.now pair.now.level removals.new.rows.items
        removals.new.lines) }
    ensures revision { IfOk result (IsRevision pair.now.instance.now pair.now.level pair.now.path
        pair.now.other
        removals.old.rows.items removals.new.rows.items) }
{
    let mut changed = false;
    for choice in 0..count(pair.instance, pair.path) {
        let choice = choice as u16;
        if is_lonely(pair, left, removals, choice) {
            removals.remove(alloc, pair.level, pair.path, choice)?;
            changed = true;
        }
    }
    Ok(changed)
}

/// Removes the choices of a path's neighbours that have no partner left on the path, and answers
/// whether there were any.
fn turn(
    alloc: Global,
    tables: &Tables,
    level: u32,
    other: u16,
    removals: &mut Removals,
    stale: &mut [bool],
) -> Result<bool, NoMemory>
    requires valid { IsInstance tables.now }
    requires level { level ≤ MAX_LEVELS }
    requires other { other < length tables.now.paths }
    requires removals { AreRemovals tables.now level removals.old.rows.items removals.old.lines }
    requires fresh { AreFresh tables.now level removals.old.rows.items stale.old }
    ensures removals { OnOk result (AreRemovals tables.now level removals.new.rows.items
        removals.new.lines) }
    ensures fresh { OnOk result (AreFresh tables.now level removals.new.rows.items stale.new) }
    ensures turn { IfOk result (IsTurn tables.now level removals.old.rows.items
        removals.new.rows.items) }
    ensures same { IfOk result (λ changed. changed ≡ false →
        stale.new ≡ slice_set stale.old other false) }
{
    let mut changed = false;
    let left = left_of(alloc, tables.instance(), removals, level, other)?;
    for place in 0..tables.neighbours(other).len() {
        let pair = pair_at(tables, level, other, place);
        if revise(alloc, &pair, &left, removals)? {
            stale[pair.path as usize] = true;
            changed = true;
        }
    }
    stale[other as usize] = false;
    Ok(changed)
}

/// Removes choices that lack a partner, path by path, and answers whether there were any.
fn sweep(
    alloc: Global,
    tables: &Tables,
    level: u32,
    removals: &mut Removals,
    stale: &mut [bool],
) -> Result<bool, NoMemory>
    requires valid { IsInstance tables.now }
    requires level { level ≤ MAX_LEVELS }
    requires removals { AreRemovals tables.now level removals.old.rows.items removals.old.lines }
    requires fresh { AreFresh tables.now level removals.old.rows.items stale.old }
    ensures removals { OnOk result (AreRemovals tables.now level removals.new.rows.items
        removals.new.lines) }
    ensures fresh { OnOk result (AreFresh tables.now level removals.new.rows.items stale.new) }
    ensures sweep { IfOk result (IsSweep tables.now level removals.old.rows.items
        removals.new.rows.items) }
{
    let mut changed = false;
    for path in 0..tables.instance().paths.len() as u16 {
        if stale[path as usize] {
            let lost = turn(alloc, tables, level, path, removals, stale)?;
            changed = lost || changed;
        }
    }
    Ok(changed)
}

/// Removes choices that lack a partner until each has its partners.
pub fn settle(
    alloc: Global,
    tables: &Tables,
    level: u32,
    removals: &mut Removals,
) -> Result<(), NoMemory>
    requires valid { IsInstance tables.now }
    requires level { level ≤ MAX_LEVELS }
    requires removals { AreRemovals tables.now level removals.old.rows.items removals.old.lines }
    ensures removals { OnOk result (AreRemovals tables.now level removals.new.rows.items
        removals.new.lines) }
    ensures falls { OnOk result (Falls level removals.old.rows.items removals.new.rows.items) }
    ensures arcs { OnOk result (IsArcs tables.now level (arc_of removals.new.rows.items level)) }
{
    let mut stale = vec![in alloc; true; tables.instance().paths.len()]?;
    while sweep(alloc, tables, level, removals, &mut stale)? {}
    Ok(())
}
