ghost use Rattle.std.specs.Prelude.{◌≡◌, ◌≤◌, ◌<◌, [], Bool, None, length, replicate, sum_by, IfOk};
ghost use Rattle.choice_counts.specs.Counts.{rows_of, tally_of, tallies_of};
ghost use Rattle.choice_counts.specs.Kept.{AreKept};
ghost use Rattle.choice_counts.specs.Tallies.{least_part, tallies_by, stuck_part};
ghost use Rattle.dead_laws.specs.ArcLaws.{IsArcs};
ghost use Rattle.fapp_model.specs.declared.limits.TheConstants.{MAX_PATHS};
ghost use Rattle.fapp_model.specs.declared.literal.Literal.{Literal};
ghost use Rattle.fapp_model.specs.Assignments.{count_at};
ghost use Rattle.fapp_model.specs.Instances.{IsInstance};
ghost use Rattle.fapp_model.specs.Levels.{levels_of};
ghost use Rattle.fapp_model.specs.search.Partials.{IsLiteral, literal};
ghost use Rattle.forward_count.specs.Starts.{AreShaped};

use crate::step::count;
use arc_levels::ArcTable;
use choice_counts::{HARD, NO_TALLY, OpenPaths, PathTallies, Tallies, Totals};
use fapp_model::{Instance, NoMemory};
use std::alloc::Global;

/// A row for each path, with a tally for each choice, each of which is 0.
pub fn blank_rows(alloc: Global, instance: &Instance) -> Result<Vec<PathTallies>, NoMemory>
    requires { IsInstance instance.now }
    ensures { IfOk result (λ rows. AreShaped instance.now rows.items (length instance.now.paths)) }
{
    let mut rows = Vec::with_capacity(alloc, instance.paths.len())?;
    for path in 0..instance.paths.len() {
        let tallies = vec![in alloc; 0u64; count(instance, path as u16) as usize]?;
        rows.push(PathTallies {
            tallies: Tallies::from_vec(tallies),
            least: 0,
        })?;
    }
    Ok(rows)
}

/// The tally of a choice where no literal counts in it.
pub fn outside_tally(arcs: &ArcTable, level: u32, path: u16, choice: u16) -> u64
    requires level { level ≤ levels_of arcs.now }
    requires choice { IsLiteral arcs.now (literal path choice) }
    ensures tally { (arc : Literal → Bool) → IsArcs arcs.now level arc →
        result ≡ tally_of arcs.now level arc [] (literal path choice) }
    ensures small { result ≤ HARD }
{
    if arcs.is_outside(level, path, choice) {
        HARD
    } else {
        0
    }
}

/// Counts the arcs of a level alone in the row of a path.
fn reset_row(instance: &Instance, arcs: &ArcTable, level: u32, path: u16, row: &mut PathTallies)
    requires instance { IsInstance instance.now }
    requires same { arcs.now ≡ instance.now }
    requires level { level ≤ levels_of instance.now }
    requires path { path < length instance.now.paths }
    requires count { length row.old.tallies ≡ count_at instance.now path }
    ensures { (arc : Literal → Bool) → IsArcs instance.now level arc →
        row.new ≡ tallies_by (tallies_of instance.now level arc [] path) }
{
    let mut least = NO_TALLY;
    for choice in 0..count(instance, path) {
        let tally = outside_tally(arcs, level, path, choice as u16);
        row.tallies.set(choice as usize, tally);
        least = least.min(tally);
    }
    row.least = least;
}

/// Counts the arcs of a level alone.
pub fn reset_rows(instance: &Instance, arcs: &ArcTable, level: u32, rows: &mut [PathTallies])
    requires instance { IsInstance instance.now }
    requires same { arcs.now ≡ instance.now }
    requires level { level ≤ levels_of instance.now }
    requires rows { AreShaped instance.now rows.old (length instance.now.paths) }
    ensures { (arc : Literal → Bool) → IsArcs instance.now level arc →
        rows.new ≡ rows_of instance.now level arc [] }
{
    for path in 0..instance.paths.len() {
        reset_row(instance, arcs, level, path as u16, &mut rows[path]);
    }
}

/// What is counted for the paths where none has a literal.
fn open_of(rows: &[PathTallies]) -> OpenPaths
    requires { length rows.now ≤ MAX_PATHS }
    ensures stuck { result.stuck ≡ sum_by (λ row. stuck_part row.least) rows.now }
    ensures least { result.least ≡ sum_by (λ row. least_part row.least) rows.now }
{
    let mut open_paths = OpenPaths { stuck: 0, least: 0 };
    for row in rows {
        open_paths = open_paths.with(row.least);
    }
    open_paths
}

/// Counts no literal yet.
pub fn start(instance: &Instance, arcs: &ArcTable, level: u32, rows: &mut [PathTallies]) -> Totals
    requires instance { IsInstance instance.now }
    requires same { arcs.now ≡ instance.now }
    requires level { level ≤ levels_of instance.now }
    requires rows { AreShaped instance.now rows.old (length instance.now.paths) }
    ensures { AreKept instance.now level [] (replicate (length instance.now.paths) None) rows.new
        result }
{
    reset_rows(instance, arcs, level, rows);
    Totals {
        open_paths: open_of(rows),
        conflicts: 0,
        twice_inside: 0,
    }
}
