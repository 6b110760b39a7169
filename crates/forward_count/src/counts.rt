ghost use Rattle.std.specs.Prelude.{◌≡◌, ◌≤◌, ◌<◌, ◌*◌, ◌/◌, ◌%◌, ◌^◌, None, Some, Option, ℕ, length, slice_set, if◌then◌else◌};
ghost use Rattle.std.specs.Option.{is_some};
ghost use Rattle.choice_counts.specs.Moves.{CanMove, CanMoveAll, moved, rows_with};
ghost use Rattle.choice_counts.specs.Totals.{AreRows, AreOpenPaths};
ghost use Rattle.choice_counts.specs.Tallies.{tallies_at, tally_at};
ghost use Rattle.choice_counts.specs.Tables.{table_at};
ghost use Rattle.fapp_model.specs.Instances.{IsInstance};
ghost use Rattle.forward_count.specs.SlotSteps.{CanCount, slot_after, slots_after};
ghost use Rattle.nogood.specs.Partials.{choice_given};

use crate::moves::move_all;
use crate::rows::moved;
use crate::step::Step;
use choice_counts::{HARD, OpenPaths, PathTallies, TallyTable, Totals};
use nogood::Partial;

/// Sets the literal's slot, or clears it.
fn set_slot(step: &Step, partial: &mut Partial)
    requires { step.now.literal.path < length partial.old }
    ensures { partial.new ≡ slots_after step.now.taking step.now.literal partial.old }
{
    if step.taking {
        partial.clear(step.literal.path);
    } else {
        partial.set(step.literal.path, step.literal.choice);
    }
}

/// The row of a path.
pub fn tallies_at(rows: &[PathTallies], path: u16) -> &PathTallies
    requires { path < length rows.now }
    ensures { result.now ≡ tallies_at rows.now path }
{
    &rows[path as usize]
}

/// What is counted for the open paths, with the literal's path among them again or without it.
fn reopened(
    step: &Step,
    rows: &[PathTallies],
    partial: &Partial,
    open_paths: OpenPaths,
) -> OpenPaths
    requires rows { AreRows step.now.tables.now rows.now }
    requires slots { length partial.now ≡ length step.now.tables.now.paths }
    requires slot { is_some (choice_given partial.now step.now.literal.path) ≡ step.now.taking }
    requires open { AreOpenPaths partial.now rows.now open_paths }
    ensures { AreOpenPaths (slots_after step.now.taking step.now.literal partial.now) rows.now
        result }
{
    let least = tallies_at(rows, step.literal.path).least;
    if step.taking {
        open_paths.with(least)
    } else {
        open_paths.without(least)
    }
}

/// The tally of the literal's choice in its own path's row.
fn own_tally(step: &Step, rows: &[PathTallies]) -> u64
    requires rows { AreRows step.now.tables.now rows.now }
    ensures { result ≡ tally_at (tallies_at rows.now step.now.literal.path).tallies
        step.now.literal.choice }
{
    tallies_at(rows, step.literal.path)
        .tallies
        .get(step.literal.choice as usize)
}

/// Counts a literal that is pushed, or takes back what is counted for one. The rows of its
/// neighbours change, whether they have a literal or not; its own stays, since no record joins a
/// path with itself.
pub fn count_step(
    step: &Step,
    tallies: &TallyTable,
    rows: &mut [PathTallies],
    partial: &mut Partial,
    totals: Totals,
) -> Totals
    requires tallies { tallies.now ≡ table_at step.now.tables.now step.now.level }
    requires instance { IsInstance step.now.tables.now }
    requires rows { AreRows step.now.tables.now rows.old }
    requires slots { length partial.old ≡ length step.now.tables.now.paths }
    requires slot { is_some (choice_given partial.old step.now.literal.path) ≡ step.now.taking }
    requires can { CanMoveAll step.now.taking step.now.tables.now step.now.level step.now.literal
        rows.old }
    requires fits { CanCount step.now.taking totals
        (tally_at (tallies_at rows.old step.now.literal.path).tallies step.now.literal.choice) }
    requires open { AreOpenPaths partial.old rows.old totals.open_paths }
    ensures slots { partial.new ≡ slots_after step.now.taking step.now.literal partial.old }
    ensures rows { rows.new ≡ rows_with step.now.taking step.now.tables.now step.now.level
        step.now.literal rows.old }
    ensures open { AreOpenPaths partial.new rows.new result.open_paths }
    ensures conflicts { result.conflicts ≡ moved step.now.taking totals.conflicts
        (tally_at (tallies_at rows.old step.now.literal.path).tallies step.now.literal.choice / HARD
        * 2) }
    ensures inside { result.twice_inside ≡ moved step.now.taking totals.twice_inside
        (tally_at (tallies_at rows.old step.now.literal.path).tallies step.now.literal.choice % HARD
        * 2) }
{
    let tally = own_tally(step, rows);
    let open_paths = reopened(step, rows, partial, totals.open_paths);
    set_slot(step, partial);
    let conflicts = moved(step.taking, totals.conflicts, tally / HARD * 2);
    let twice_inside = moved(step.taking, totals.twice_inside, tally % HARD * 2);
    Totals {
        open_paths: move_all(step, tallies, rows, partial, open_paths),
        conflicts,
        twice_inside,
    }
}
