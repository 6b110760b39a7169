ghost use Rattle.std.specs.Prelude.{◌≡◌, ◌≢◌, ◌≤◌, ◌<◌, length, slice_set};
ghost use Rattle.choice_counts.specs.Moves.{CanMoveAll, CanMoveRow, rows_with, tallies_with};
ghost use Rattle.choice_counts.specs.Totals.{AreRows, AreOpenPaths};
ghost use Rattle.choice_counts.specs.Tallies.{tallies_at, tallies_by};
ghost use Rattle.choice_counts.specs.Links.{IsPairCells};
ghost use Rattle.choice_counts.specs.Tables.{table_at};
ghost use Rattle.fapp_model.specs.Assignments.{count_at};
ghost use Rattle.fapp_model.specs.Instances.{IsInstance};
ghost use Rattle.fapp_tables.specs.Indexes.{records_of};
ghost use Rattle.forward_count.specs.Floors.{IsFloor};

use crate::rows::move_row;
use crate::step::Step;
use choice_counts::{OpenPaths, PairCells, PathTallies, TallyTable};
use nogood::Partial;

/// A row's least tally before a change and after it.
#[derive(Clone, Copy, Debug)]
struct Change {
    before: u64,
    after: u64,
}

/// Changes the row of a neighbour by what a literal counts there.
fn move_at(
    step: &Step,
    other: u16,
    positions: &[u32],
    link: &PairCells,
    rows: &mut [PathTallies],
) -> Change
    requires instance { IsInstance step.now.tables.now }
    requires apart { step.now.literal.path ≢ other }
    requires other { other < length step.now.tables.now.paths }
    requires positions { positions.now ≡ records_of step.now.tables.now step.now.literal.path
        other }
    requires link { IsPairCells step.now.tables.now step.now.level step.now.literal.path other
        link.now }
    requires rows { length rows.old ≡ length step.now.tables.now.paths }
    requires count { length (tallies_at rows.old other).tallies
        ≡ count_at step.now.tables.now other }
    requires can { CanMoveRow step.now.taking step.now.tables.now step.now.level step.now.literal
        other (tallies_at rows.old other).tallies }
    requires least { IsFloor (tallies_at rows.old other).tallies (tallies_at rows.old other).least }
    ensures rows { rows.new ≡ slice_set rows.old other
        (tallies_by (tallies_with step.now.taking step.now.tables.now step.now.level
        step.now.literal other (tallies_at rows.old other).tallies)) }
    ensures before { result.before ≡ (tallies_at rows.old other).least }
    ensures after { result.after ≡ (tallies_at rows.new other).least }
{
    let row = &mut rows[other as usize];
    let before = row.least;
    move_row(step, row, positions, link, other);
    Change {
        before,
        after: row.least,
    }
}

/// Changes the row of a neighbour by what a literal counts there, and answers what is counted for
/// the open paths then.
fn refresh(
    step: &Step,
    other: u16,
    positions: &[u32],
    link: &PairCells,
    rows: &mut [PathTallies],
    partial: &Partial,
    open_paths: OpenPaths,
) -> OpenPaths
    requires instance { IsInstance step.now.tables.now }
    requires apart { step.now.literal.path ≢ other }
    requires other { other < length step.now.tables.now.paths }
    requires positions { positions.now ≡ records_of step.now.tables.now step.now.literal.path
        other }
    requires link { IsPairCells step.now.tables.now step.now.level step.now.literal.path other
        link.now }
    requires rows { length rows.old ≡ length step.now.tables.now.paths }
    requires slots { length partial.now ≡ length step.now.tables.now.paths }
    requires count { length (tallies_at rows.old other).tallies
        ≡ count_at step.now.tables.now other }
    requires can { CanMoveRow step.now.taking step.now.tables.now step.now.level step.now.literal
        other (tallies_at rows.old other).tallies }
    requires least { IsFloor (tallies_at rows.old other).tallies (tallies_at rows.old other).least }
    requires open { AreOpenPaths partial.now rows.old open_paths }
    ensures rows { rows.new ≡ slice_set rows.old other
        (tallies_by (tallies_with step.now.taking step.now.tables.now step.now.level
        step.now.literal other (tallies_at rows.old other).tallies)) }
    ensures open { AreOpenPaths partial.now rows.new result }
{
    let change = move_at(step, other, positions, link, rows);
    if partial.get(other).is_some() {
        return open_paths;
    }
    open_paths.without(change.before).with(change.after)
}

/// Changes the rows of all neighbours by what a literal counts there, and answers what is counted
/// for the open paths then.
pub fn move_all(
    step: &Step,
    tallies: &TallyTable,
    rows: &mut [PathTallies],
    partial: &Partial,
    open_paths: OpenPaths,
) -> OpenPaths
    requires tallies { tallies.now ≡ table_at step.now.tables.now step.now.level }
    requires instance { IsInstance step.now.tables.now }
    requires rows { AreRows step.now.tables.now rows.old }
    requires slots { length partial.now ≡ length step.now.tables.now.paths }
    requires can { CanMoveAll step.now.taking step.now.tables.now step.now.level step.now.literal
        rows.old }
    requires open { AreOpenPaths partial.now rows.old open_paths }
    ensures rows { rows.new ≡ rows_with step.now.taking step.now.tables.now step.now.level
        step.now.literal rows.old }
    ensures open { AreOpenPaths partial.now rows.new result }
{
    let path = step.literal.path;
    let neighbours = step.tables.neighbours(path);
    let mut counted = open_paths;
    for place in 0..neighbours.len() {
        let positions = step.tables.records_at(path, place);
        let link = tallies.link(path, place);
        counted = refresh(
            step,
            neighbours[place],
            positions,
            link,
            rows,
            partial,
            counted,
        );
    }
    counted
}
