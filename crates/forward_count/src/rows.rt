ghost use Rattle.std.specs.Prelude.{◌≡◌, ◌≢◌, ◌≤◌, ◌<◌, ◌^◌, length, min, slice_set};
ghost use Rattle.choice_counts.specs.Moves.{CanMove, CanMoveRow, moved, tallies_with};
ghost use Rattle.choice_counts.specs.Tallies.{least_of_tallies, tallies_by, tally_at};
ghost use Rattle.choice_counts.specs.Links.{IsPairCells};
ghost use Rattle.fapp_model.specs.Assignments.{count_at};
ghost use Rattle.fapp_model.specs.Instances.{IsInstance};
ghost use Rattle.fapp_tables.specs.Indexes.{records_of};
ghost use Rattle.forward_count.specs.Floors.{IsFloor};

use crate::step::Step;
use crate::window::first_within;
use choice_counts::{NO_TALLY, PairCells, PathTallies, Tallies};
use fapp_model::{choice_at, choice_count};

/// A tally with a pair's taken away, or added.
pub fn moved(taking: bool, tally: u64, pair: u64) -> u64
    requires can { CanMove taking tally pair }
    requires small { pair ≤ 2 ^ 49 }
    ensures { result ≡ moved taking tally pair }
{
    if taking { tally - pair } else { tally + pair }
}

/// Takes a pair's tally from one of some tallies, or adds it. Answers a floor lowered to it, and
/// marks it where it is lower.
fn move_tally(taking: bool, tallies: &mut Tallies, index: usize, pair: u64, floor: u64) -> u64
    requires index { index < length tallies.old }
    requires can { CanMove taking (tally_at tallies.old index) pair }
    requires small { pair ≤ 2 ^ 49 }
    ensures tallies { tallies.new ≡ slice_set tallies.old index
        (moved taking (tally_at tallies.old index) pair) }
    ensures floor { result ≡ min floor (moved taking (tally_at tallies.old index) pair) }
{
    let tally = moved(taking, tallies.get(index), pair);
    tallies.set(index, tally);
    if tally < floor {
        tallies.mark(index);
        tally
    } else {
        floor
    }
}

/// Takes from the tallies of a neighbour what a literal counts there, or adds it, by the records
/// between the two paths. Answers a floor of theirs, from one that they had.
fn move_by_records(
    step: &Step,
    tallies: &mut Tallies,
    positions: &[u32],
    other: u16,
    floor: u64,
) -> u64
    requires apart { step.now.literal.path ≢ other }
    requires other { other < length step.now.tables.now.paths }
    requires positions { positions.now ≡ records_of step.now.tables.now step.now.literal.path
        other }
    requires count { length tallies.old ≡ count_at step.now.tables.now other }
    requires can { CanMoveRow step.now.taking step.now.tables.now step.now.level step.now.literal
        other tallies.old }
    requires floor { IsFloor tallies.old floor }
    ensures tallies { tallies.new ≡ tallies_with step.now.taking step.now.tables.now step.now.level
        step.now.literal other tallies.old }
    ensures floor { IsFloor tallies.new result }
{
    let mut lowest = floor;
    for index in 0..step.count(other) {
        let pair = step.pair_tally(positions, other, index);
        lowest = move_tally(step.taking, tallies, index as usize, pair, lowest);
    }
    lowest
}

/// Takes from the tallies of a neighbour what a literal counts there, or adds it, by the cells of
/// the two paths: only the choices that are less than the link's far distance from the literal's
/// are looked at. Answers a floor of theirs, from one that they had.
fn move_by_cells(
    step: &Step,
    tallies: &mut Tallies,
    link: &PairCells,
    other: u16,
    floor: u64,
) -> u64
    requires instance { IsInstance step.now.tables.now }
    requires apart { step.now.literal.path ≢ other }
    requires other { other < length step.now.tables.now.paths }
    requires link { IsPairCells step.now.tables.now step.now.level step.now.literal.path other
        link.now }
    requires some { 0 < length link.now.cells }
    requires count { length tallies.old ≡ count_at step.now.tables.now other }
    requires can { CanMoveRow step.now.taking step.now.tables.now step.now.level step.now.literal
        other tallies.old }
    requires floor { IsFloor tallies.old floor }
    ensures tallies { tallies.new ≡ tallies_with step.now.taking step.now.tables.now step.now.level
        step.now.literal other tallies.old }
    ensures floor { IsFloor tallies.new result }
{
    let owner = step.owner(other);
    let end = u64::from(step.choice.freq).saturating_add(link.far);
    let start = first_within(owner, step.choice.freq, link.far);
    let count = choice_count(owner);
    let mut lowest = floor;
    for index in start..count {
        let second = choice_at(owner, index);
        if u64::from(second.freq) >= end {
            return lowest;
        }
        let pair = link.tally(step.choice, second);
        lowest = move_tally(step.taking, tallies, index as usize, pair, lowest);
    }
    lowest
}

/// The least of some tallies. It is found at once where it is a floor of theirs that is marked;
/// else by a look at each of them, up to the first that is the floor, and is marked then.
fn least_from(tallies: &mut Tallies, floor: u64) -> u64
    requires { IsFloor tallies.old floor }
    ensures tallies { tallies.new ≡ tallies.old }
    ensures least { result ≡ least_of_tallies tallies.old }
{
    if tallies.has_marked(floor) {
        return floor;
    }
    let mut least = NO_TALLY;
    let mut place = 0;
    for index in 0..tallies.len() {
        let tally = tallies.get(index);
        if tally == floor {
            tallies.mark(index);
            return floor;
        }
        if tally < least {
            least = tally;
            place = index;
        }
    }
    tallies.mark(place);
    least
}

/// Takes from the row of a neighbour what a literal counts there, or adds it.
pub fn move_row(step: &Step, row: &mut PathTallies, positions: &[u32], link: &PairCells, other: u16)
    requires instance { IsInstance step.now.tables.now }
    requires apart { step.now.literal.path ≢ other }
    requires other { other < length step.now.tables.now.paths }
    requires positions { positions.now ≡ records_of step.now.tables.now step.now.literal.path
        other }
    requires link { IsPairCells step.now.tables.now step.now.level step.now.literal.path other
        link.now }
    requires count { length row.old.tallies ≡ count_at step.now.tables.now other }
    requires can { CanMoveRow step.now.taking step.now.tables.now step.now.level step.now.literal
        other row.old.tallies }
    requires least { IsFloor row.old.tallies row.old.least }
    ensures { row.new ≡ tallies_by (tallies_with step.now.taking step.now.tables.now step.now.level
        step.now.literal other row.old.tallies) }
{
    let floor = if link.cells.len() > 0 {
        move_by_cells(step, &mut row.tallies, link, other, row.least)
    } else {
        move_by_records(step, &mut row.tallies, positions, other, row.least)
    };
    row.least = least_from(&mut row.tallies, floor);
}
