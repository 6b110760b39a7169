ghost use Rattle.std.specs.Prelude.{◌≡◌, ◌<◌, ◌≤◌, length};
ghost use Rattle.choice_counts.specs.Cells.{AreWhole, cell_at, start_of, tally_in};
ghost use Rattle.choice_counts.specs.Links.{IsFound};
ghost use Rattle.fapp_model.specs.Records.{distance, same_polarization};

use crate::breaks::NO_REACH;
use crate::cells::Cell;
use crate::fill::PairCells;
use fapp_model::Choice;

/// The last place, at a place or before it, whose cell doesn't start above a distance.
fn back_from(cells: &[Cell], from: usize, distance: u64) -> usize
    requires { from < length cells.now }
    ensures place { result ≤ from }
    ensures start { start_of cells.now result ≤ distance }
{
    let mut place = from;
    while place > 0 && distance < cells[place - 1].reach {
        place -= 1;
    }
    place
}

/// The first place, at a place or behind it, whose cell reaches over a distance.
fn on_from(cells: &[Cell], from: usize, distance: u64) -> usize
    requires whole { AreWhole cells.now }
    requires distance { distance < NO_REACH }
    requires from { from < length cells.now }
    requires start { start_of cells.now from ≤ distance }
    ensures inside { result < length cells.now }
    ensures start { start_of cells.now result ≤ distance }
    ensures reach { distance < (cell_at cells.now result).reach }
{
    let mut place = from;
    while cells[place].reach <= distance {
        place += 1;
    }
    place
}

/// The place of the cell that has the tallies of a distance. It is looked for from another place
/// on, and found at once where that one is near.
fn place_of(cells: &[Cell], from: usize, distance: u64) -> usize
    requires whole { AreWhole cells.now }
    requires distance { distance < NO_REACH }
    requires from { from < length cells.now }
    ensures inside { result < length cells.now }
    ensures start { start_of cells.now result ≤ distance }
    ensures reach { distance < (cell_at cells.now result).reach }
{
    let place = back_from(cells, from, distance);
    on_from(cells, place, distance)
}

/// How far the frequencies of two choices are apart.
fn distance(first: Choice, second: Choice) -> u64
    ensures distance { result ≡ distance first second }
    ensures within { result < NO_REACH }
{
    u64::from(first.freq.abs_diff(second.freq))
}

/// The tally of two choices, by the place of its cell.
fn tally_for(cells: &[Cell], place: usize, first: Choice, second: Choice) -> u64
    requires { place < length cells.now }
    ensures { result ≡ tally_in (cell_at cells.now place) (same_polarization first second) }
{
    let cell = &cells[place];
    if first.pol == second.pol {
        cell.same
    } else {
        cell.other
    }
}

impl PairCells {
    /// What two choices count in each other's tallies, where each distance has a cell.
    pub fn tally(&self, first: Choice, second: Choice) -> u64
        requires { AreWhole self.now.cells }
        ensures { IsFound self.now (distance first second) (same_polarization first second) result }
    {
        let distance = distance(first, second);
        if distance >= self.far {
            return 0;
        }
        let cells = self.cells.as_slice();
        let place = place_of(cells, self.cells.near(distance), distance);
        tally_for(cells, place, first, second)
    }
}
