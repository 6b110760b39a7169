ghost use Rattle.std.specs.Prelude.{◌≡◌, [], IsTrue};
ghost use Rattle.choice_counts.specs.Cells.{AreCells, AreWhole, IsFar};
ghost use Rattle.choice_counts.specs.Links.{IsPairCells};
ghost use Rattle.fapp_model.specs.Instances.{IsInstance};

use crate::breaks::NO_REACH;
use crate::cells::{Cell, Cells};
use crate::pair::Edge;

/// At most so many distances are tried for the cells of two paths.
const MOST_STEPS: u32 = 128;

/// What the choices of two neighbouring paths count in each other's tallies at a level.
#[derive(Debug, Drop)]
pub struct PairCells {
    /// A cell for each distance; none where they would be too many.
    pub cells: Cells,
    /// From this distance on nothing is counted.
    pub far: u64,
}

/// Adds cells, from distance 0 on. Says whether they reach over each distance.
fn add_cells(pair: &Edge, cells: &mut Cells) -> bool
    requires instance { IsInstance pair.now.instance.now }
    requires none { cells.old ≡ [] }
    ensures cells { AreCells pair.now.instance.now pair.now.level pair.now.path pair.now.other
        cells.new }
    ensures whole { IsTrue result → AreWhole cells.new }
{
    let mut distance = 0;
    for _step in 0..MOST_STEPS {
        let cell = pair.cell(distance);
        if !cells.extend(cell) {
            return false;
        }
        if cell.reach == NO_REACH {
            return true;
        }
        distance = cell.reach as u32;
    }
    false
}

/// The distance from which on cells count nothing.
fn far_of(cells: &[Cell]) -> u64
    requires { AreWhole cells.now }
    ensures { IsFar cells.now result }
{
    let last = cells.len() - 1;
    if cells[last].same > 0 || cells[last].other > 0 {
        return NO_REACH;
    }
    if last > 0 { cells[last - 1].reach } else { 0 }
}

impl PairCells {
    /// Makes the cells of two paths anew.
    pub fn fill(&mut self, pair: &Edge)
        requires { IsInstance pair.now.instance.now }
        ensures { IsPairCells pair.now.instance.now pair.now.level pair.now.path pair.now.other
            self.new }
    {
        self.cells.clear();
        self.far = NO_REACH;
        if add_cells(pair, &mut self.cells) {
            self.far = far_of(self.cells.as_slice());
            self.cells.note_places();
        } else {
            self.cells.clear();
        }
    }
}
