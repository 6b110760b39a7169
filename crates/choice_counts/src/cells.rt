ghost use Rattle.std.specs.Prelude.{◌≡◌, ◌↔◌, ◌<◌, [], false, length, IfOk, IsTrue};
ghost use Rattle.choice_counts.specs.Cells.{AddsCell, tally_in};

use fapp_model::NoMemory;
use std::alloc::Global;
use std::marker::Model;

/// What two choices count in each other's tallies where their frequencies are further apart than
/// the cell before reaches, and less than this one does.
#[derive(Clone, Copy, Debug)]
pub struct Cell {
    pub reach: u64,
    /// Where their polarizations are equal.
    pub same: u64,
    /// Where they are not.
    pub other: u64,
}

impl Cell {
    /// Whether another one has the same tallies.
    fn is_like(self, other: Cell) -> bool
        ensures { IsTrue result ↔ ((self.same ≡ other.same) × (self.other ≡ other.other)) }
    {
        self.same == other.same && self.other == other.other
    }
}

/// So many hints for distances that are evenly spread.
const HINTS: usize = 64;

/// Cells that follow one another, and hints where to look for those of some distances. Contracts
/// see the list of cells.
#[derive(Debug, Drop)]
pub struct Cells {
    cells: Vec<Cell>,
    /// The places of the cells of the multiples of a power of two.
    hints: Vec<u8>,
    shift: u32,
}

/// The place of the first cell, at a place or behind it, that reaches over a distance.
fn place_over(cells: &[Cell], from: usize, distance: u64) -> usize {
    let mut place = from;
    while place < cells.len() && cells[place].reach <= distance {
        place += 1;
    }
    place
}

impl Model for Cells {
    ghost use Rattle.std.specs.Prelude.{List};
    ghost use Rattle.choice_counts.specs.declared.cells.Cell.{Cell as Seen};

    ghost Value = { List Seen };

    ghost view = { λ it. it.cells.items };
}

impl Cells {
    /// None yet, and room for so many.
    pub fn new(alloc: Global, room: usize) -> Result<Cells, NoMemory>
        ensures { IfOk result (λ cells. cells ≡ []) }
    {
        let cells = Vec::with_capacity(alloc, room)?;
        let hints = vec![in alloc; 0u8; HINTS]?;
        Ok(Cells {
            cells,
            hints,
            shift: 0,
        })
    }

    /// The cells.
    pub fn as_slice(&self) -> &[Cell]
        ensures { result.now ≡ self.now }
    {
        self.cells.as_slice()
    }

    /// How many cells there are.
    pub fn len(&self) -> usize
        ensures { result ≡ length self.now }
    {
        self.cells.len()
    }

    /// Takes all cells away.
    pub fn clear(&mut self)
        ensures { self.new ≡ [] }
    {
        self.cells.clear();
    }

    /// Adds a cell behind the others, where there is room, or lets the last one reach as far where
    /// it has the same tallies. It takes no memory.
    pub fn extend(&mut self, cell: Cell) -> bool
        ensures added { IsTrue result → AddsCell self.old cell self.new }
        ensures full { result ≡ false → self.new ≡ self.old }
    {
        let count = self.cells.len();
        if count > 0 && self.cells[count - 1].is_like(cell) {
            self.cells[count - 1] = cell;
            return true;
        }
        if count == self.cells.capacity() {
            return false;
        }
        self.cells.push_reserved(cell);
        true
    }

    /// Where the last cell starts.
    fn last_start(&self) -> u64 {
        let count = self.cells.len();
        if count > 1 {
            self.cells[count - 2].reach
        } else {
            0
        }
    }

    /// Makes the hints for the cells anew. It changes no cell.
    pub fn note_places(&mut self)
        ensures { self.new ≡ self.old }
    {
        let bits = 64 - self.last_start().leading_zeros();
        self.shift = bits.saturating_sub(6);
        let mut place = 0;
        for slot in 0..self.hints.len() {
            let distance = (slot as u64).wrapping_shl(self.shift);
            place = place_over(self.cells.as_slice(), place, distance);
            self.hints[slot] = u8::try_from(place).unwrap_or(0);
        }
    }

    /// A place from which to look for the cell of a distance.
    pub fn near(&self, distance: u64) -> usize
        requires { 0 < length self.now }
        ensures { result < length self.now }
    {
        let last = self.cells.len() - 1;
        match self.hints.get(distance.wrapping_shr(self.shift) as usize) {
            Some(hint) => last.min(usize::from(*hint)),
            None => last,
        }
    }
}
