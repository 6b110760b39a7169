ghost use Rattle.std.specs.Prelude.{◌≡◌, ◌<◌, length, slice_set, Contains, IsTrue};

use std::marker::Model;

/// What a literal that clashes with a choice counts in the choice's tally, and so does a choice
/// outside the arcs. It is more than the pairs of all records come to, so a tally below it is the
/// sum of the pairs alone.
pub const HARD: u64 = 1 << 48;

/// More than any tally.
pub const NO_TALLY: u64 = 1 << 62;

/// A tally for each choice of a path, written in place, and a mark at one of them. Contracts see
/// the list.
#[derive(Debug, Drop)]
pub struct Tallies {
    tallies: Vec<u64>,
    marked: usize,
}

impl Model for Tallies {
    ghost use Rattle.std.specs.Prelude.{List, ℕ};

    ghost Value = { List ℕ };

    ghost view = { λ it. it.tallies.items };
}

/// What is counted for a path: a tally for each choice, and the least of them.
#[derive(Debug, Drop)]
pub struct PathTallies {
    pub tallies: Tallies,
    pub least: u64,
}

impl Tallies {
    ghost use Rattle.choice_counts.specs.Tallies.{tally_at};

    /// The tallies of a `Vec`, in place; the first one is marked.
    pub fn from_vec(tallies: Vec<u64>) -> Tallies
        ensures { result ≡ tallies.items }
    {
        Tallies { tallies, marked: 0 }
    }

    /// How many tallies there are.
    pub fn len(&self) -> usize
        ensures { result ≡ length self.now }
    {
        self.tallies.len()
    }

    /// The tally at an index.
    pub fn get(&self, index: usize) -> u64
        requires { index < length self.now }
        ensures { result ≡ tally_at self.now index }
    {
        self.tallies[index]
    }

    /// Writes the tally at an index.
    pub fn set(&mut self, index: usize, tally: u64)
        requires { index < length self.old }
        ensures { self.new ≡ slice_set self.old index tally }
    {
        self.tallies[index] = tally;
    }

    /// Marks the tally at an index, and no other.
    pub fn mark(&mut self, index: usize)
        ensures { self.new ≡ self.old }
    {
        self.marked = index;
    }

    /// Whether the marked tally is a given one. Where it is not, others may be.
    pub fn has_marked(&self, tally: u64) -> bool
        ensures { IsTrue result → Contains self.now tally }
    {
        match self.tallies.get(self.marked) {
            Some(marked) => *marked == tally,
            None => false,
        }
    }
}
