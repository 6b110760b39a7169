ghost use Rattle.std.specs.Prelude.{◌≡◌, ◌<◌, length, slice_set};

use std::marker::Model;

/// A height for each choice of a path: 0 while it is within the arcs, and one more than the level
/// at which it was removed from then on.
#[derive(Debug, Drop)]
pub struct Heights {
    heights: Vec<u8>,
}

impl Model for Heights {
    ghost use Rattle.std.specs.Prelude.{List, ℕ};

    ghost Value = { List ℕ };

    ghost view = { λ it. it.heights.items };
}

impl Heights {
    ghost use Rattle.arc_levels.specs.Heights.{height_of};

    /// The heights of a `Vec`, in place.
    pub fn from_vec(heights: Vec<u8>) -> Heights
        ensures { result ≡ heights.items }
    {
        Heights { heights }
    }

    /// The height at an index.
    pub fn get(&self, index: usize) -> u8
        requires { index < length self.now }
        ensures { result ≡ height_of self.now index }
    {
        self.heights[index]
    }

    /// Writes the height at an index.
    pub fn set(&mut self, index: usize, height: u8)
        requires { index < length self.old }
        ensures { self.new ≡ slice_set self.old index height }
    {
        self.heights[index] = height;
    }
}
