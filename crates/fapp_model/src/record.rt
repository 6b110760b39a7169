ghost use Rattle.std.specs.Prelude.{◌≡◌, ◌≤◌};
ghost use Rattle.std.specs.Ordering.{int_eq};
ghost use Rattle.fapp_model.specs.Records.{first_path, second_path, is_broken, is_bad, is_closer};

use crate::{Choice, MAX_LEVELS};

/// A constraint between two different paths, by their positions `i` and `j`. Frequencies and
/// distances are in the unit of the instance's text.
#[derive(Debug, Drop)]
pub enum Record {
    /// Imperative: the distance of the frequencies is `n`, or is not `n`.
    Freq {
        i: u16,
        j: u16,
        equal: bool,
        n: u32,
    },
    /// Imperative: the polarizations are equal, or are not.
    Pol {
        i: u16,
        j: u16,
        equal: bool,
    },
    /// Compatibility: the least distance at each level where the polarizations are equal. It
    /// doesn't rise.
    Same {
        i: u16,
        j: u16,
        dist: [u32; MAX_LEVELS as usize],
    },
    /// Compatibility: the least distance at each level where the polarizations differ. It doesn't
    /// rise.
    Other {
        i: u16,
        j: u16,
        dist: [u32; MAX_LEVELS as usize],
    },
}

impl Record {
    /// The position of the first path that it names.
    pub fn first_path(&self) -> u16
        ensures { result ≡ first_path self.now }
    {
        match self {
            Record::Freq { i, .. }
            | Record::Pol { i, .. }
            | Record::Same { i, .. }
            | Record::Other { i, .. } => *i,
        }
    }

    /// The position of the second path that it names.
    pub fn second_path(&self) -> u16
        ensures { result ≡ second_path self.now }
    {
        match self {
            Record::Freq { j, .. }
            | Record::Pol { j, .. }
            | Record::Same { j, .. }
            | Record::Other { j, .. } => *j,
        }
    }

    /// Whether it is imperative and broken by a choice of its first path and one of its second.
    pub fn is_broken(&self, first: Choice, second: Choice) -> bool
        ensures { result ≡ is_broken self.now first second }
    {
        match self {
            Record::Freq { equal, n, .. } => (first.freq.abs_diff(second.freq) == *n) != *equal,
            Record::Pol { equal, .. } => same_polarization(first, second) != *equal,
            Record::Same { .. } | Record::Other { .. } => false,
        }
    }

    /// Whether it is a compatibility record that is bad at a level for a choice of its first path
    /// and one of its second: they are closer than the distance of that level. At a level without a
    /// distance nothing is bad.
    pub fn is_bad(&self, level: u32, first: Choice, second: Choice) -> bool
        ensures { result ≡ is_bad level self.now first second }
    {
        match self {
            Record::Freq { .. } | Record::Pol { .. } => false,
            Record::Same { dist, .. } => {
                same_polarization(first, second) && is_closer(first, second, dist, level)
            }
            Record::Other { dist, .. } => {
                !same_polarization(first, second) && is_closer(first, second, dist, level)
            }
        }
    }
}

/// Whether two choices have one polarization.
fn same_polarization(first: Choice, second: Choice) -> bool
    ensures { result ≡ int_eq first.pol second.pol }
{
    first.pol == second.pol
}

/// Whether two choices are closer than the distance of a level, where the level has one.
fn is_closer(first: Choice, second: Choice, dist: &[u32], level: u32) -> bool
    ensures { result ≡ is_closer level dist.now first second }
{
    match dist.get(level as usize) {
        Some(least) => first.freq.abs_diff(second.freq) < *least,
        None => false,
    }
}
