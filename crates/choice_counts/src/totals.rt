ghost use Rattle.std.specs.Prelude.{◌≡◌, ◌≤◌, ◌<◌, ◌+◌, ◌^◌};
ghost use Rattle.choice_counts.specs.Tallies.{least_part, stuck_part};

use crate::HARD;

/// What is counted for the paths without a literal: how many of them have no choice left, and the
/// sum of the least tallies of the others.
#[derive(Clone, Copy, Debug, PartialEq, Eq)]
pub struct OpenPaths {
    pub stuck: u32,
    pub least: u64,
}

/// What is counted for all paths together, and for the literals themselves.
#[derive(Clone, Copy, Debug, PartialEq, Eq)]
pub struct Totals {
    pub open_paths: OpenPaths,
    /// How many literals clash with each literal, all these numbers added, and 2 more for each that
    /// is outside the arcs.
    pub conflicts: u64,
    /// What each literal adds against all others, all these sums added: twice the sum of the pairs
    /// between them.
    pub twice_inside: u64,
}

/// 1 for a path without a choice left, by its least tally.
fn stuck_part(least: u64) -> u32
    ensures part { result ≡ stuck_part least }
    ensures one { result ≤ 1 }
{
    if least < HARD { 0 } else { 1 }
}

/// The least tally of a path with a choice left.
fn least_part(least: u64) -> u64
    ensures part { result ≡ least_part least }
    ensures small { result ≤ HARD }
{
    if least < HARD { least } else { 0 }
}

impl OpenPaths {
    /// Without a path that had this least tally.
    pub fn without(self, least: u64) -> OpenPaths
        requires stuck { stuck_part least ≤ self.stuck }
        requires least { least_part least ≤ self.least }
        ensures stuck { result.stuck + stuck_part least ≡ self.stuck }
        ensures least { result.least + least_part least ≡ self.least }
    {
        OpenPaths {
            stuck: self.stuck - stuck_part(least),
            least: self.least - least_part(least),
        }
    }

    /// With a further path that has this least tally.
    pub fn with(self, least: u64) -> OpenPaths
        requires stuck { self.stuck < 2 ^ 31 }
        requires least { self.least ≤ 2 ^ 62 }
        ensures stuck { result.stuck ≡ self.stuck + stuck_part least }
        ensures least { result.least ≡ self.least + least_part least }
    {
        OpenPaths {
            stuck: self.stuck + stuck_part(least),
            least: self.least + least_part(least),
        }
    }
}
