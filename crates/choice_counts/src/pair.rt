ghost use Rattle.std.specs.Prelude.{◌≡◌, ◌≢◌, ◌<◌, ◌≤◌, ◌^◌, Bool};
ghost use Rattle.choice_counts.specs.declared.breaks.TheConstants.{NO_REACH};
ghost use Rattle.choice_counts.specs.Cells.{IsCell};
ghost use Rattle.choice_counts.specs.Distances.{choices_tally, far, near, tally_apart};
ghost use Rattle.fapp_model.specs.declared.level.TheConstants.{MAX_LEVELS};
ghost use Rattle.fapp_model.specs.Instances.{IsInstance};
ghost use Rattle.fapp_tables.specs.Indexes.{records_of};

use crate::HARD;
use crate::breaks::next_reach;
use crate::cells::Cell;
use fapp_model::{Choice, Instance};
use fapp_tables::pair_counts;

/// Two neighbouring paths, and the level that tallies are of.
#[derive(Clone, Copy, Debug)]
pub struct Edge<'a> {
    pub instance: &'a Instance,
    pub level: u32,
    pub path: u16,
    pub other: u16,
    /// Where the records between the two paths stand.
    pub positions: &'a [u32],
    ghost low: { level ≤ MAX_LEVELS },
    ghost apart: { path ≢ other },
    ghost found: { positions.now ≡ records_of instance.now path other },
}

/// A choice, to tell distances from.
fn near() -> Choice
    ensures { result ≡ near }
{
    Choice { freq: 0, pol: 1 }
}

/// A choice that is so far from `near`, of the same polarization or the other.
fn far(same: bool, distance: u32) -> Choice
    ensures { result ≡ far same distance }
{
    if same {
        Choice {
            freq: distance,
            pol: 1,
        }
    } else {
        Choice {
            freq: distance,
            pol: -1,
        }
    }
}

impl<'a> Edge<'a> {
    /// What a choice of the path and one of the other path count in each other's tallies: the sum
    /// of the pairs of the records between them, and `HARD` where one of these is hard-bad.
    pub fn tally(&self, first: Choice, second: Choice) -> u64
        requires { IsInstance self.now.instance.now }
        ensures tally { result ≡ choices_tally self.now.instance.now self.now.level self.now.path
            self.now.other first second }
        ensures small { result ≤ 2 ^ 49 }
    {
        let counts = pair_counts(
            self.instance,
            self.positions,
            self.level,
            self.path,
            self.other,
            first,
            second,
        );
        if counts.hard > 0 {
            HARD + counts.sum
        } else {
            counts.sum
        }
    }

    /// The tally of choices that are so far apart.
    fn tally_apart(&self, same: bool, distance: u32) -> u64
        requires { IsInstance self.now.instance.now }
        ensures { result ≡ tally_apart self.now.instance.now self.now.level self.now.path
            self.now.other same distance }
    {
        self.tally(near(), far(same, distance))
    }

    /// The tallies of choices that are so far apart, and how far they stay the same.
    pub fn cell(&self, distance: u32) -> Cell
        requires { IsInstance self.now.instance.now }
        ensures above { distance < result.reach }
        ensures within { result.reach ≤ NO_REACH }
        ensures tallies { IsCell self.now.instance.now self.now.level self.now.path self.now.other
            distance result }
    {
        Cell {
            reach: next_reach(self.instance, self.positions, distance),
            same: self.tally_apart(true, distance),
            other: self.tally_apart(false, distance),
        }
    }
}
