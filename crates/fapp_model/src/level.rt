ghost use Rattle.std.specs.Prelude.{◌≡◌, ◌≤◌};
ghost use Rattle.fapp_model.specs.Levels.{levels_of};

use crate::Instance;

/// The number of relaxation levels of an instance. They count from 0, and a compatibility record
/// has a distance at each of them.
pub const LEVELS: u32 = 11;

/// The most relaxation levels that an instance may have: so many distances a compatibility record
/// has room for.
pub const MAX_LEVELS: u32 = 11;

/// The most levels further below at which one record is bad.
pub const MOST_FURTHER: u64 = MAX_LEVELS as u64 - 1;

/// The level of an instance at which nothing is violated: one above its last level with distances.
/// It is from 1 to `MAX_LEVELS`.
#[tactic(auto, unfolding(crate::specs::Levels::levels_of))]
pub fn levels(_instance: &Instance) -> u32
    ensures levels { result ≡ levels_of _instance.now }
    ensures some { 1 ≤ result }
    ensures few { result ≤ MAX_LEVELS }
{
    LEVELS
}
