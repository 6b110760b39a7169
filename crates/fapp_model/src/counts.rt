// Violations, counted level by level.
ghost use Rattle.std.specs.Prelude.{◌≡◌, ℕ, ◌+◌, ◌<◌, ◌≤◌, slice_index, if◌then◌else◌};
ghost use Rattle.fapp_model.specs.Records.{is_bad};
ghost use Rattle.fapp_model.specs.Costs.{cost_by, clear_level, sum_under};

use crate::limits::MAX_RECORDS;
use crate::{Choice, MAX_LEVELS, Record, Triple};

/// How many records are bad at each level; the first numbers count, as many as an instance has
/// levels.
pub type ViolationCounts = [u32; MAX_LEVELS as usize];

/// Counts a record at each of the first `levels` levels at which it is bad for a choice of its
/// first path and one of its second.
pub fn add_violations(
    counts: &mut ViolationCounts,
    levels: u32,
    constraint: &Record,
    first: Choice,
    second: Choice,
)
    requires levels { levels ≤ MAX_LEVELS }
    requires few { (level : ℕ) → level < levels → slice_index counts.old level < MAX_RECORDS }
    ensures { (level : ℕ) → level < levels → slice_index counts.new level
        ≡ slice_index counts.old level + (if is_bad level constraint.now first second then 1
        else 0) }
{
    for level in 0..levels {
        if constraint.is_bad(level, first, second) {
            counts[level as usize] += 1;
        }
    }
}

/// The cost of a plan with these numbers of violations at the first `levels` levels.
pub fn triple_of_counts(counts: &ViolationCounts, levels: u32) -> Triple
    requires levels { levels ≤ MAX_LEVELS }
    requires few { (level : ℕ) → level < levels → slice_index counts.now level ≤ MAX_RECORDS }
    ensures { result ≡ cost_by levels (slice_index counts.now) }
{
    let k = clear_level(counts, levels);
    if k == 0 {
        return Triple { k, v: 0, s: 0 };
    }
    let below = k - 1;
    Triple {
        k,
        v: counts[below as usize],
        s: sum_under(counts, below),
    }
}

/// The least level at which nothing is counted.
fn clear_level(counts: &ViolationCounts, levels: u32) -> u32
    requires { levels ≤ MAX_LEVELS }
    ensures within { result ≤ levels }
    ensures clear { result ≡ clear_level levels (slice_index counts.now) }
{
    for level in 0..levels {
        if counts[level as usize] == 0 {
            return level;
        }
    }
    levels
}

/// The sum of the counts of the first `levels` levels.
fn sum_under(counts: &ViolationCounts, levels: u32) -> u32
    requires within { levels ≤ MAX_LEVELS }
    requires few { (level : ℕ) → level < levels → slice_index counts.now level ≤ MAX_RECORDS }
    ensures { result ≡ sum_under (slice_index counts.now) levels }
{
    let mut sum = 0;
    for level in 0..levels {
        sum += counts[level as usize];
    }
    sum
}
