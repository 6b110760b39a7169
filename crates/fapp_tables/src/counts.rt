ghost use Rattle.std.specs.Prelude.{◌≡◌, ℕ, ◌+◌, ◌≤◌, nat_lt};
ghost use Rattle.fapp_model.specs.declared.level.TheConstants.{MOST_FURTHER};
ghost use Rattle.fapp_model.specs.Records.{is_bad, same_polarization};
ghost use Rattle.fapp_tables.specs.Heights.{height_of, DistancesFall};
ghost use Rattle.fapp_tables.specs.Measures.{coded_part, hard_part};

use fapp_model::{Choice, MAX_LEVELS, Record, S_SPAN};

/// What records between two choices add at a level: how many of them are hard-bad, and the sum of
/// their pairs.
#[derive(Clone, Copy, Debug, PartialEq, Eq)]
pub struct Counts {
    pub hard: u32,
    pub sum: u64,
}

/// How many distances, from the first on, are above a number.
fn height(dist: &[u32; MAX_LEVELS as usize], n: u32) -> u32
    ensures within { result ≤ MAX_LEVELS }
    ensures height { result ≡ height_of dist.now n }
{
    for level in 0..MAX_LEVELS {
        if dist[level as usize] <= n {
            return level;
        }
    }
    MAX_LEVELS
}

/// Whether two choices have one polarization.
fn is_same(first: Choice, second: Choice) -> bool
    ensures { result ≡ same_polarization first second }
{
    first.pol == second.pol
}

/// At how many levels a record is bad between a choice of its first path and one of its second: at
/// those below.
pub fn record_height(constraint: &Record, first: Choice, second: Choice) -> u32
    requires { DistancesFall constraint.now }
    ensures within { result ≤ MAX_LEVELS }
    ensures bad { (level : ℕ) → is_bad level constraint.now first second ≡ nat_lt level result }
{
    match constraint {
        Record::Freq { .. } | Record::Pol { .. } => 0,
        Record::Same { dist, .. } => {
            if is_same(first, second) {
                height(dist, first.freq.abs_diff(second.freq))
            } else {
                0
            }
        }
        Record::Other { dist, .. } => {
            if is_same(first, second) {
                0
            } else {
                height(dist, first.freq.abs_diff(second.freq))
            }
        }
    }
}

/// What a record adds at a level between a choice of its first path and one of its second.
pub fn record_counts(constraint: &Record, level: u32, first: Choice, second: Choice) -> Counts
    requires falling { DistancesFall constraint.now }
    requires level { level ≤ MAX_LEVELS }
    ensures hard { result.hard ≡ hard_part level constraint.now first second }
    ensures sum { result.sum ≡ coded_part level constraint.now first second }
    ensures one { result.hard ≤ 1 }
    ensures small { result.sum ≤ S_SPAN + MOST_FURTHER }
{
    let height = record_height(constraint, first, second);
    let below = level.saturating_sub(1);
    let before = if below < height { u64::from(S_SPAN) } else { 0 };
    let hard = level < height || constraint.is_broken(first, second);
    Counts {
        hard: if hard { 1 } else { 0 },
        sum: before + u64::from(height.min(below)),
    }
}
