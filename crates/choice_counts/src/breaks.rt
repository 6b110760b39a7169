ghost use Rattle.std.specs.Prelude.{◌≡◌, ◌⊎◌, ℕ, ◌<◌, ◌≤◌, length, slice_index, All};
ghost use Rattle.choice_counts.specs.Breaks.{IsSteady};
ghost use Rattle.fapp_tables.specs.Indexes.{record_at};

use fapp_model::{Instance, MAX_LEVELS, Record};

/// Further than any two frequencies are apart.
pub const NO_REACH: u64 = 1 << 32;

/// The least of a record's distances that is above another distance, or `NO_REACH`.
fn least_above(dist: &[u32; MAX_LEVELS as usize], distance: u32) -> u64
    ensures above { distance < result }
    ensures within { result ≤ NO_REACH }
    ensures least { (level : ℕ) → (slice_index dist.now level ≤ distance)
        ⊎ (result ≤ slice_index dist.now level) }
{
    let mut least = NO_REACH;
    for reach in dist {
        if *reach > distance {
            least = least.min(u64::from(*reach));
        }
    }
    least
}

/// A distance up to which a record says of two choices what it says at another distance.
fn next_break(constraint: &Record, distance: u32) -> u64
    ensures above { distance < result }
    ensures within { result ≤ NO_REACH }
    ensures steady { IsSteady constraint.now distance result }
{
    match constraint {
        Record::Freq { n, .. } => {
            if distance < *n {
                u64::from(*n)
            } else if distance == *n {
                u64::from(distance) + 1
            } else {
                NO_REACH
            }
        }
        Record::Pol { .. } => NO_REACH,
        Record::Same { dist, .. } | Record::Other { dist, .. } => least_above(dist, distance),
    }
}

/// A distance up to which each of some records says of two choices what it says at another
/// distance.
pub fn next_reach(instance: &Instance, positions: &[u32], distance: u32) -> u64
    requires positions { All (λ k. k < length instance.now.records) positions.now }
    ensures above { distance < result }
    ensures within { result ≤ NO_REACH }
    ensures steady { All (λ k. IsSteady (record_at instance.now k) distance result) positions.now }
{
    let records = instance.records.as_slice();
    let mut reach = NO_REACH;
    for position in positions {
        reach = reach.min(next_break(&records[*position as usize], distance));
    }
    reach
}
