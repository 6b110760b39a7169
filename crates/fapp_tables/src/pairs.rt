ghost use Rattle.std.specs.Prelude.{◌≡◌, ◌≢◌, ◌≤◌, ◌<◌, ◌+◌, ◌*◌, length};
ghost use Rattle.fapp_model.specs.declared.level.TheConstants.{MOST_FURTHER};
ghost use Rattle.fapp_model.specs.Instances.{IsInstance};
ghost use Rattle.fapp_model.specs.search.Clashes.{is_hard_bad};
ghost use Rattle.fapp_tables.specs.Indexes.{between_choices, clashes_between, record_at, records_of, turned, turned_bad};
ghost use Rattle.fapp_tables.specs.Measures.{coded_part, hard_part};

use crate::{Counts, record_counts};
use fapp_model::{Choice, Instance, MAX_LEVELS, MAX_RECORDS, Record, S_SPAN};

/// The record at a position.
fn record_at(instance: &Instance, position: u32) -> &Record
    requires { position < length instance.now.records }
    ensures { result.now ≡ record_at instance.now position }
{
    &instance.records.as_slice()[position as usize]
}

/// What a record of a path adds at a level, by the path's choice and the other path's.
fn turned_counts(
    instance: &Instance,
    position: u32,
    level: u32,
    path: u16,
    first: Choice,
    second: Choice,
) -> Counts
    requires instance { IsInstance instance.now }
    requires level { level ≤ MAX_LEVELS }
    requires position { position < length instance.now.records }
    ensures hard { result.hard ≡ turned (hard_part level) path first second
        (record_at instance.now position) }
    ensures sum { result.sum ≡ turned (coded_part level) path first second
        (record_at instance.now position) }
    ensures one { result.hard ≤ 1 }
    ensures small { result.sum ≤ S_SPAN + MOST_FURTHER }
{
    let constraint = record_at(instance, position);
    if constraint.first_path() == path {
        record_counts(constraint, level, first, second)
    } else {
        record_counts(constraint, level, second, first)
    }
}

/// Whether a record is hard-bad at a level between a choice of its first path and one of its
/// second.
fn is_hard_bad(constraint: &Record, level: u32, first: Choice, second: Choice) -> bool
    ensures { result ≡ is_hard_bad level constraint.now first second }
{
    constraint.is_broken(first, second) || constraint.is_bad(level, first, second)
}

/// Whether a record of a path is hard-bad at a level, by the path's choice and the other path's.
fn is_turned_bad(
    instance: &Instance,
    position: u32,
    level: u32,
    path: u16,
    first: Choice,
    second: Choice,
) -> bool
    requires { position < length instance.now.records }
    ensures { result ≡ turned_bad level path first second (record_at instance.now position) }
{
    let constraint = record_at(instance, position);
    if constraint.first_path() == path {
        is_hard_bad(constraint, level, first, second)
    } else {
        is_hard_bad(constraint, level, second, first)
    }
}

/// Whether some record is hard-bad at a level between a choice of a path and one of another path.
pub fn pair_clashes(
    instance: &Instance,
    positions: &[u32],
    level: u32,
    path: u16,
    other: u16,
    first: Choice,
    second: Choice,
) -> bool
    requires apart { path ≢ other }
    requires positions { positions.now ≡ records_of instance.now path other }
    ensures { result ≡ clashes_between instance.now level path other first second }
{
    for position in positions {
        if is_turned_bad(instance, *position, level, path, first, second) {
            return true;
        }
    }
    false
}

/// What the records between a choice of a path and one of another path add at a level.
pub fn pair_counts(
    instance: &Instance,
    positions: &[u32],
    level: u32,
    path: u16,
    other: u16,
    first: Choice,
    second: Choice,
) -> Counts
    requires instance { IsInstance instance.now }
    requires level { level ≤ MAX_LEVELS }
    requires apart { path ≢ other }
    requires positions { positions.now ≡ records_of instance.now path other }
    ensures hard { result.hard ≡ between_choices instance.now (hard_part level) path other first
        second }
    ensures sum { result.sum ≡ between_choices instance.now (coded_part level) path other first
        second }
    ensures few { result.hard ≤ MAX_RECORDS }
    ensures small { result.sum ≤ MAX_RECORDS * (S_SPAN + MOST_FURTHER) }
{
    let mut hard = 0;
    let mut sum = 0;
    for position in positions {
        let counts = turned_counts(instance, *position, level, path, first, second);
        hard += counts.hard;
        sum += counts.sum;
    }
    Counts { hard, sum }
}
