// From which frequency on a choice of another path may go with a choice.
ghost use Rattle.std.specs.Prelude.{◌≡◌, ◌<◌, ◌≤◌, length, nat_le, ◌==◌, not, slice_index};
ghost use Rattle.std.specs.Int.{abs_diff};
ghost use Rattle.fapp_model.specs.declared.level.TheConstants.{MAX_LEVELS};
ghost use Rattle.fapp_model.specs.Instances.{IsNumber};
ghost use Rattle.fapp_model.specs.Records.{is_closer, same_polarization};
ghost use Rattle.fapp_model.specs.search.Clashes.{is_hard_bad};
ghost use Rattle.fapp_tables.specs.Indexes.{neighbours_of};
ghost use Rattle.arc_levels.specs.Gaps.{IsFirst, IsNextApart, IsPair, IsPairOf, pair_clash};

use fapp_model::{Choice, Instance, MAX_LEVELS, Record};
use fapp_tables::Tables;

/// Two paths that share records, at a level.
#[derive(Clone, Copy)]
pub struct Edge<'a> {
    pub instance: &'a Instance,
    pub level: u32,
    pub path: u16,
    pub other: u16,
    /// The positions of the records that name both.
    pub positions: &'a [u32],
}

/// The pair of a path's neighbour, by its place among all, and the path itself as the other one.
pub fn pair_at<'t>(tables: &'t Tables, level: u32, other: u16, place: usize) -> Edge<'t>
    requires level { level ≤ MAX_LEVELS }
    requires other { other < length tables.now.paths }
    requires place { place < length (neighbours_of tables.now other) }
    ensures pair { IsPair result }
    ensures of { IsPairOf tables.now level (slice_index (neighbours_of tables.now other) place)
        other result }
{
    Edge {
        instance: tables.instance(),
        level,
        path: tables.neighbours(other)[place],
        other,
        positions: tables.records_at(other, place),
    }
}

/// Whether two choices have one polarization.
fn is_same(first: Choice, second: Choice) -> bool
    ensures { result ≡ same_polarization first second }
{
    first.pol == second.pol
}

/// The first number from `number` on that is at least so far from `middle`.
fn away(middle: u32, number: u32, least: u32) -> u32
    requires middle { IsNumber middle }
    requires number { IsNumber number }
    ensures { IsFirst (λ n. nat_le least (abs_diff middle n)) number result }
{
    if middle.abs_diff(number) < least {
        middle.saturating_add(least)
    } else {
        number
    }
}

/// The first number from `number` on that is exactly so far from `middle`.
fn exactly(middle: u32, number: u32, far: u32) -> u32
    requires middle { IsNumber middle }
    requires number { IsNumber number }
    ensures { IsFirst (λ n. abs_diff middle n == far) number result }
{
    if number.saturating_add(far) <= middle {
        middle - far
    } else if number <= middle.saturating_add(far) {
        middle.saturating_add(far)
    } else {
        u32::MAX
    }
}

/// The first number from `number` on that is not exactly so far from `middle`.
fn unlike(middle: u32, number: u32, far: u32) -> u32
    requires middle { IsNumber middle }
    requires number { IsNumber number }
    ensures { IsFirst (λ n. not (abs_diff middle n == far)) number result }
{
    if middle.abs_diff(number) == far {
        number + 1
    } else {
        number
    }
}

/// The next frequency from that of a choice on at which it is not closer to another one than the
/// distance of a level.
fn level_next(dist: &[u32], level: u32, first: Choice, second: Choice) -> u32
    requires first { IsNumber first.freq }
    requires second { IsNumber second.freq }
    ensures { IsNextApart (is_closer level dist.now first) second result }
{
    match dist.get(level as usize) {
        Some(least) => away(first.freq, second.freq, *least),
        None => second.freq,
    }
}

/// The next frequency from that of a choice on at which a record is not hard-bad against another
/// choice.
fn record_next(constraint: &Record, level: u32, first: Choice, second: Choice) -> u32
    requires first { IsNumber first.freq }
    requires second { IsNumber second.freq }
    ensures { IsNextApart (is_hard_bad level constraint.now first) second result }
{
    let is_alike = is_same(first, second);
    match constraint {
        Record::Freq { equal: true, n, .. } => exactly(first.freq, second.freq, *n),
        Record::Freq {
            equal: false,
            n,
            ..
        } => unlike(first.freq, second.freq, *n),
        Record::Pol { equal, .. } if is_alike != *equal => u32::MAX,
        Record::Same { dist, .. } if is_alike => level_next(dist, level, first, second),
        Record::Other { dist, .. } if !is_alike => level_next(dist, level, first, second),
        Record::Pol { .. } | Record::Same { .. } | Record::Other { .. } => second.freq,
    }
}

/// The next frequency from that of a choice of the other path on at which no record of the pair is
/// hard-bad.
pub fn pair_next(pair: &Edge, first: Choice, second: Choice) -> u32
    requires pair { IsPair pair.now }
    requires first { IsNumber first.freq }
    requires second { IsNumber second.freq }
    ensures { IsNextApart (pair_clash pair.now first) second result }
{
    let records = pair.instance.records.as_slice();
    let mut next = second.freq;
    for position in pair.positions {
        next = next.max(record_next(&records[*position as usize], pair.level, first, second));
    }
    next
}
