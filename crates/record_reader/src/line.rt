ghost use Rattle.std.specs.Prelude.{◌≡◌, ◌+◌, ◌<◌, ◌≤◌, ◌∷◌, List, Ok, Err, IsTrue, length, map, drop};
ghost use Rattle.record_reader.specs.Entries.{kind_of, field_count, entry_of, constraint, domain_entry, path_entry, imperative, imperative_entry, compatible, compatible_entry, distances, rises, rule_rises};
ghost use Rattle.record_reader.specs.Fields.{field};
ghost use Rattle.record_reader.specs.declared.entry.Entry.TheVariants as entries;
ghost use Rattle.record_reader.specs.declared.entry.Pending.TheVariants as links;

use crate::Cause;
use crate::entry::{ConstraintEntry, Demand, DomainEntry, Entry, Kind, PathEntry, Pending};
use crate::field::{field_at, number_at, polarization_at, word_at};
use fapp_model::MAX_LEVELS;
use fapp_text::is;

/// What the first field of a line names.
fn kind_of(word: &[u8]) -> Result<Kind, Cause>
    ensures { result ≡ kind_of word.now }
{
    if is(word, b"DM") {
        return Ok(Kind::Domain);
    }
    if is(word, b"TR") {
        return Ok(Kind::Path);
    }
    if is(word, b"CI") {
        return Ok(Kind::Imperative);
    }
    if is(word, b"CE") {
        return Ok(Kind::Same);
    }
    if is(word, b"CD") {
        return Ok(Kind::Other);
    }
    Err(Cause::UnknownRecord)
}

/// How many fields a record has.
fn field_count(levels: u32, kind: Kind) -> usize
    requires { levels ≤ MAX_LEVELS }
    ensures { result ≡ field_count levels kind }
{
    match kind {
        Kind::Domain => 3,
        Kind::Path => 4,
        Kind::Imperative => 6,
        Kind::Same | Kind::Other => 3 + levels as usize,
    }
}

fn domain_entry(fields: &[&[u8]]) -> Result<Entry, Cause>
    requires { length fields.now ≡ 3 }
    ensures { result ≡ domain_entry (map (λ x. x.now) fields.now) }
{
    Ok(Entry::Domain(DomainEntry {
        domain: number_at(fields, 1)?,
        frequency: number_at(fields, 2)?,
    }))
}

fn path_entry(line: u32, fields: &[&[u8]]) -> Result<Entry, Cause>
    requires { length fields.now ≡ 4 }
    ensures { result ≡ path_entry line (map (λ x. x.now) fields.now) }
{
    let number = number_at(fields, 1)?;
    let domain = number_at(fields, 2)?;
    let pol = polarization_at(fields, 3)?;
    Ok(path(line, number, domain, pol))
}

fn path(line: u32, number: u32, domain: u32, pol: i8) -> Entry
    ensures { result ≡ entries.Pending (links.Path
        (record { line = line; number = number; domain = domain; pol = pol })) }
{
    Entry::Pending(Pending::Path(PathEntry {
        line,
        number,
        domain,
        pol,
    }))
}

fn imperative_entry(line: u32, fields: &[&[u8]]) -> Result<Entry, Cause>
    requires { length fields.now ≡ 6 }
    ensures { result ≡ imperative_entry line (map (λ x. x.now) fields.now) }
{
    let first = number_at(fields, 1)?;
    let second = number_at(fields, 2)?;
    let of_frequencies = word_at(fields, 3, b"F", b"P")?;
    let equal = word_at(fields, 4, b"E", b"I")?;
    let n = number_at(fields, 5)?;
    constraint(line, first, second, imperative(of_frequencies, equal, n))
}

/// The rule of frequencies or that of polarizations, whose number is ignored.
fn imperative(of_frequencies: bool, equal: bool, n: u32) -> Demand
    ensures { result ≡ imperative of_frequencies equal n }
{
    if of_frequencies {
        Demand::Freq { equal, n }
    } else {
        Demand::Pol { equal }
    }
}

fn compatible_entry(
    levels: u32,
    line: u32,
    fields: &[&[u8]],
    of_equal: bool,
) -> Result<Entry, Cause>
    requires levels { levels ≤ MAX_LEVELS }
    requires count { length fields.now ≡ 3 + levels }
    ensures { result ≡ compatible_entry of_equal line (map (λ x. x.now) fields.now) }
{
    let first = number_at(fields, 1)?;
    let second = number_at(fields, 2)?;
    let dist = distances(levels, fields)?;
    constraint(line, first, second, compatible(of_equal, dist))
}

/// The rule of equal polarizations or that of different ones.
fn compatible(of_equal: bool, dist: [u32; MAX_LEVELS as usize]) -> Demand
    ensures { result ≡ compatible of_equal dist }
{
    if of_equal {
        Demand::Same { dist }
    } else {
        Demand::Other { dist }
    }
}

/// The numbers of the fields from the fourth on, one for each level, and 0 where there is no level.
fn distances(levels: u32, fields: &[&[u8]]) -> Result<[u32; MAX_LEVELS as usize], Cause>
    requires levels { levels ≤ MAX_LEVELS }
    requires count { length fields.now ≡ 3 + levels }
    ensures { result ≡ distances (drop 3 (map (λ x. x.now) fields.now)) }
{
    let mut dist = [0; MAX_LEVELS as usize];
    for level in 0..levels as usize {
        dist[level] = number_at(fields, level + 3)?;
    }
    Ok(dist)
}

/// The entry of a constraint between two different paths, whose distances do not rise.
fn constraint(line: u32, first: u32, second: u32, rule: Demand) -> Result<Entry, Cause>
    ensures { result ≡ constraint line first second rule }
{
    if first == second {
        return Err(Cause::SelfPair);
    }
    if rule_rises(&rule) {
        return Err(Cause::Increasing);
    }
    Ok(Entry::Pending(Pending::Constraint(ConstraintEntry {
        line,
        first,
        second,
        rule,
    })))
}

fn rule_rises(rule: &Demand) -> bool
    ensures { result ≡ rule_rises rule.now }
{
    match rule {
        Demand::Freq { .. } | Demand::Pol { .. } => false,
        Demand::Same { dist } | Demand::Other { dist } => rises(dist),
    }
}

/// Whether a number is greater than the one before it.
fn rises(dist: &[u32]) -> bool
    ensures { result ≡ rises dist.now }
{
    let mut last = u32::MAX;
    for distance in dist {
        if *distance > last {
            return true;
        }
        last = *distance;
    }
    false
}

/// What a line with fields says, where there are so many levels.
pub(crate) fn entry_of(levels: u32, line: u32, fields: &[&[u8]]) -> Result<Entry, Cause>
    requires levels { levels ≤ MAX_LEVELS }
    requires some { 0 < length fields.now }
    ensures { result ≡ entry_of levels line (map (λ x. x.now) fields.now) }
{
    let kind = kind_of(field_at(fields, 0))?;
    if fields.len() != field_count(levels, kind) {
        return Err(Cause::FieldCount);
    }
    match kind {
        Kind::Domain => domain_entry(fields),
        Kind::Path => path_entry(line, fields),
        Kind::Imperative => imperative_entry(line, fields),
        Kind::Same => compatible_entry(levels, line, fields, true),
        Kind::Other => compatible_entry(levels, line, fields, false),
    }
}
