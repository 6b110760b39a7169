//! What records between literals say and add, by the positions of the records.

ghost use Rattle.std.specs.Prelude.{◌≡◌, ◌<◌, ◌≤◌, ◌*◌, ◌^◌, length, All, if◌then◌else◌};
ghost use Rattle.fapp_model.specs.search.Clashes.{joins, is_hard_bad};
ghost use Rattle.fapp_model.specs.Instances.{IsInstance};
ghost use Rattle.fapp_model.specs.search.Partials.{choice_of, IsLiteral};
ghost use Rattle.fapp_model.specs.search.Weights.{bad_before, bad_further};
ghost use Rattle.cert_check.specs.RecordsNamed.{ArePlaces, blocks_at, between_at, clashes_with_at, added_at, row_at};
ghost use Rattle.cert_check.specs.Weights.{pair_most};

use crate::weight::Weight;
use fapp_model::{Choice, Instance, Literal, MAX_LEVELS, MAX_RECORDS, Record, choice_at};

/// The choice of a literal.
fn choice_of(instance: &Instance, a: Literal) -> Choice
    requires instance { IsInstance instance.now }
    requires literal { IsLiteral instance.now a }
    ensures { result ≡ choice_of instance.now a }
{
    choice_at(&instance.paths.as_slice()[a.path as usize], a.choice as u32)
}

/// Whether a constraint names one path first and the other second.
fn joins(constraint: &Record, first: u16, second: u16) -> bool
    ensures { result ≡ joins first second constraint.now }
{
    constraint.first_path() == first && constraint.second_path() == second
}

/// Whether a constraint is broken, or is bad at a level.
fn is_hard_bad(level: u32, constraint: &Record, first: Choice, second: Choice) -> bool
    ensures { result ≡ is_hard_bad level constraint.now first second }
{
    constraint.is_broken(first, second) || constraint.is_bad(level, first, second)
}

/// 1 where something holds.
fn one_if(holds: bool) -> u64
    ensures value { result ≡ (if holds then 1 else 0) }
    ensures small { result ≤ 1 }
{
    if holds { 1 } else { 0 }
}

/// 1 where a constraint is bad one level below a level.
fn bad_before(level: u32, constraint: &Record, first: Choice, second: Choice) -> u64
    ensures value { result ≡ bad_before level constraint.now first second }
    ensures small { result ≤ 1 }
{
    one_if(constraint.is_bad(level.saturating_sub(1), first, second))
}

/// The number of levels further below at which a constraint is bad.
fn bad_further(level: u32, constraint: &Record, first: Choice, second: Choice) -> u64
    requires { level ≤ MAX_LEVELS }
    ensures value { result ≡ bad_further level constraint.now first second }
    ensures small { result ≤ MAX_LEVELS }
{
    let mut count = 0;
    for below in 0..level.saturating_sub(1) {
        count += one_if(constraint.is_bad(below, first, second));
    }
    count
}

/// What a constraint adds, where it names one path first and the other second.
fn weight_of(
    level: u32,
    constraint: &Record,
    paths: (u16, u16),
    first: Choice,
    second: Choice,
) -> Weight
    requires { level ≤ MAX_LEVELS }
    ensures v { let named = joins paths.0 paths.1 constraint.now in
        result.v ≡ (if named then bad_before level constraint.now first second else 0) }
    ensures s { let named = joins paths.0 paths.1 constraint.now in
        result.s ≡ (if named then bad_further level constraint.now first second else 0) }
    ensures small_v { result.v ≤ 1 }
    ensures small_s { result.s ≤ MAX_LEVELS }
{
    if joins(constraint, paths.0, paths.1) {
        Weight {
            v: bad_before(level, constraint, first, second),
            s: bad_further(level, constraint, first, second),
        }
    } else {
        Weight { v: 0, s: 0 }
    }
}

/// Whether one of some records that name the first literal's path first is hard-bad between the
/// two.
fn blocks(instance: &Instance, places: &[u32], level: u32, a: Literal, b: Literal) -> bool
    requires instance { IsInstance instance.now }
    requires places { ArePlaces instance.now places.now }
    requires first { IsLiteral instance.now a }
    requires second { IsLiteral instance.now b }
    ensures { result ≡ blocks_at instance.now places.now level a b }
{
    let first = choice_of(instance, a);
    let second = choice_of(instance, b);
    let constraints = instance.records.as_slice();
    for place in places {
        let constraint = &constraints[*place as usize];
        if joins(constraint, a.path, b.path) && is_hard_bad(level, constraint, first, second) {
            return true;
        }
    }
    false
}

/// What some records add that name the first literal's path first and the second's second.
fn between(instance: &Instance, places: &[u32], level: u32, a: Literal, b: Literal) -> Weight
    requires instance { IsInstance instance.now }
    requires places { ArePlaces instance.now places.now }
    requires few { length places.now ≤ MAX_RECORDS }
    requires level { level ≤ MAX_LEVELS }
    requires first { IsLiteral instance.now a }
    requires second { IsLiteral instance.now b }
    ensures v { result.v ≡ between_at instance.now places.now (bad_before level) a b }
    ensures s { result.s ≡ between_at instance.now places.now (bad_further level) a b }
    ensures small_v { result.v ≤ length places.now }
    ensures small_s { result.s ≤ length places.now * MAX_LEVELS }
{
    let first = choice_of(instance, a);
    let second = choice_of(instance, b);
    let constraints = instance.records.as_slice();
    let mut sum = Weight { v: 0, s: 0 };
    for place in places {
        let constraint = &constraints[*place as usize];
        let more = weight_of(level, constraint, (a.path, b.path), first, second);
        sum.v += more.v;
        sum.s += more.s;
    }
    sum
}

/// Whether one of some records is hard-bad between a literal and one of a list.
pub(crate) fn clashes_with(
    instance: &Instance,
    places: &[u32],
    level: u32,
    literals: &[Literal],
    a: Literal,
) -> bool
    requires instance { IsInstance instance.now }
    requires places { ArePlaces instance.now places.now }
    requires literals { All (IsLiteral instance.now) literals.now }
    requires literal { IsLiteral instance.now a }
    ensures { result ≡ clashes_with_at instance.now places.now level literals.now a }
{
    for b in literals {
        if blocks(instance, places, level, a, *b) || blocks(instance, places, level, *b, a) {
            return true;
        }
    }
    false
}

/// What some records between a literal and those of a list add.
pub(crate) fn added(
    instance: &Instance,
    places: &[u32],
    level: u32,
    literals: &[Literal],
    a: Literal,
) -> Weight
    requires instance { IsInstance instance.now }
    requires places { ArePlaces instance.now places.now }
    requires few { length places.now ≤ MAX_RECORDS }
    requires level { level ≤ MAX_LEVELS }
    requires literals { All (IsLiteral instance.now) literals.now }
    requires few_literals { length literals.now ≤ 2 ^ 14 }
    requires literal { IsLiteral instance.now a }
    ensures v { result.v ≡ added_at instance.now places.now (bad_before level) literals.now a }
    ensures s { result.s ≡ added_at instance.now places.now (bad_further level) literals.now a }
    ensures small_v { result.v ≤ length literals.now * (2 * pair_most) }
    ensures small_s { result.s ≤ length literals.now * (2 * pair_most) }
{
    let mut sum = Weight { v: 0, s: 0 };
    for b in literals {
        let there = between(instance, places, level, a, *b);
        let back = between(instance, places, level, *b, a);
        sum.v += there.v + back.v;
        sum.s += there.s + back.s;
    }
    sum
}

/// What some records that name a literal's path first add between it and those of a list.
pub(crate) fn row(
    instance: &Instance,
    places: &[u32],
    level: u32,
    literals: &[Literal],
    a: Literal,
) -> Weight
    requires instance { IsInstance instance.now }
    requires places { ArePlaces instance.now places.now }
    requires few { length places.now ≤ MAX_RECORDS }
    requires level { level ≤ MAX_LEVELS }
    requires literals { All (IsLiteral instance.now) literals.now }
    requires few_literals { length literals.now ≤ 2 ^ 14 }
    requires literal { IsLiteral instance.now a }
    ensures v { result.v ≡ row_at instance.now places.now (bad_before level) literals.now a }
    ensures s { result.s ≡ row_at instance.now places.now (bad_further level) literals.now a }
    ensures small_v { result.v ≤ length literals.now * pair_most }
    ensures small_s { result.s ≤ length literals.now * pair_most }
{
    let mut sum = Weight { v: 0, s: 0 };
    for b in literals {
        let there = between(instance, places, level, a, *b);
        sum.v += there.v;
        sum.s += there.s;
    }
    sum
}
