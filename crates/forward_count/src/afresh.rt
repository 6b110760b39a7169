ghost use Rattle.std.specs.Prelude.{◌≡◌, ◌↔◌, ◌≤◌, ◌<◌, ◌+◌, ◌*◌, ◌^◌, Bool, length, slice_index, sum_by, IsTrue, if◌then◌else◌};
ghost use Rattle.choice_counts.specs.Counts.{pair_tally, slot_part, tally_of, tallies_of};
ghost use Rattle.choice_counts.specs.CountedSums.{IsCountedSum, IsCalm, RemainsAt};
ghost use Rattle.choice_counts.specs.ForwardStates.{AreSlots};
ghost use Rattle.choice_counts.specs.Tallies.{least_of_tallies, least_part};
ghost use Rattle.dead_laws.specs.ArcLaws.{IsArcs};
ghost use Rattle.fapp_model.specs.declared.limits.TheConstants.{MAX_PATHS};
ghost use Rattle.fapp_model.specs.declared.literal.Literal.{Literal};
ghost use Rattle.fapp_model.specs.Instances.{IsInstance};
ghost use Rattle.fapp_model.specs.Levels.{levels_of};
ghost use Rattle.fapp_model.specs.search.Partials.{IsLiteral, IsPartial, literal, names};
ghost use Rattle.fapp_model.specs.search.Weights.{over_open};
ghost use Rattle.fapp_tables.specs.Indexes.{neighbours_of};
ghost use Rattle.forward_count.specs.Standing.{AllHaveLeft, AllStand, HasLeft};
ghost use Rattle.nogood.specs.Partials.{GivesChoice, choice_given};

use crate::start::outside_tally;
use crate::step::{Step, count};
use arc_levels::ArcTable;
use choice_counts::{HARD, NO_TALLY};
use fapp_model::Literal;
use fapp_tables::Tables;
use nogood::Partial;
use std::marker::Model;

/// What the literal of a choice's neighbour, by its place among the neighbours, counts in the
/// choice's tally; 0 where the neighbour has none.
fn slot_tally(step: &Step, partial: &Partial, place: usize) -> u64
    requires instance { IsInstance step.now.tables.now }
    requires given { (a : Literal) → GivesChoice partial.now a → IsLiteral step.now.tables.now a }
    requires place { place < length (neighbours_of step.now.tables.now step.now.literal.path) }
    ensures tally { result ≡ slot_part (pair_tally step.now.tables.now step.now.level
        step.now.literal)
        (slice_index (neighbours_of step.now.tables.now step.now.literal.path) place)
        (choice_given partial.now (slice_index (neighbours_of step.now.tables.now
        step.now.literal.path) place)) }
    ensures small { result ≤ 2 ^ 49 }
{
    let path = step.literal.path;
    let other = step.tables.neighbours(path)[place];
    match partial.get(other) {
        Some(index) => {
            let positions = step.tables.records_at(path, place);
            step.pair_tally(positions, other, u32::from(index))
        }
        None => 0,
    }
}

/// Literals at a level whose counts are not kept: all is counted afresh, each time it is asked for.
/// Contracts see the instance, the level and the literals.
#[derive(Debug, Drop)]
pub struct Afresh<'a> {
    tables: &'a Tables<'a>,
    arcs: &'a ArcTable<'a>,
    level: u32,
    pushed: &'a [Literal],
    partial: &'a Partial,
}

impl<'a> Model for Afresh<'a> {
    ghost use Rattle.std.specs.Prelude.{◌≡◌};
    ghost use Rattle.choice_counts.specs.ForwardStates.{ForwardState};
    ghost use Rattle.forward_count.specs.Forwards.{IsAfresh};

    ghost Value = { ForwardState };

    ghost view = { λ f. record {
      instance = f.tables.now;
      level = f.level;
      pushed = f.pushed.now;
    } };

    ghost invariant = { λ f. (f.arcs.now ≡ f.tables.now)
        × IsAfresh f.tables.now f.level f.pushed.now f.partial.now };
}

impl<'a> Afresh<'a> {
    /// The literals at a level.
    pub fn new(
        tables: &'a Tables<'a>,
        arcs: &'a ArcTable<'a>,
        level: u32,
        pushed: &'a [Literal],
        partial: &'a Partial,
    ) -> Afresh<'a>
        requires instance { IsInstance tables.now }
        requires same { arcs.now ≡ tables.now }
        requires level { level ≤ levels_of tables.now }
        requires literals { IsPartial tables.now pushed.now }
        requires slots { AreSlots tables.now pushed.now partial.now }
        ensures instance { result.instance ≡ tables.now }
        ensures level { result.level ≡ level }
        ensures pushed { result.pushed ≡ pushed.now }
    {
        Afresh {
            tables,
            arcs,
            level,
            pushed,
            partial,
        }
    }

    /// A choice's tally.
    fn tally(&self, path: u16, choice: u16) -> u64
        requires { IsLiteral self.now.instance (literal path choice) }
        ensures { (arc : Literal → Bool) → IsArcs self.now.instance self.now.level arc →
            result ≡ tally_of self.now.instance self.now.level arc self.now.pushed
            (literal path choice) }
    {
        let step = Step::new(self.tables, self.level, false, Literal { path, choice });
        let mut tally = outside_tally(self.arcs, self.level, path, choice);
        for place in 0..self.tables.neighbours(path).len() {
            tally += slot_tally(&step, self.partial, place);
        }
        tally
    }

    /// The least tally of a path.
    fn least(&self, path: u16) -> u64
        requires { path < length self.now.instance.paths }
        ensures { (arc : Literal → Bool) → IsArcs self.now.instance self.now.level arc →
            result ≡ least_of_tallies (tallies_of self.now.instance self.now.level arc
            self.now.pushed path) }
    {
        let mut least = NO_TALLY;
        for choice in 0..count(self.tables.instance(), path) {
            least = least.min(self.tally(path, choice as u16));
        }
        least
    }

    /// Whether a literal remains against all literals.
    fn stands(&self, literal: Literal) -> bool
        requires { IsLiteral self.now.instance literal }
        ensures { IsTrue result ↔ RemainsAt self.now.instance self.now.level self.now.pushed
            literal }
    {
        // The proof opens the fields' invariant here.
        let _ = &self.tables;
        self.tally(literal.path, literal.choice) < HARD
    }

    /// Whether a path has a literal, or a choice that remains.
    fn has_left(&self, path: u16) -> bool
        requires { path < length self.now.instance.paths }
        ensures { IsTrue result ↔ HasLeft self.now.instance self.now.level self.now.pushed path }
    {
        if self.partial.get(path).is_some() {
            return true;
        }
        self.least(path) < HARD
    }

    /// Whether each literal remains against all literals.
    fn all_stand(&self) -> bool
        ensures { IsTrue result ↔ AllStand self.now.instance self.now.level self.now.pushed }
    {
        for index in 0..self.pushed.len() {
            if !self.stands(self.pushed[index]) {
                return false;
            }
        }
        true
    }

    /// Whether each path has a literal, or a choice that remains.
    fn all_have_left(&self) -> bool
        ensures { IsTrue result ↔ AllHaveLeft self.now.instance self.now.level self.now.pushed }
    {
        for path in 0..self.tables.instance().paths.len() {
            if !self.has_left(path as u16) {
                return false;
            }
        }
        true
    }

    /// Whether no two literals clash, none is outside the arcs, and each further path has a choice
    /// that remains.
    pub fn is_calm(&self) -> bool
        ensures { IsTrue result ↔ IsCalm self.now.instance self.now.level self.now.pushed }
    {
        self.all_stand() && self.all_have_left()
    }

    /// What each literal adds against all literals, all these sums added.
    fn twice_inside(&self) -> u64
        requires calm { IsCalm self.now.instance self.now.level self.now.pushed }
        ensures sum { (arc : Literal → Bool) → IsArcs self.now.instance self.now.level arc →
            result ≡ sum_by (tally_of self.now.instance self.now.level arc self.now.pushed)
            self.now.pushed }
        ensures small { result < 2 ^ 62 }
    {
        let mut sum = 0;
        for index in 0..self.pushed.len() {
            let literal = self.pushed[index];
            sum += self.tally(literal.path, literal.choice);
        }
        sum
    }

    /// The least tally of a path without a literal that has a choice left.
    fn open_part(&self, path: u16) -> u64
        requires { path < length self.now.instance.paths }
        ensures part { (arc : Literal → Bool) → IsArcs self.now.instance self.now.level arc →
            result ≡ (if names self.now.pushed path then 0
            else least_part (least_of_tallies
            (tallies_of self.now.instance self.now.level arc self.now.pushed path))) }
        ensures small { result ≤ HARD }
    {
        if self.partial.get(path).is_some() {
            return 0;
        }
        let least = self.least(path);
        if least < HARD { least } else { 0 }
    }

    /// The least tallies of the paths without a literal, added.
    fn open_least(&self) -> u64
        ensures sum { (arc : Literal → Bool) → IsArcs self.now.instance self.now.level arc →
            result ≡ over_open self.now.instance self.now.pushed (λ path.
            least_part (least_of_tallies (tallies_of self.now.instance self.now.level arc
            self.now.pushed path))) }
        ensures small { result ≤ MAX_PATHS * HARD }
    {
        let mut sum = 0;
        for path in 0..self.tables.instance().paths.len() {
            sum += self.open_part(path as u16);
        }
        sum
    }

    /// The sum that a limit is compared with: the literals' pairs, and the least that each further
    /// path adds, as violations one level below times `S_SPAN` and their sum further below, at
    /// level 0 violations there.
    pub fn sum(&self) -> u64
        requires { IsCalm self.now.instance self.now.level self.now.pushed }
        ensures { IsCountedSum self.now.instance self.now.level self.now.pushed result }
    {
        // The proof opens the fields' invariant here.
        let _ = &self.tables;
        self.twice_inside() / 2 + self.open_least()
    }
}
