ghost use Rattle.std.specs.Prelude.{◌≡◌, ◌≢◌, ◌↔◌, ◌<◌, ◌≤◌, false, length, IsTrue, IfOk, slice_index_or};
ghost use Rattle.std.specs.List.{remove};
ghost use Rattle.choice_counts.specs.CountedSums.{IsCountedSum, IsCalm, IsLeastSum, RemainsAt};
ghost use Rattle.choice_counts.specs.ForwardStates.{AreSlots, at_level, nothing_pushed, with_literals, with_pushed, without_last, without_path};
ghost use Rattle.choice_counts.specs.Tallies.{tallies_at, tally_at};
ghost use Rattle.fapp_model.specs.Assignments.{count_at};
ghost use Rattle.fapp_model.specs.InstanceTags.{IsTagFor};
ghost use Rattle.fapp_model.specs.Instances.{IsInstance};
ghost use Rattle.fapp_model.specs.Levels.{levels_of};
ghost use Rattle.fapp_model.specs.Tags.{triple_from};
ghost use Rattle.fapp_model.specs.search.Clashes.{clashes};
ghost use Rattle.fapp_model.specs.search.Dead.{Dead};
ghost use Rattle.fapp_model.specs.search.Pairs.{limit_of};
ghost use Rattle.fapp_model.specs.search.Partials.{IsLiteral, IsPartial, literal, names};
ghost use Rattle.fapp_model.specs.search.Weights.{added_pair};
ghost use Rattle.fapp_tables.specs.Measures.{pair_code};

use crate::afresh::Afresh;
use crate::counts::{count_step, tallies_at};
use crate::recount::{clear_slots, count_all};
use crate::start::{blank_rows, start};
use crate::step::Step;
use arc_levels::ArcTable;
use choice_counts::{HARD, PathTallies, TallyTable, Totals};
use fapp_model::{Literal, NoMemory, S_SPAN, Tag, Triple, level_of, levels, triple_of};
use fapp_tables::Tables;
use nogood::Partial;
use std::alloc::Global;
use std::marker::Model;

/// Literals that are pushed and taken back. Contracts see the instance, the level at which counts
/// are kept, and the literals in the order in which they were pushed.
#[derive(Debug, Drop)]
pub struct Forward<'a> {
    tables: &'a Tables<'a>,
    arcs: &'a ArcTable<'a>,
    level: u32,
    tallies: TallyTable<'a>,
    pushed: Vec<Literal>,
    partial: Partial,
    rows: Vec<PathTallies>,
    totals: Totals,
}

impl<'a> Model for Forward<'a> {
    ghost use Rattle.std.specs.Prelude.{◌≡◌, vec_capacity};
    ghost use Rattle.choice_counts.specs.ForwardStates.{ForwardState};
    ghost use Rattle.choice_counts.specs.Tables.{table_at};
    ghost use Rattle.forward_count.specs.Forwards.{IsForward};

    ghost Value = { ForwardState };

    ghost view = { λ f. record {
      instance = f.tables.now;
      level = f.level;
      pushed = f.pushed.items;
    } };

    ghost invariant = { λ f. ((f.arcs.now ≡ f.tables.now)
        × (f.tallies ≡ table_at f.tables.now f.level))
        × IsForward f.tables.now f.level f.pushed.items f.partial f.rows.items f.totals
        (vec_capacity f.pushed) };
}

impl<'a> Forward<'a> {
    /// Starts with no literal, counting at the instance's highest level. It takes 8 bytes a choice,
    /// 72 a path and, seen from each of two neighbouring paths, at most 32 cells of 24 bytes (12
    /// for one record) and 136 bytes more; no other call takes memory.
    pub fn new(
        alloc: Global,
        tables: &'a Tables<'a>,
        arcs: &'a ArcTable<'a>,
    ) -> Result<Forward<'a>, NoMemory>
        requires { arcs.now ≡ tables.now }
        ensures { IfOk result (λ forward. forward ≡ nothing_pushed tables.now) }
    {
        let instance = tables.instance();
        let level = levels(instance);
        let paths = instance.paths.len();
        let tallies = TallyTable::new(alloc, tables, level)?;
        let mut rows = blank_rows(alloc, instance)?;
        let partial = Partial::new(alloc, paths as u32)?;
        let pushed = Vec::with_capacity(alloc, paths)?;
        let totals = start(instance, arcs, level, rows.as_mut_slice());
        Ok(Forward {
            tables,
            arcs,
            level,
            tallies,
            pushed,
            partial,
            rows,
            totals,
        })
    }

    /// The tables that it was made from.
    pub fn tables(&self) -> &'a Tables<'a>
        ensures { result.now ≡ self.now.instance }
    {
        self.tables
    }

    /// The arcs that it was made from.
    pub fn arcs(&self) -> &'a ArcTable<'a>
        ensures { result.now ≡ self.now.instance }
    {
        self.arcs
    }

    /// The level at which counts are kept.
    pub fn level(&self) -> u32
        ensures level { result ≡ self.now.level }
        ensures within { result ≤ levels_of self.now.instance }
    {
        self.level
    }

    /// The literals, in the order in which they were pushed.
    pub fn pushed(&self) -> &[Literal]
        ensures literals { result.now ≡ self.now.pushed }
        ensures partial { IsPartial self.now.instance result.now }
    {
        self.pushed.as_slice()
    }

    /// The literals by path: one slot for each path.
    pub fn partial(&self) -> &Partial
        ensures { AreSlots self.now.instance self.now.pushed result.now }
    {
        &self.partial
    }

    /// Whether a path has a literal.
    pub fn is_set(&self, path: u16) -> bool
        ensures { result ≡ names self.now.pushed path }
    {
        self.partial.get(path).is_some()
    }

    /// Counts at a level from now on. It costs nothing where that level is kept already; else a
    /// turn over all choices, the tallies of neighbours by their distances, and as much as to push
    /// each literal again.
    pub fn keep_level(&mut self, level: u32)
        requires { level ≤ levels_of self.old.instance }
        ensures { self.new ≡ at_level self.old level }
    {
        if level == self.level {
            return;
        }
        let instance = self.tables.instance();
        self.tallies.keep_level(level);
        clear_slots(&mut self.partial, instance.paths.len());
        let totals = start(instance, self.arcs, level, self.rows.as_mut_slice());
        self.totals = count_all(
            self.tables,
            &self.tallies,
            level,
            self.pushed.as_slice(),
            self.rows.as_mut_slice(),
            &mut self.partial,
            totals,
        );
        self.level = level;
    }

    /// Adds a literal. Of each neighbouring path it looks at the choices that are less than the
    /// pair's far distance away, and at a few cells of the pair; at all choices once more where the
    /// least tally was raised, up to one that is as low as it was. Where the cells would be too
    /// many, it reads the records between the two paths for each choice.
    pub fn push(&mut self, path: u16, choice: u16)
        requires path { path < length self.old.instance.paths }
        requires choice { choice < count_at self.old.instance path }
        requires free { names self.old.pushed path ≡ false }
        ensures { self.new ≡ with_pushed self.old path choice }
    {
        let literal = Literal { path, choice };
        let step = Step::new(self.tables, self.level, false, literal);
        self.totals = count_step(
            &step,
            &self.tallies,
            self.rows.as_mut_slice(),
            &mut self.partial,
            self.totals,
        );
        let _ = self.pushed.push(literal);
    }

    /// Takes back the last literal. It costs what `push` does, and looks for no least tally.
    pub fn pop(&mut self)
        requires { 0 < length self.old.pushed }
        ensures { self.new ≡ without_last self.old }
    {
        let last = self.pushed.len() - 1;
        self.take_back(last);
    }

    /// Takes back the literal of a path, whichever it is.
    pub fn remove(&mut self, path: u16)
        requires { IsTrue (names self.old.pushed path) }
        ensures { self.new ≡ without_path self.old path }
    {
        let place = place_of(&self.pushed, path);
        self.take_back(place);
    }

    /// Whether a choice remains at the level that is kept: it is within the arcs, and not hard-bad
    /// with a literal.
    pub fn remains(&self, path: u16, choice: u16) -> bool
        requires path { path < length self.now.instance.paths }
        requires choice { choice < count_at self.now.instance path }
        ensures { IsTrue result ↔ RemainsAt self.now.instance self.now.level self.now.pushed
            (literal path choice) }
    {
        tally_of(&self.rows, path, choice) < HARD
    }

    /// What a choice adds against the literals at the level that is kept, whether it remains or
    /// not: violations one level below it times `S_SPAN`, and their sum further below. Below level
    /// 0 there is none: there it is violations at level 0 itself.
    pub fn sum_at(&self, path: u16, choice: u16) -> u64
        requires path { path < length self.now.instance.paths }
        requires choice { choice < count_at self.now.instance path }
        ensures { result ≡ pair_code (added_pair self.now.instance self.now.level self.now.pushed
            (literal path choice)) }
    {
        tally_of(&self.rows, path, choice) % HARD
    }

    /// The least that a remaining choice of a path adds at the level that is kept, as `sum_at`
    /// gives it. None where no choice of the path remains.
    pub fn least_sum(&self, path: u16) -> Option<u64>
        requires { path < length self.now.instance.paths }
        ensures { IsLeastSum self.now.instance self.now.level self.now.pushed path result }
    {
        let least = tallies_at(&self.rows, path).least;
        if least < HARD { Some(least) } else { None }
    }

    /// Whether a record between two literals is hard-bad at the level that is kept.
    pub fn clash(&self, a: Literal, b: Literal) -> bool
        requires first { IsLiteral self.now.instance a }
        requires second { IsLiteral self.now.instance b }
        requires apart { a.path ≢ b.path }
        ensures { result ≡ clashes self.now.instance self.now.level a b }
    {
        self.tables
            .hard_bad(self.level, a.path, a.choice, b.path, b.choice)
    }

    /// The literals at a level that is not kept.
    fn afresh(&self, level: u32) -> Afresh<'_>
        requires { level ≤ levels_of self.now.instance }
        ensures { result ≡ at_level self.now level }
    {
        Afresh::new(
            self.tables,
            self.arcs,
            level,
            self.pushed.as_slice(),
            &self.partial,
        )
    }

    /// Whether the literals are calm at the level that is kept.
    fn is_calm_here(&self) -> bool
        ensures { IsTrue result ↔ IsCalm self.now.instance self.now.level self.now.pushed }
    {
        self.totals.conflicts == 0 && self.totals.open_paths.stuck == 0
    }

    /// Whether no two literals clash at a level, none is outside the arcs, and each further path
    /// has a choice that remains. Two comparisons at the level that is kept; at another one as much
    /// as the pairs of each choice and its neighbours' literals.
    pub fn is_calm(&self, level: u32) -> bool
        requires { level ≤ levels_of self.now.instance }
        ensures { IsTrue result ↔ IsCalm self.now.instance level self.now.pushed }
    {
        if level == self.level {
            self.is_calm_here()
        } else {
            self.afresh(level).is_calm()
        }
    }

    /// The sum that a limit is compared with, at the level that is kept, by pairs as `sum_at` has
    /// them.
    pub fn sum(&self) -> u64
        requires { IsCalm self.now.instance self.now.level self.now.pushed }
        ensures { IsCountedSum self.now.instance self.now.level self.now.pushed result }
    {
        self.totals.twice_inside / 2 + self.totals.open_paths.least
    }

    /// The sum that a limit is compared with at a level: the pairs of the records between the
    /// literals, and the least that each further path adds, as violations one level below it times
    /// `S_SPAN` and their sum further below, at level 0 as `sum_at` has them. It costs what
    /// `is_calm` does.
    pub fn bound(&self, level: u32) -> u64
        requires level { level ≤ levels_of self.now.instance }
        requires calm { IsCalm self.now.instance level self.now.pushed }
        ensures { IsCountedSum self.now.instance level self.now.pushed result }
    {
        if level == self.level {
            self.sum()
        } else {
            self.afresh(level).sum()
        }
    }

    /// Whether the literals are dead at a tag: no plan that has them costs less, by what is counted
    /// for them. A few comparisons where the tag's mode is at the level that is kept; at another
    /// one it costs what `is_calm` does there.
    pub fn is_dead(&self, tag: Tag) -> bool
        requires { IsTagFor self.now.instance tag }
        ensures { IsTrue result ↔ Dead self.now.instance (triple_from tag.code) self.now.pushed }
    {
        // The proof opens the fields' invariant here.
        let _ = &self.tables;
        if tag.code == 0 {
            return true;
        }
        let level = level_of(tag);
        if !self.is_calm(level) {
            return true;
        }
        let triple = triple_of(tag);
        triple.v > 0 && limit_code(triple) <= self.bound(level)
    }

    /// Takes back the literal at a place.
    fn take_back(&mut self, place: usize)
        requires { place < length self.old.pushed }
        ensures { self.new ≡ with_literals self.old (remove self.old.pushed place) }
    {
        let literal = self.pushed.remove(place);
        let step = Step::new(self.tables, self.level, true, literal);
        self.totals = count_step(
            &step,
            &self.tallies,
            self.rows.as_mut_slice(),
            &mut self.partial,
            self.totals,
        );
    }
}

/// The place of a path's literal.
fn place_of(literals: &[Literal], path: u16) -> usize
    requires { IsTrue (names literals.now path) }
    ensures inside { result < length literals.now }
    ensures path { (slice_index_or literals.now result (literal 0 0)).path ≡ path }
{
    for place in 0..literals.len() {
        if literals[place].path == path {
            return place;
        }
    }
    0
}

/// The tally of a choice.
fn tally_of(rows: &[PathTallies], path: u16, choice: u16) -> u64
    requires path { path < length rows.now }
    requires choice { choice < length (tallies_at rows.now path).tallies }
    ensures { result ≡ tally_at (tallies_at rows.now path).tallies choice }
{
    tallies_at(rows, path).tallies.get(choice as usize)
}

/// The limit of a tag as one number.
fn limit_code(triple: Triple) -> u64
    ensures { result ≡ pair_code (limit_of triple) }
{
    u64::from(triple.v) * u64::from(S_SPAN) + u64::from(triple.s)
}
