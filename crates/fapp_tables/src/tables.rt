ghost use Rattle.std.specs.Prelude.{◌≡◌, ◌≢◌, ◌<◌, ◌≤◌, length, slice_index, IfOk};
ghost use Rattle.fapp_model.specs.Instances.{IsInstance};
ghost use Rattle.fapp_model.specs.search.Clashes.{clashes};
ghost use Rattle.fapp_model.specs.search.Partials.{IsLiteral, choice_of, literal};
ghost use Rattle.fapp_model.specs.search.WorkOrder.{work_order};
ghost use Rattle.fapp_tables.specs.Indexes.{neighbours_of, records_of};
ghost use Rattle.fapp_tables.specs.Measures.{pair_between, pair_code};

use crate::links::sorted_links;
use crate::order::work_order;
use crate::runs::{Runs, others_of, positions_of, runs_of, starts_of};
use crate::{pair_clashes, pair_counts};
use fapp_model::{Choice, Instance, MAX_LEVELS, NoMemory, choice_at};
use std::alloc::Global;
use std::marker::Model;

/// Indexes over the records of an instance. Contracts see the instance.
///
/// They stand in flat lists: the neighbours of each path one after another, and the positions of
/// the records of each path and neighbour one after another. A record takes at most 20 bytes (8 for
/// its position, seen from both paths, and 6 at each side where its pair has no other record) and a
/// path 6.
#[derive(Debug, Drop)]
pub struct Tables<'a> {
    instance: &'a Instance,
    order: Vec<u16>,
    /// Where the neighbours of each path begin; at the end their number.
    starts: Vec<u32>,
    neighbours: Vec<u16>,
    /// Where the records of each path and neighbour begin; at the end their number.
    firsts: Vec<u32>,
    positions: Vec<u32>,
}

impl<'a> Model for Tables<'a> {
    ghost use Rattle.fapp_model.specs.declared.instance.Instance.{Instance as Seen};
    ghost use Rattle.fapp_tables.specs.Tables.{IsTables};

    ghost Value = { Seen };

    ghost view = { λ t. t.instance.now };

    ghost invariant = { λ t. IsTables t.instance.now t.order.items t.starts.items t.neighbours.items
        t.firsts.items t.positions.items };
}

impl<'a> Tables<'a> {
    /// Makes the indexes of an instance. While it runs it takes further 32 bytes a record.
    pub fn new(alloc: Global, instance: &'a Instance) -> Result<Tables<'a>, NoMemory>
        requires { IsInstance instance.now }
        ensures { IfOk result (λ tables. tables ≡ instance.now) }
    {
        let links = sorted_links(alloc, instance)?;
        let Runs { heads, firsts } = runs_of(alloc, &links)?;
        let starts = starts_of(alloc, &heads, instance.paths.len())?;
        let neighbours = others_of(alloc, &heads)?;
        let positions = positions_of(alloc, &links)?;
        let order = work_order(alloc, instance)?;
        Ok(Tables {
            instance,
            order,
            starts,
            neighbours,
            firsts,
            positions,
        })
    }

    /// The instance that the tables were made from.
    pub fn instance(&self) -> &'a Instance
        ensures value { result.now ≡ self.now }
        ensures valid { IsInstance result.now }
    {
        self.instance
    }

    /// The work order: the paths that most records name come first, and of as many records the one
    /// that stands earlier.
    pub fn order(&self) -> &[u16]
        ensures { result.now ≡ work_order self.now }
    {
        self.order.as_slice()
    }

    /// The paths that share a record with a path, ascending.
    pub fn neighbours(&self, path: u16) -> &[u16]
        requires { path < length self.now.paths }
        ensures { result.now ≡ neighbours_of self.now path }
    {
        let start = self.starts[path as usize] as usize;
        let end = self.starts[path as usize + 1] as usize;
        &self.neighbours[start..end]
    }

    /// The positions of the records that name a path and its neighbour of a place among its
    /// neighbours, ascending.
    pub fn records_at(&self, path: u16, place: usize) -> &[u32]
        requires path { path < length self.now.paths }
        requires place { place < length (neighbours_of self.now path) }
        ensures { result.now ≡ records_of self.now path
            (slice_index (neighbours_of self.now path) place) }
    {
        let run = self.starts[path as usize] as usize + place;
        &self.positions[self.firsts[run] as usize..self.firsts[run + 1] as usize]
    }

    /// The positions of the records that name both paths, ascending.
    pub fn records_between(&self, i: u16, j: u16) -> &[u32]
        requires first { i < length self.now.paths }
        requires second { j < length self.now.paths }
        ensures { result.now ≡ records_of self.now i j }
    {
        match self.neighbours(i).binary_search(&j) {
            Ok(place) => self.records_at(i, place),
            Err(_) => &[],
        }
    }

    /// Whether some record between two choices is hard-bad at a level: an imperative record that is
    /// broken, or a compatibility record that is bad there.
    pub fn hard_bad(&self, level: u32, i: u16, c: u16, j: u16, d: u16) -> bool
        requires first { IsLiteral self.now (literal i c) }
        requires second { IsLiteral self.now (literal j d) }
        requires apart { i ≢ j }
        ensures { result ≡ clashes self.now level (literal i c) (literal j d) }
    {
        let (first, second) = (self.choice(i, c), self.choice(j, d));
        let positions = self.records_between(i, j);
        pair_clashes(self.instance, positions, level, i, j, first, second)
    }

    /// What the records between two choices add below a level, at most `MAX_LEVELS`: the violations
    /// one level below it times `S_SPAN`, and the sum of the violations further below.
    pub fn weight(&self, level: u32, i: u16, c: u16, j: u16, d: u16) -> u64
        requires first { IsLiteral self.now (literal i c) }
        requires second { IsLiteral self.now (literal j d) }
        requires apart { i ≢ j }
        requires level { level ≤ MAX_LEVELS }
        ensures { result ≡ pair_code (pair_between self.now level (literal i c) (literal j d)) }
    {
        let (first, second) = (self.choice(i, c), self.choice(j, d));
        let positions = self.records_between(i, j);
        pair_counts(self.instance, positions, level, i, j, first, second).sum
    }

    /// A path's choice by its index.
    fn choice(&self, path: u16, index: u16) -> Choice
        requires { IsLiteral self.now (literal path index) }
        ensures { result ≡ choice_of self.now (literal path index) }
    {
        let path = &self.instance.paths.as_slice()[path as usize];
        choice_at(path, u32::from(index))
    }
}
