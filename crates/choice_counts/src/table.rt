ghost use Rattle.std.specs.Prelude.{◌≡◌, ◌<◌, ◌≤◌, length, slice_index, IfOk};
ghost use Rattle.choice_counts.specs.Links.{IsPairCells};
ghost use Rattle.choice_counts.specs.Tables.{ArePairCells, AreLinksOf, HasLinks, table_at};
ghost use Rattle.fapp_model.specs.declared.level.TheConstants.{MAX_LEVELS};
ghost use Rattle.fapp_model.specs.Instances.{IsInstance};
ghost use Rattle.fapp_tables.specs.Indexes.{neighbours_of};

use crate::breaks::NO_REACH;
use crate::cells::Cells;
use crate::fill::PairCells;
use crate::pair::Edge;
use fapp_model::{MAX_LEVELS, NoMemory};
use fapp_tables::Tables;
use std::alloc::Global;
use std::marker::Model;

/// Two neighbouring paths have at most so many cells.
const MOST_CELLS: usize = 32;

/// So many cells for each record, and one more, are enough: a record has at most as many distances.
const RECORD_CELLS: usize = MAX_LEVELS as usize;

/// The links of a path, one for each of its neighbours. Contracts see the list.
#[derive(Debug, Drop)]
struct Links {
    links: Vec<PairCells>,
}

impl Model for Links {
    ghost use Rattle.std.specs.Prelude.{List};
    ghost use Rattle.choice_counts.specs.declared.fill.PairCells.{PairCells as Seen};

    ghost Value = { List Seen };

    ghost view = { λ it. it.links.items };
}

impl Links {
    /// A link for each neighbour of a path, with room for its cells.
    fn new(alloc: Global, tables: &Tables, path: u16) -> Result<Links, NoMemory>
        requires { path < length tables.now.paths }
        ensures { IfOk result (λ links. length links ≡ length (neighbours_of tables.now path)) }
    {
        let count = tables.neighbours(path).len();
        let mut links = Vec::with_capacity(alloc, count)?;
        for place in 0..count {
            let records = tables.records_at(path, place).len();
            let room = if records < MOST_CELLS / RECORD_CELLS {
                records * RECORD_CELLS + 1
            } else {
                MOST_CELLS
            };
            links.push(PairCells {
                cells: Cells::new(alloc, room)?,
                far: NO_REACH,
            })?;
        }
        Ok(Links { links })
    }

    /// Makes the links of a path anew.
    fn fill<'a>(&mut self, tables: &'a Tables<'a>, level: u32, path: u16)
        requires instance { IsInstance tables.now }
        requires level { level ≤ MAX_LEVELS }
        requires path { path < length tables.now.paths }
        requires count { length self.old ≡ length (neighbours_of tables.now path) }
        ensures { AreLinksOf tables.now level path self.new }
    {
        for place in 0..self.links.len() {
            let pair = pair_at(tables, level, path, place);
            self.links[place].fill(&pair);
        }
    }
}

/// A path and its neighbour of a place.
fn pair_at<'a>(tables: &'a Tables<'a>, level: u32, path: u16, place: usize) -> Edge<'a>
    requires level { level ≤ MAX_LEVELS }
    requires path { path < length tables.now.paths }
    requires place { place < length (neighbours_of tables.now path) }
    ensures instance { result.instance.now ≡ tables.now }
    ensures level { result.level ≡ level }
    ensures path { result.path ≡ path }
    ensures other { result.other ≡ slice_index (neighbours_of tables.now path) place }
{
    Edge {
        instance: tables.instance(),
        level,
        path,
        other: tables.neighbours(path)[place],
        positions: tables.records_at(path, place),
    }
}

/// Makes the links of all paths anew.
fn fill_all<'a>(tables: &'a Tables<'a>, level: u32, table: &mut [Links])
    requires instance { IsInstance tables.now }
    requires level { level ≤ MAX_LEVELS }
    requires links { HasLinks tables.now table.old (length tables.now.paths) }
    ensures { ArePairCells tables.now level table.new }
{
    for path in 0..table.len() {
        table[path].fill(tables, level, path as u16);
    }
}

/// As many links as neighbours for each path, with nothing told yet.
fn blank_table(alloc: Global, tables: &Tables) -> Result<Vec<Links>, NoMemory>
    requires { IsInstance tables.now }
    ensures { IfOk result (λ table. HasLinks tables.now table.items (length tables.now.paths)) }
{
    let paths = tables.instance().paths.len();
    let mut table = Vec::with_capacity(alloc, paths)?;
    for path in 0..paths {
        table.push(Links::new(alloc, tables, path as u16)?)?;
    }
    Ok(table)
}

/// What the choices of neighbouring paths count in each other's tallies at a level. Contracts see
/// the instance and the level.
///
/// It takes at most 24 bytes for each of the cells of two paths, which are at most 12 a record and
/// 32 in all, and 64 bytes of hints, seen from both of the paths.
#[derive(Debug, Drop)]
pub struct TallyTable<'a> {
    tables: &'a Tables<'a>,
    level: u32,
    table: Vec<Links>,
}

impl<'a> Model for TallyTable<'a> {
    ghost use Rattle.std.specs.Prelude.{◌≤◌};
    ghost use Rattle.choice_counts.specs.Tables.{ArePairCells, TallyState};
    ghost use Rattle.fapp_model.specs.declared.level.TheConstants.{MAX_LEVELS};

    ghost Value = { TallyState };

    ghost view = { λ t. record { instance = t.tables.now; level = t.level } };

    ghost invariant = { λ t. (t.level ≤ MAX_LEVELS)
        × ArePairCells t.tables.now t.level t.table.items };
}

impl<'a> TallyTable<'a> {
    /// The tallies of a level. No other call takes memory.
    pub fn new(
        alloc: Global,
        tables: &'a Tables<'a>,
        level: u32,
    ) -> Result<TallyTable<'a>, NoMemory>
        requires instance { IsInstance tables.now }
        requires level { level ≤ MAX_LEVELS }
        ensures { IfOk result (λ tallies. tallies ≡ table_at tables.now level) }
    {
        let mut table = blank_table(alloc, tables)?;
        fill_all(tables, level, table.as_mut_slice());
        Ok(TallyTable {
            tables,
            level,
            table,
        })
    }

    /// Tells the tallies of another level from now on. It costs at most 128 times the records, and
    /// less where few distances differ.
    pub fn keep_level(&mut self, level: u32)
        requires instance { IsInstance self.old.instance }
        requires level { level ≤ MAX_LEVELS }
        ensures { self.new ≡ table_at self.old.instance level }
    {
        fill_all(self.tables, level, self.table.as_mut_slice());
        self.level = level;
    }

    /// The tallies of a path's choices and of those of its neighbour of a place among its
    /// neighbours.
    pub fn link(&self, path: u16, place: usize) -> &PairCells
        requires path { path < length self.now.instance.paths }
        requires place { place < length (neighbours_of self.now.instance path) }
        ensures { IsPairCells self.now.instance self.now.level path
            (slice_index (neighbours_of self.now.instance path) place) result.now }
    {
        &self.table[path as usize].links[place]
    }
}
