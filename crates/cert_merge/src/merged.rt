// A certificate that grows by the lines of logs.
ghost use Rattle.std.specs.Prelude.{◌≡◌, ◌+◌, ◌<◌, ◌≤◌, [], ◌∷◌, ◌++◌, length, replicate, flat_map, slice_index_or, All, IfOk, OnOk};
ghost use Rattle.fapp_model.specs.declared.limits.TheConstants.{MAX_NUMBER};
ghost use Rattle.merge_laws.specs.Stages.{done_of, emit, land, noted, merged_number, start};
ghost use Rattle.merge_laws.specs.Written.{written_child};
ghost use Rattle.cert_merge.specs.Growth.{merged_with_line, with_out};

use crate::copies::copy_of;
use crate::old_rows::rows_with;
use cert_lines::{Child, Line, Rule};
use fapp_model::{Items, MAX_NUMBER, NoMemory};
use search_log::{ChoiceRef, LogLine, Ref};
use std::alloc::Global;
use std::marker::Model;

/// A certificate so far, with the numbers in it of the logs' lines and of the rows: 0 for what was
/// left out. It has at most 1,000,000,000 lines.
#[derive(Drop)]
pub(crate) struct Certificate {
    alloc: Global,
    lines: Vec<Line>,
    own: Vec<Items<u32>>,
    rows: Vec<u32>,
}

impl Model for Certificate {
    ghost use Rattle.std.specs.Prelude.{◌≤◌, length};
    ghost use Rattle.fapp_model.specs.declared.limits.TheConstants.{MAX_NUMBER};
    ghost use Rattle.merge_laws.specs.Stages.{Merged};

    ghost Value = { Merged };

    ghost view = { λ c. record { out = c.lines.items; own = c.own.items; row = c.rows.items } };

    ghost invariant = { λ c. length c.lines.items ≤ MAX_NUMBER };
}

impl Certificate {
    /// No line, with room for the numbers of so many logs and rows, of which some are placed.
    pub(crate) fn empty(
        alloc: Global,
        placed: &[(u32, u32)],
        logs: usize,
        rows: usize,
    ) -> Result<Certificate, NoMemory>
        requires { All (λ p. p.0 < rows) placed.now }
        ensures { IfOk result (λ merged. merged ≡ start [] placed.now logs rows) }
    {
        Ok(Certificate {
            alloc,
            lines: Vec::new(alloc),
            own: no_numbers(alloc, logs)?,
            rows: rows_with(alloc, placed, rows)?,
        })
    }

    /// Adds copies of some lines.
    pub(crate) fn add_copies(&mut self, lines: &[Line]) -> Result<(), NoMemory>
        ensures { OnOk result (self.new ≡ with_out self.old (self.old.out ++ lines.now)) }
    {
        for line in lines {
            self.add(copy_of(self.alloc, line)?)?;
        }
        Ok(())
    }

    /// The old lines and the arc lines, with room for the numbers of so many logs and rows, of
    /// which some are placed.
    pub(crate) fn start(
        alloc: Global,
        old: &[Line],
        placed: &[(u32, u32)],
        arcs: &[Line],
        logs: usize,
        rows: usize,
    ) -> Result<Certificate, NoMemory>
        requires { All (λ p. p.0 < rows) placed.now }
        ensures { IfOk result (λ merged. merged ≡ start (old.now ++ arcs.now) placed.now logs
            rows) }
    {
        let mut merged = Certificate::empty(alloc, placed, logs, rows)?;
        merged.add_copies(old)?;
        merged.add_copies(arcs)?;
        Ok(merged)
    }

    /// The allocator.
    pub(crate) fn alloc(&self) -> Global {
        self.alloc
    }

    /// How many lines there are.
    pub(crate) fn len(&self) -> u32
        ensures count { result ≡ length self.now.out }
        ensures few { result ≤ MAX_NUMBER }
    {
        self.lines.len() as u32
    }

    /// The lines, in place.
    pub(crate) fn into_lines(self) -> Vec<Line>
        ensures value { result.items ≡ self.out }
        ensures few { length result.items ≤ MAX_NUMBER }
    {
        let Certificate { lines, .. } = self;
        lines
    }

    /// How many lines of a log are done.
    pub(crate) fn done(&self, log: usize) -> usize
        requires { log < length self.now.own }
        ensures { result ≡ done_of self.now log }
    {
        self.own[log].len()
    }

    /// The number of what a line of a log cites, or 0 where it was left out.
    pub(crate) fn number(&self, log: usize, cited: Ref) -> u32
        ensures { result ≡ merged_number self.now log cited }
    {
        match cited {
            Ref::Own(place) => self.own_number(log, place),
            Ref::Row(row) => at_or_none(&self.rows, row),
        }
    }

    /// The number of a log's line.
    fn own_number(&self, log: usize, place: u32) -> u32
        ensures { result ≡ slice_index_or (slice_index_or self.now.own log []) place 0 }
    {
        match self.own.get(log) {
            Some(numbers) => at_or_none(numbers.as_slice(), place),
            None => 0,
        }
    }

    /// Adds a line, and answers its number. NoMemory also comes where there are 1,000,000,000
    /// lines.
    pub(crate) fn add(&mut self, line: Line) -> Result<u32, NoMemory>
        ensures { IfOk result (λ number. (self.new ≡ merged_with_line self.old line)
            × (number ≡ length self.old.out + 1)) }
    {
        if self.lines.len() >= MAX_NUMBER as usize {
            return Err(NoMemory);
        }
        self.lines.push(line)?;
        Ok(self.lines.len() as u32)
    }

    /// The children of a Branch line of a log, without those whose lines were left out.
    fn children(&self, log: usize, refs: &[ChoiceRef]) -> Result<Items<Child>, NoMemory>
        ensures { IfOk result (λ children.
            children ≡ flat_map (written_child (merged_number self.now log)) refs.now) }
    {
        let mut children = Vec::with_capacity(self.alloc, refs.len())?;
        for cited in refs {
            let cite = self.number(log, cited.line);
            if cite > 0 {
                children.push(Child {
                    choice: cited.choice,
                    cite,
                })?;
            }
        }
        Ok(Items::from_vec(children))
    }

    /// Keeps the number of a log's next line.
    fn note(&mut self, log: usize, number: u32) -> Result<(), NoMemory>
        requires { log < length self.old.own }
        ensures { OnOk result (self.new ≡ record {
          out = self.old.out;
          own = noted self.old.own log number;
          row = self.old.row;
        }) }
    {
        self.own[log].push(number)?;
        Ok(())
    }

    /// Writes the next line of a log, or leaves it out: a Count line, and one of the tag (0, 0, 0).
    pub(crate) fn write_line(&mut self, log: usize, line: LogLine) -> Result<(), NoMemory>
        requires { log < length self.old.own }
        ensures { OnOk result (self.new ≡ emit log line self.old) }
    {
        let LogLine {
            tag,
            lits,
            path,
            refs,
        } = line;
        let number = match path {
            Some(path) if tag.code > 0 => {
                let children = self.children(log, refs.as_slice())?;
                self.add(Line {
                    tag,
                    lits,
                    rule: Rule::Branch { path, children },
                })?
            }
            _ => 0,
        };
        self.note(log, number)
    }

    /// Gives a row the number of a log's line.
    pub(crate) fn land(&mut self, row: u32, log: usize, place: u32)
        requires { row < length self.old.row }
        ensures { self.new ≡ land row log place self.old }
    {
        self.rows[row as usize] = self.own_number(log, place);
    }
}

/// The number at a place, or 0.
fn at_or_none(numbers: &[u32], place: u32) -> u32
    ensures { result ≡ slice_index_or numbers.now place 0 }
{
    numbers.get(place as usize).copied().unwrap_or(0)
}

/// So many empty lists of numbers.
pub(crate) fn no_numbers(alloc: Global, count: usize) -> Result<Vec<Items<u32>>, NoMemory>
    ensures { IfOk result (λ lists. lists.items ≡ replicate count []) }
{
    let mut lists = Vec::with_capacity(alloc, count)?;
    for _ in 0..count {
        lists.push(Items::new(alloc))?;
    }
    Ok(lists)
}
