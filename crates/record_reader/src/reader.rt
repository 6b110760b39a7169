ghost use Rattle.std.specs.Prelude.{◌≡◌, ℕ, ◌≤◌, nat_le, length, map, IfOk};
ghost use Rattle.fapp_text.specs.Lines.{lines};
ghost use Rattle.fapp_text.specs.Reading.{at_line};
ghost use Rattle.record_reader.specs.declared.entry.Entry.TheVariants as entries;
ghost use Rattle.record_reader.specs.declared.entry.Pending.TheVariants as links;
ghost use Rattle.record_reader.specs.Contents.{no_contents};
ghost use Rattle.record_reader.specs.Fields.{fields_of};
ghost use Rattle.record_reader.specs.LineReading.{read_entry, read_line, read_lines};
ghost use Rattle.record_reader.specs.Readers.{AddsFrequency, ReaderHolds, TakesLine, GivesReader};

use crate::entry::{ConstraintEntry, DomainEntry, Entry, PathEntry, Pending};
use crate::field::first_fields;
use crate::line::entry_of;
use crate::{Cause, ReadError};
use fapp_model::{
    Items, LEVELS, MAX_DOMAIN_FREQUENCIES, MAX_DOMAIN_RECORDS, MAX_PATHS, MAX_RECORDS,
};
use fapp_text::{Lines, MAX_TEXT, NoMemory, fault_at};
use std::alloc::Global;
use std::collections::{BTreeMap, BTreeSet};

/// What the lines so far say, as later lines are tested against it.
#[derive(Drop)]
pub struct Reader {
    /// The paths and constraints, in the order of their lines.
    pub links: Items<Pending>,
    /// The position of each path by its number.
    pub positions: BTreeMap<u32, u16>,
    /// The frequencies of each domain.
    pub domains: BTreeMap<u32, BTreeSet<u32>>,
    /// How many domain records there are, repeated ones counted.
    pub domain_records: usize,
    /// How many constraints there are.
    pub constraints: usize,
}

impl Reader {
    /// No line.
    fn new(alloc: Global) -> Reader
        ensures { ReaderHolds result no_contents }
    {
        Reader {
            links: Items::new(alloc),
            positions: BTreeMap::new(alloc),
            domains: BTreeMap::new(alloc),
            domain_records: 0,
            constraints: 0,
        }
    }

    /// Takes what a line says, if the lines before it allow it.
    fn add(&mut self, alloc: Global, line: u32, entry: Entry) -> Result<(), ReadError>
        ensures { TakesLine (λ contents. at_line line (read_entry contents entry)) self.old result
            self.new }
    {
        match entry {
            Entry::Domain(entry) => self.add_domain(alloc, line, entry),
            Entry::Pending(Pending::Path(entry)) => self.add_path(line, entry),
            Entry::Pending(Pending::Constraint(entry)) => self.add_constraint(line, entry),
        }
    }

    fn add_domain(&mut self, alloc: Global, line: u32, entry: DomainEntry) -> Result<(), ReadError>
        ensures { TakesLine (λ contents. at_line line (read_entry contents (entries.Domain entry)))
            self.old result self.new }
    {
        if is_full(self.domain_records, MAX_DOMAIN_RECORDS) {
            return Err(fault_at(line, Cause::TooManyValues));
        }
        let count = add_frequency(alloc, &mut self.domains, entry)?;
        if count > MAX_DOMAIN_FREQUENCIES {
            return Err(fault_at(line, Cause::DomainTooLarge));
        }
        self.domain_records += 1;
        Ok(())
    }

    fn add_path(&mut self, line: u32, entry: PathEntry) -> Result<(), ReadError>
        ensures { TakesLine (λ contents. at_line line
            (read_entry contents (entries.Pending (links.Path entry))))
            self.old result self.new }
    {
        if self.positions.contains_key(&entry.number) {
            return Err(fault_at(line, Cause::DuplicatePath));
        }
        let place = self.positions.len();
        if is_full(place, MAX_PATHS) {
            return Err(fault_at(line, Cause::TooManyPaths));
        }
        self.positions.insert(entry.number, place as u16)?;
        self.links.push(Pending::Path(entry))?;
        Ok(())
    }

    fn add_constraint(&mut self, line: u32, entry: ConstraintEntry) -> Result<(), ReadError>
        ensures { TakesLine (λ contents. at_line line
            (read_entry contents (entries.Pending (links.Constraint entry))))
            self.old result self.new }
    {
        if is_full(self.constraints, MAX_RECORDS) {
            return Err(fault_at(line, Cause::TooManyRecords));
        }
        self.links.push(Pending::Constraint(entry))?;
        self.constraints += 1;
        Ok(())
    }

    /// Takes a line, if the lines before it allow it. One without fields says nothing.
    fn add_line(&mut self, alloc: Global, line: u32, text: &[u8]) -> Result<(), ReadError>
        ensures { TakesLine (λ contents. at_line line
            (read_line contents line (fields_of text.now)))
            self.old result self.new }
    {
        let fields = first_fields(alloc, text)?;
        self.add_fields(alloc, line, fields.as_slice())
    }

    fn add_fields(&mut self, alloc: Global, line: u32, fields: &[&[u8]]) -> Result<(), ReadError>
        ensures { TakesLine (λ contents. at_line line
            (read_line contents line (map (λ x. x.now) fields.now)))
            self.old result self.new }
    {
        if fields.is_empty() {
            return Ok(());
        }
        match entry_of(LEVELS, line, fields) {
            Ok(entry) => self.add(alloc, line, entry),
            Err(cause) => Err(fault_at(line, cause)),
        }
    }
}

/// Whether there are as many as there may be.
fn is_full(count: usize, most: usize) -> bool
    ensures { result ≡ nat_le most count }
{
    count >= most
}

/// Adds a frequency to its domain, and says how many distinct ones the domain has then.
fn add_frequency(
    alloc: Global,
    domains: &mut BTreeMap<u32, BTreeSet<u32>>,
    entry: DomainEntry,
) -> Result<usize, NoMemory>
    ensures { IfOk result (λ count. AddsFrequency entry domains.old count domains.new) }
{
    let frequencies = domains.entry(entry.domain)?.or_insert(BTreeSet::new(alloc));
    frequencies.insert(entry.frequency)?;
    Ok(frequencies.len())
}

/// What all lines of a text say, if the lines before each one allow it.
pub(crate) fn read_contents(alloc: Global, bytes: &[u8]) -> Result<Reader, ReadError>
    requires { length bytes.now ≤ MAX_TEXT }
    ensures { GivesReader (read_lines no_contents 1 (lines bytes.now)) result }
{
    let mut reader = Reader::new(alloc);
    let mut lines = Lines::new(bytes);
    while let Some((line, text)) = lines.next() {
        reader.add_line(alloc, line, text)?;
    }
    Ok(reader)
}
