ghost use Rattle.std.specs.Prelude.{◌≡◌, ◌≤◌, List, IfOk};
ghost use Rattle.std.specs.Ordering.{nat_cmp};
ghost use Rattle.std.specs.BTreeMap.{get};
ghost use Rattle.fapp_text.specs.Reading.{Gives};
ghost use Rattle.record_reader.specs.declared.entry.Pending.{Pending};
ghost use Rattle.record_reader.specs.declared.entry.Pending.TheVariants as links;
ghost use Rattle.record_reader.specs.Instances.{paths_of, path_of, record_between};
ghost use Rattle.record_reader.specs.Texts.{instance_of_links};
ghost use Rattle.record_reader.specs.Readers.{HasPositions, frequencies_in, domains_of};
ghost use Rattle.record_reader.specs.Drafts.{IsDraft, DraftGrows, record_by};
ghost use Rattle.record_reader.specs.Validity.{AreDomains, ArePendings, IsPathEntry};

use crate::entry::{ConstraintEntry, Demand, PathEntry, Pending};
use crate::reader::Reader;
use crate::{Cause, ReadError};
use fapp_model::{Instance, Items, MAX_CHOICES, Path, Record, choice_count};
use fapp_text::{NoMemory, fault_at};
use std::alloc::Global;
use std::collections::{BTreeMap, BTreeSet};

/// The paths and records of some links, and how many choices the paths have.
#[derive(Drop)]
pub struct Draft {
    pub paths: Vec<Path>,
    pub records: Vec<Record>,
    pub choices: usize,
}

impl Draft {
    /// Adds the path of an entry, if its domain is known and there are not too many choices.
    fn add_path(
        &mut self,
        alloc: Global,
        reader: &Reader,
        entry: PathEntry,
    ) -> Result<(), ReadError>
        requires domains { AreDomains (domains_of reader.now) }
        requires entry { IsPathEntry entry }
        requires few { self.old.choices ≤ MAX_CHOICES }
        ensures { (earlier : List Pending) → IsDraft reader.now earlier self.old
            → DraftGrows reader.now earlier (links.Path entry) result self.new }
    {
        let path = path_of(alloc, &reader.domains, entry)?;
        if path.freqs.is_empty() {
            return Err(fault_at(entry.line, Cause::UnknownDomain));
        }
        let choices = self.choices + choice_count(&path) as usize;
        if choices > MAX_CHOICES {
            return Err(fault_at(entry.line, Cause::TooManyChoices));
        }
        self.choices = choices;
        self.paths.push(path)?;
        Ok(())
    }

    /// Adds the record of an entry, if it names paths that are there.
    fn add_record(&mut self, reader: &Reader, entry: ConstraintEntry) -> Result<(), ReadError>
        requires { HasPositions reader.now.positions (paths_of reader.now.links) }
        ensures { (earlier : List Pending) → IsDraft reader.now earlier self.old
            → DraftGrows reader.now earlier (links.Constraint entry) result self.new }
    {
        match record_of(&reader.positions, &entry) {
            Some(record) => {
                self.records.push(record)?;
                Ok(())
            }
            None => Err(fault_at(entry.line, Cause::UnknownPath)),
        }
    }
}

/// The path of an entry.
fn path_of(
    alloc: Global,
    domains: &BTreeMap<u32, BTreeSet<u32>>,
    entry: PathEntry,
) -> Result<Path, NoMemory>
    ensures { IfOk result (λ path. path ≡ path_of (frequencies_in domains.now) entry) }
{
    let freqs = frequencies(alloc, domains, entry.domain)?;
    Ok(path(entry.number, freqs, entry.pol))
}

fn path(number: u32, freqs: Vec<u32>, pol: i8) -> Path
    ensures { result ≡ record { number = number; freqs = freqs.items; pol = pol } }
{
    Path {
        number,
        freqs: Items::from_vec(freqs),
        pol,
    }
}

/// The frequencies of a domain, ascending. There are none where it is not known.
fn frequencies(
    alloc: Global,
    domains: &BTreeMap<u32, BTreeSet<u32>>,
    domain: u32,
) -> Result<Vec<u32>, NoMemory>
    ensures { IfOk result (λ v. v.items ≡ frequencies_in domains.now domain) }
{
    match domains.get(&domain) {
        Some(frequencies) => frequencies.iter().copied().collect(alloc),
        None => Ok(Vec::new(alloc)),
    }
}

/// The record of an entry, if the paths that it names have positions.
fn record_of(positions: &BTreeMap<u32, u16>, entry: &ConstraintEntry) -> Option<Record>
    ensures { result ≡ record_by (get nat_cmp positions.now entry.now.first)
        (get nat_cmp positions.now entry.now.second)
        entry.now.rule }
{
    let first = *positions.get(&entry.first)?;
    let second = *positions.get(&entry.second)?;
    Some(record_between(first, second, entry.rule))
}

/// The record of a rule between the paths at two positions.
fn record_between(i: u16, j: u16, rule: Demand) -> Record
    ensures { result ≡ record_between i j rule }
{
    match rule {
        Demand::Freq { equal, n } => Record::Freq { i, j, equal, n },
        Demand::Pol { equal } => Record::Pol { i, j, equal },
        Demand::Same { dist } => Record::Same { i, j, dist },
        Demand::Other { dist } => Record::Other { i, j, dist },
    }
}

/// The instance of all links, if the whole text refuses none.
pub(crate) fn instance_of(alloc: Global, reader: &Reader) -> Result<Instance, ReadError>
    requires domains { AreDomains (domains_of reader.now) }
    requires links { ArePendings reader.now.links }
    requires positions { HasPositions reader.now.positions (paths_of reader.now.links) }
    ensures { Gives (λ instance. instance) result
        (instance_of_links (domains_of reader.now) reader.now.links) }
{
    let mut draft = Draft {
        paths: Vec::new(alloc),
        records: Vec::new(alloc),
        choices: 0,
    };
    for link in reader.links.as_slice() {
        match *link {
            Pending::Path(entry) => draft.add_path(alloc, reader, entry)?,
            Pending::Constraint(entry) => draft.add_record(reader, entry)?,
        }
    }
    Ok(Instance {
        paths: Items::from_vec(draft.paths),
        records: Items::from_vec(draft.records),
    })
}
