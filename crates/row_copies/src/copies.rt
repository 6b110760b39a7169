ghost use Rattle.std.specs.Prelude.{ℕ, ◌≡◌, ◌<◌, ◌≤◌, ◌+◌, ◌∷◌, ◌++◌, [], length, slice_index, All, IfOk};
ghost use Rattle.search_log.specs.Shares.{Finds};
ghost use Rattle.row_copies.specs.Filed.{IsBucketFor, IsFoundIn, bucket, known_cites, AreFiled};

use fapp_model::{Literal, NoMemory, Tag};
use nogood::Partial;
use search_log::{Cite, fits};
use std::alloc::Global;
use std::marker::Model;

/// Rows that were copied, in order, with room for so many. Each is filed in the bucket of one of
/// its literals, so that a look-up goes through the buckets of the literals that are set, and not
/// through all rows.
#[derive(Drop)]
pub struct Copies {
    cites: Vec<Cite>,
    /// By row: its bucket.
    filed: Vec<u32>,
    /// By row: 1 and the place of the row before it in its bucket, or 0.
    before: Vec<u32>,
    /// By bucket: 1 and the place of its last row, or 0. Rows without literals have a bucket of
    /// their own, behind the others.
    last: Vec<u32>,
    /// By bucket: how many rows it has. Nothing rests on it.
    sizes: Vec<u32>,
    /// How many buckets there are for rows that have literals.
    buckets: u32,
    /// The paths that rows name are below it.
    paths: u32,
    room: u32,
}

impl Model for Copies {
    ghost use Rattle.std.specs.Prelude.{◌≡◌, ◌≤◌, ◌<◌, ◌+◌, List, length, vec_capacity};
    ghost use Rattle.search_log.specs.declared.shared.Cite.{Cite as CiteValue};
    ghost use Rattle.row_copies.specs.Filed.{AreFiled, CopiesState};

    ghost Value = { CopiesState };

    ghost view = { λ copies. record { cites = copies.cites.items; room = copies.room } };

    ghost invariant = { λ copies. AreFiled copies.buckets copies.cites.items copies.filed.items
        copies.before.items copies.last.items copies.paths
        × (length copies.sizes.items ≡ length copies.last.items)
        × (copies.room ≤ vec_capacity copies.cites) × (copies.room ≤ vec_capacity copies.filed)
        × (copies.room ≤ vec_capacity copies.before)
        × (length copies.cites.items ≤ copies.room) };
}

/// How many buckets there are for so many rows: about as many, so that few rows take little memory.
fn buckets_for(room: u32) -> usize
    ensures { (0 < result) × (result < 131072) }
{
    (room as usize).clamp(1, 65_536).next_power_of_two()
}

/// The bucket of a literal.
fn bucket_of(path: u16, choice: u16, buckets: u32) -> usize
    requires { 0 < buckets }
    ensures { result ≡ bucket buckets path choice }
{
    ((u32::from(path) * 40_503 + u32::from(choice)) % buckets) as usize
}

/// One more than the greatest path of some literals, or what it was where that is more.
fn paths_of(paths: u32, lits: &[Literal]) -> u32
    requires { paths ≤ 65536 }
    ensures more { paths ≤ result }
    ensures few { result ≤ 65536 }
    ensures below { All (λ a. a.path < result) lits.now }
{
    let mut most = paths;
    for lit in lits {
        most = most.max(u32::from(lit.path) + 1);
    }
    most
}

/// The bucket that a row with these literals is put into: of those of its literals one with the
/// fewest rows.
fn bucket_for(sizes: &[u32], lits: &[Literal], buckets: u32) -> usize
    requires { 0 < buckets }
    ensures { IsBucketFor buckets lits.now result }
{
    let none = buckets as usize;
    let mut best = none;
    let mut fewest = u32::MAX;
    for lit in lits {
        let bucket = bucket_of(lit.path, lit.choice, buckets);
        let size = sizes.get(bucket).copied().unwrap_or(0);
        if best == none || size < fewest {
            best = bucket;
            fewest = size;
        }
    }
    best
}

/// A number of a list.
fn number_at(numbers: &[u32], place: usize) -> u32
    requires { place < length numbers.now }
    ensures { result ≡ slice_index numbers.now place }
{
    numbers[place]
}

/// The place of a row of a bucket that fits.
fn find_in(
    cites: &[Cite],
    filed: &[u32],
    before: &[u32],
    last: &[u32],
    bucket: usize,
    part: &Partial,
    target: Tag,
) -> Option<usize>
    requires filed { (width : ℕ) × (paths : ℕ)
        × AreFiled width cites.now filed.now before.now last.now paths }
    requires bucket { bucket < length last.now }
    ensures { IsFoundIn cites.now filed.now bucket part.now target.code result }
{
    let mut left = last[bucket] as usize;
    while left > 0 {
        let place = left - 1;
        if fits(&cites[place].content, part, target) {
            return Some(place);
        }
        left = before[place] as usize;
    }
    None
}

impl Copies {
    /// No row yet, with room for so many.
    pub fn new(alloc: Global, room: u32) -> Result<Copies, NoMemory>
        ensures { IfOk result (λ copies. (copies.cites ≡ []) × (copies.room ≡ room)) }
    {
        let buckets = buckets_for(room);
        Ok(Copies {
            cites: Vec::with_capacity(alloc, room as usize)?,
            filed: Vec::with_capacity(alloc, room as usize)?,
            before: Vec::with_capacity(alloc, room as usize)?,
            last: vec![in alloc; 0u32; buckets + 1]?,
            sizes: vec![in alloc; 0u32; buckets + 1]?,
            buckets: buckets as u32,
            paths: 0,
            room,
        })
    }

    /// Adds a row, for which there is room.
    pub fn add(&mut self, cite: Cite)
        requires { length self.old.cites < self.old.room }
        ensures cites { self.new.cites ≡ self.old.cites ++ cite ∷ [] }
        ensures room { self.new.room ≡ self.old.room }
    {
        let lits = cite.content.literals();
        let bucket = bucket_for(self.sizes.as_slice(), lits, self.buckets);
        let before = number_at(self.last.as_slice(), bucket);
        let count = self.cites.as_slice().len();
        self.paths = paths_of(self.paths, lits);
        self.cites.push_reserved(cite);
        self.filed.push_reserved(bucket as u32);
        self.before.push_reserved(before);
        self.last[bucket] = count as u32 + 1;
        self.sizes[bucket] = self.sizes[bucket].saturating_add(1);
    }

    /// A row whose literals the part has, at a tag of at least the target, or none is one.
    pub fn find(&self, part: &Partial, target: Tag) -> Option<Cite>
        ensures { Finds (known_cites self.now.cites) part.now target.code result }
    {
        let cites = self.cites.as_slice();
        let filed = self.filed.as_slice();
        let before = self.before.as_slice();
        let last = self.last.as_slice();
        let buckets = self.buckets;
        let none = buckets as usize;
        if let Some(place) = find_in(cites, filed, before, last, none, part, target) {
            return Some(cites[place]);
        }
        for path in 0..self.paths {
            if let Some(choice) = part.get(path as u16) {
                let bucket = bucket_of(path as u16, choice, buckets);
                if let Some(place) = find_in(cites, filed, before, last, bucket, part, target) {
                    return Some(cites[place]);
                }
            }
        }
        None
    }
}
