ghost use Rattle.std.specs.Prelude.{◌≡◌, ◌+◌, ◌*◌, ◌<◌, ◌≤◌, ℕ, length, map, slice_index, IfOk};
ghost use Rattle.std.specs.List.Sorted.{IsNonDecreasingBy};
ghost use Rattle.fapp_tables.specs.Runs.{AreRuns, AreStarts, IsStart, begins_run};

use crate::links::Side;
use fapp_model::{MAX_PATHS, MAX_RECORDS, NoMemory};
use std::alloc::Global;

/// Where the links of each pair of paths stand, among all links in order.
#[derive(Debug, Drop)]
pub struct Runs {
    /// The first link of each pair.
    pub heads: Vec<Side>,
    /// Its place among all links; at the end the number of links.
    pub firsts: Vec<u32>,
}

/// Finds the runs of links in order.
pub fn runs_of(alloc: Global, links: &[Side]) -> Result<Runs, NoMemory>
    requires { length links.now ≤ 2 * MAX_RECORDS }
    ensures { IfOk result (AreRuns links.now) }
{
    let mut heads = Vec::with_capacity(alloc, links.len())?;
    let mut firsts = Vec::with_capacity(alloc, links.len() + 1)?;
    for place in 0..links.len() {
        if begins_run(links, place) {
            heads.push(links[place])?;
            firsts.push(place as u32)?;
        }
    }
    firsts.push(links.len() as u32)?;
    Ok(Runs { heads, firsts })
}

/// Whether the link before a place is none of the same pair.
fn begins_run(links: &[Side], place: usize) -> bool
    requires { place < length links.now }
    ensures { result ≡ begins_run links.now place }
{
    if place == 0 {
        return true;
    }
    let (before, here) = (links[place - 1], links[place]);
    before.path != here.path || before.other != here.other
}

/// Where the heads of each path begin; at the end their number.
pub fn starts_of(alloc: Global, heads: &[Side], paths: usize) -> Result<Vec<u32>, NoMemory>
    requires rising { IsNonDecreasingBy (λ head. head.path) heads.now }
    requires few { length heads.now ≤ 2 * MAX_RECORDS }
    requires paths { paths ≤ MAX_PATHS }
    ensures { IfOk result (λ starts. AreStarts heads.now paths starts.items) }
{
    let mut starts = Vec::with_capacity(alloc, paths + 1)?;
    for path in 0..paths + 1 {
        starts.push(start_of(heads, path) as u32)?;
    }
    Ok(starts)
}

/// How many heads are of earlier paths.
fn start_of(heads: &[Side], path: usize) -> usize
    requires { IsNonDecreasingBy (λ head. head.path) heads.now }
    ensures { IsStart heads.now path result }
{
    heads.partition_point(|head| (head.path as usize) < path)
}

/// The other paths of links, in their order.
pub fn others_of(alloc: Global, links: &[Side]) -> Result<Vec<u16>, NoMemory>
    ensures { IfOk result (λ others. others.items ≡ map (λ link. link.other) links.now) }
{
    links.iter().map(|link| link.other).collect(alloc)
}

/// The positions of links, in their order.
pub fn positions_of(alloc: Global, links: &[Side]) -> Result<Vec<u32>, NoMemory>
    ensures { IfOk result (λ positions. positions.items ≡ map (λ link. link.position) links.now) }
{
    links.iter().map(|link| link.position).collect(alloc)
}
