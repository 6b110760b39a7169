ghost use Rattle.std.specs.Prelude.{◌≡◌, length, IfOk};
ghost use Rattle.std.specs.List.{AllAdjacentBelow};
ghost use Rattle.std.specs.List.Sorted.{IsPermutation};
ghost use Rattle.fapp_model.specs.Instances.{IsInstance};
ghost use Rattle.fapp_tables.specs.Links.{AreSortedLinks, IsSideNotAfter, all_links};

use fapp_model::{Instance, NoMemory};
use std::alloc::Global;

/// A record, as seen from one of the two paths that it names. Links are ordered by path, other path
/// and position.
#[derive(Clone, Copy, Debug, PartialEq, Eq, PartialOrd, Ord)]
pub struct Side {
    pub path: u16,
    pub other: u16,
    /// The record's position.
    pub position: u32,
}

/// The two links of each record, in order.
pub fn sorted_links(alloc: Global, instance: &Instance) -> Result<Vec<Side>, NoMemory>
    requires { IsInstance instance.now }
    ensures { IfOk result (λ links. AreSortedLinks instance.now links.items) }
{
    let mut links = links_of(alloc, instance)?;
    sort_links(&mut links);
    Ok(links)
}

/// The two links of each record, record by record.
fn links_of(alloc: Global, instance: &Instance) -> Result<Vec<Side>, NoMemory>
    requires { IsInstance instance.now }
    ensures { IfOk result (λ links. links.items ≡ all_links instance.now) }
{
    let records = instance.records.as_slice();
    let mut links = Vec::with_capacity(alloc, 2 * records.len())?;
    for index in 0..records.len() {
        let (path, other) = (records[index].first_path(), records[index].second_path());
        let position = index as u32;
        links.push(Side {
            path,
            other,
            position,
        })?;
        links.push(Side {
            path: other,
            other: path,
            position,
        })?;
    }
    Ok(links)
}

/// Puts links in order.
fn sort_links(links: &mut [Side])
    ensures same { IsPermutation links.old links.new }
    ensures ordered { AllAdjacentBelow IsSideNotAfter links.new (length links.new) }
{
    links.sort_unstable();
}
