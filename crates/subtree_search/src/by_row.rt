// The line of a node that a row settles.
ghost use Rattle.std.specs.Prelude.{◌≤◌, ◌^◌, IfOk};
ghost use Rattle.fapp_model.specs.declared.instance.Instance.{Instance};
ghost use Rattle.fapp_model.specs.search.Partials.{AreLiterals};
ghost use Rattle.nogood.specs.Rows.{row_literals};
ghost use Rattle.settle_laws.specs.RowLines.{AreAll, IsLinedByRow};

use fapp_model::{Items, NoMemory, Tag};
use search_log::{ChoiceRef, Cite, Log, LogLine, Ref};
use settle_laws::Found;
use std::alloc::Global;

/// The same reference for each choice below a count.
fn all_refs(alloc: Global, count: u32, line: Ref) -> Result<Items<ChoiceRef>, NoMemory>
    requires { count ≤ 2 ^ 16 }
    ensures { IfOk result (AreAll count line) }
{
    let mut refs = Vec::with_capacity(alloc, count as usize)?;
    for index in 0..count {
        let choice = index as u16;
        refs.push(ChoiceRef { choice, line })?;
    }
    Ok(Items::from_vec(refs))
}

/// Adds a line on the row's literals, each of whose children is the row.
pub fn add_by_row(
    alloc: Global,
    cite: Cite,
    tag: Tag,
    path: u16,
    count: u32,
    log: &mut Log,
) -> Result<Found, NoMemory>
    requires { count ≤ 2 ^ 16 }
    ensures { (instance : Instance) → AreLiterals instance (row_literals cite.content) →
        IsLinedByRow instance cite tag path count log.old log.new result }
{
    let lits = Items::from_vec(Vec::from_slice(alloc, cite.content.literals())?);
    let refs = all_refs(alloc, count, Ref::Row(cite.row))?;
    let place = log.push(LogLine {
        tag,
        lits,
        path: Some(path),
        refs,
    })?;
    Ok(Found::Settled {
        line: Ref::Own(place),
        tag,
    })
}
