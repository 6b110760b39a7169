//! Lines whose cites have other numbers.

ghost use Rattle.std.specs.Prelude.{◌≡◌, map, IfOk};
ghost use Rattle.cert_lines.specs.Renumbering.{number_in, renumbered, renumbered_child, renumbered_rule};

use crate::{Child, Line, NoMemory, Rule};
use fapp_model::Items;
use std::alloc::Global;

/// The number at a place of a table, or 0 past its end.
fn number_in(numbers: &[u32], n: u32) -> u32
    ensures { result ≡ number_in numbers.now n }
{
    numbers.get(n as usize).copied().unwrap_or(0)
}

/// The numbers at some places of a table, with 0 for a place past its end. `NoMemory` comes where
/// room could not be had.
pub fn renumbered_cites(
    alloc: Global,
    cites: &[u32],
    numbers: &[u32],
) -> Result<Items<u32>, NoMemory>
    ensures { IfOk result (λ cs. cs ≡ map (number_in numbers.now) cites.now) }
{
    let renumbered = cites
        .iter()
        .map(|cite| number_in(numbers, *cite))
        .collect(alloc)?;
    Ok(Items::from_vec(renumbered))
}

fn renumbered_children(
    alloc: Global,
    children: &[Child],
    numbers: &[u32],
) -> Result<Items<Child>, NoMemory>
    ensures { IfOk result (λ cs. cs ≡ map (renumbered_child (number_in numbers.now)) children.now) }
{
    let mut renumbered = Vec::with_capacity(alloc, children.len())?;
    for child in children {
        renumbered.push(Child {
            choice: child.choice,
            cite: number_in(numbers, child.cite),
        })?;
    }
    Ok(Items::from_vec(renumbered))
}

fn renumbered_rule(alloc: Global, rule: &Rule, numbers: &[u32]) -> Result<Rule, NoMemory>
    ensures { IfOk result (λ r. r ≡ renumbered_rule (number_in numbers.now) rule.now) }
{
    Ok(match rule {
        Rule::Count { cites } => Rule::Count {
            cites: renumbered_cites(alloc, cites.as_slice(), numbers)?,
        },
        Rule::Branch { path, children } => Rule::Branch {
            path: *path,
            children: renumbered_children(alloc, children.as_slice(), numbers)?,
        },
        Rule::Delete { cites } => Rule::Delete {
            cites: renumbered_cites(alloc, cites.as_slice(), numbers)?,
        },
    })
}

/// A copy of a line, in which each cited number is replaced by the one at its place in a table. A
/// number past the table's end becomes 0. `NoMemory` comes where room for the copy could not be
/// had.
pub fn renumbered(alloc: Global, line: &Line, numbers: &[u32]) -> Result<Line, NoMemory>
    ensures { IfOk result (λ copy. copy ≡ renumbered (number_in numbers.now) line.now) }
{
    Ok(Line {
        tag: line.tag,
        lits: Items::from_vec(Vec::from_slice(alloc, line.lits.as_slice())?),
        rule: renumbered_rule(alloc, &line.rule, numbers)?,
    })
}
