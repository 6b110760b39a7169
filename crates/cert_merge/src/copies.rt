// Lines that are copied.
ghost use Rattle.std.specs.Prelude.{◌≡◌, IfOk};

use cert_lines::{Line, Rule};
use fapp_model::{Items, NoMemory};
use std::alloc::Global;

/// The same numbers.
fn copy_of_cites(alloc: Global, cites: &[u32]) -> Result<Items<u32>, NoMemory>
    ensures { IfOk result (λ copy. copy ≡ cites.now) }
{
    Ok(Items::from_vec(Vec::from_slice(alloc, cites)?))
}

/// The same rule.
fn copy_of_rule(alloc: Global, rule: &Rule) -> Result<Rule, NoMemory>
    ensures { IfOk result (λ copy. copy ≡ rule.now) }
{
    Ok(match rule {
        Rule::Count { cites } => Rule::Count {
            cites: copy_of_cites(alloc, cites.as_slice())?,
        },
        Rule::Branch { path, children } => Rule::Branch {
            path: *path,
            children: Items::from_vec(Vec::from_slice(alloc, children.as_slice())?),
        },
        Rule::Delete { cites } => Rule::Delete {
            cites: copy_of_cites(alloc, cites.as_slice())?,
        },
    })
}

/// The same line.
pub(crate) fn copy_of(alloc: Global, line: &Line) -> Result<Line, NoMemory>
    ensures { IfOk result (λ copy. copy ≡ line.now) }
{
    Ok(Line {
        tag: line.tag,
        lits: Items::from_vec(Vec::from_slice(alloc, line.lits.as_slice())?),
        rule: copy_of_rule(alloc, &line.rule)?,
    })
}
