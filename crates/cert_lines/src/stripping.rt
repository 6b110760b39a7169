//! Lines without the Delete lines.

ghost use Rattle.std.specs.Prelude.{◌≡◌, ℕ, ◌<◌, ◌≤◌, ◌+◌, ◌==◌, length, map, IfOk, if◌then◌else◌};
ghost use Rattle.std.specs.List.{range_with_len};
ghost use Rattle.fapp_model.specs.declared.limits.TheConstants.{MAX_NUMBER};
ghost use Rattle.cert_lines.specs.Renumbering.{number_in, renumbered};
ghost use Rattle.cert_lines.specs.Stripping.{IsStrippable, bare, bare_rule, stripped, stripped_number};

use crate::kept::is_delete;
use crate::renumbering::renumbered;
use crate::{Line, NoMemory, Rule};
use fapp_model::{Items, MAX_NUMBER};
use std::alloc::Global;

/// The lines that are no Delete lines, in their order. Each cite has the number that the cited line
/// has among them, and a line of the tag (0, 0, 0) cites nothing. At a tag above that a line may
/// cite only earlier lines that are no Delete lines. `NoMemory` comes where room could not be had,
/// and where there are more than 1,000,000,000 lines.
pub fn strip(alloc: Global, lines: &[Line]) -> Result<Vec<Line>, NoMemory>
    requires { (n : ℕ) → 0 < n → n ≤ length lines.now → IsStrippable lines.now n }
    ensures { IfOk result (λ out. out.items ≡ stripped lines.now) }
{
    let numbers = stripped_numbers(alloc, lines)?;
    let mut out = Vec::new(alloc);
    for line in lines {
        if !is_delete(&line.rule) {
            out.push(stripped_line(alloc, line, &numbers)?)?;
        }
    }
    Ok(out)
}

/// For 0 and each line's number how many lines up to it are no Delete lines.
fn stripped_numbers(alloc: Global, lines: &[Line]) -> Result<Vec<u32>, NoMemory>
    ensures { IfOk result (λ numbers. numbers.items
        ≡ map (stripped_number lines.now) (range_with_len 0 (length lines.now + 1))) }
{
    if lines.len() > MAX_NUMBER as usize {
        return Err(NoMemory);
    }
    let mut numbers = Vec::with_capacity(alloc, lines.len() + 1)?;
    let mut count = 0u32;
    numbers.push(count)?;
    for line in lines {
        if !is_delete(&line.rule) {
            count += 1;
        }
        numbers.push(count)?;
    }
    Ok(numbers)
}

/// A line with the numbers of a table, which cites nothing at the tag (0, 0, 0).
fn stripped_line(alloc: Global, line: &Line, numbers: &[u32]) -> Result<Line, NoMemory>
    ensures { IfOk result (λ copy. copy ≡ (if line.now.tag.code == 0 then bare line.now
        else renumbered (number_in numbers.now) line.now)) }
{
    if line.tag.code == 0 {
        bare(alloc, line)
    } else {
        renumbered(alloc, line, numbers)
    }
}

/// A copy of a line that cites nothing.
fn bare(alloc: Global, line: &Line) -> Result<Line, NoMemory>
    ensures { IfOk result (λ copy. copy ≡ bare line.now) }
{
    Ok(Line {
        tag: line.tag,
        lits: Items::from_vec(Vec::from_slice(alloc, line.lits.as_slice())?),
        rule: bare_rule(alloc, &line.rule),
    })
}

fn bare_rule(alloc: Global, rule: &Rule) -> Rule
    ensures { result ≡ bare_rule rule.now }
{
    match rule {
        Rule::Count { .. } => Rule::Count {
            cites: Items::new(alloc),
        },
        Rule::Branch { path, .. } => Rule::Branch {
            path: *path,
            children: Items::new(alloc),
        },
        Rule::Delete { .. } => Rule::Delete {
            cites: Items::new(alloc),
        },
    }
}
