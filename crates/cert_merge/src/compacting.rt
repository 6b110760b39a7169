// Lines with Delete lines for what is cited no more.
ghost use Rattle.std.specs.Prelude.{◌≡◌, ℕ, false, ◌+◌, ◌<◌, ◌≤◌, [], ◌∷◌, ◌++◌, length, map, All, IfOk, OnOk};
ghost use Rattle.fapp_model.specs.Instances.{IsNumber};
ghost use Rattle.cert_lines.specs.Renumbering.{number_in, renumbered};
ghost use Rattle.cert_lines.specs.acceptance.Deleted.{is_delete};
ghost use Rattle.accept_laws.specs.Compacting.{IsCompactable, compacted, delete_line};
ghost use Rattle.cert_merge.specs.Compacting.{delete_by};

use crate::citing::{ended_rows, last_cites};
use cert_lines::{Line, Rule, renumbered, renumbered_cites};
use fapp_model::{Items, MAX_NUMBER, NoMemory, Tag};
use std::alloc::Global;

/// The lines with Delete lines: behind each line that is the last to cite some lines of two or more
/// literals stands one that names these. Each cite has the number that the cited line has among the
/// result's lines.
///
/// No line is a Delete line, each cites earlier lines alone, and a line of the tag (0, 0, 0) cites
/// nothing. `NoMemory` comes where room could not be had, and where there would be more than
/// 1,000,000,000 lines.
pub fn compact(alloc: Global, lines: &[Line]) -> Result<Vec<Line>, NoMemory>
    requires plain { All (λ line. is_delete line.rule ≡ false) lines.now }
    requires cites { (n : ℕ) → 0 < n → n ≤ length lines.now → IsCompactable lines.now n }
    ensures value { IfOk result (λ out. out.items ≡ compacted lines.now) }
    ensures few { IfOk result (λ out. IsNumber (length out.items)) }
{
    if lines.len() > MAX_NUMBER as usize {
        return Err(NoMemory);
    }
    let last = last_cites(alloc, lines)?;
    let rows = ended_rows(alloc, lines, &last)?;
    let mut out = Vec::new(alloc);
    let mut numbers = vec![in alloc; 0; 1]?;
    for (place, line) in lines.iter().enumerate() {
        add_compacted(
            alloc,
            &mut out,
            &mut numbers,
            line,
            rows[place + 1].as_slice(),
        )?;
    }
    Ok(out)
}

/// Adds a line with the numbers of a table, its own number to the table, and the Delete line for
/// what the line ends.
fn add_compacted(
    alloc: Global,
    out: &mut Vec<Line>,
    numbers: &mut Vec<u32>,
    line: &Line,
    ended: &[u32],
) -> Result<(), NoMemory>
    ensures lines { OnOk result (out.new.items ≡ out.old.items
        ++ (renumbered (number_in numbers.old.items) line.now
        ∷ delete_by numbers.new.items ended.now)) }
    ensures numbers { OnOk result (numbers.new.items ≡ numbers.old.items
        ++ (length out.old.items + 1) ∷ []) }
    ensures few { OnOk result (IsNumber (length out.new.items)) }
{
    let number = add(out, renumbered(alloc, line, numbers)?)?;
    numbers.push(number)?;
    if !ended.is_empty() {
        add(out, delete_line(alloc, ended, numbers)?)?;
    }
    Ok(())
}

/// Adds a line, and answers its number. `NoMemory` also comes where there are 1,000,000,000 lines.
fn add(out: &mut Vec<Line>, line: Line) -> Result<u32, NoMemory>
    ensures line { OnOk result (out.new.items ≡ out.old.items ++ line ∷ []) }
    ensures number { IfOk result (λ number. number ≡ length out.old.items + 1) }
    ensures few { OnOk result (IsNumber (length out.new.items)) }
{
    if out.len() >= MAX_NUMBER as usize {
        return Err(NoMemory);
    }
    out.push(line)?;
    Ok(out.len() as u32)
}

/// The Delete line for some lines, by their numbers in a table.
fn delete_line(alloc: Global, ended: &[u32], numbers: &[u32]) -> Result<Line, NoMemory>
    ensures { IfOk result (λ line. line ≡ delete_line (map (number_in numbers.now) ended.now)) }
{
    Ok(Line {
        tag: Tag { code: 0 },
        lits: Items::new(alloc),
        rule: Rule::Delete {
            cites: renumbered_cites(alloc, ended, numbers)?,
        },
    })
}
