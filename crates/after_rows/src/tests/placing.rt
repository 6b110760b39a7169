ghost use Rattle.std.specs.Prelude.{◌≡◌, length, IfOk, IfSome};
ghost use Rattle.after_rows.specs.Placing.{ArePaired, AreSaid, says};
ghost use Rattle.fapp_workers.specs.FirstRows.{AreTwins};
ghost use Rattle.search_log.specs.Shares.{row_content};

use cert_lines::Line;
use fapp_model::{Literal, NoMemory};
use nogood::Row;
use std::alloc::Global;
use std::test::Fail;

/// What a line says, as a row, where it has at most one literal.
fn row_of(line: &Line) -> Option<Row>
    ensures { IfSome result (λ row. row_content row ≡ says line.now) }
{
    let lits = line.lits.as_slice();
    if lits.len() > 1 {
        return None;
    }
    let literal = match lits.first() {
        Some(literal) => *literal,
        None => Literal { path: 0, choice: 0 },
    };
    Some(Row {
        tag: line.tag,
        len: lits.len() as u8,
        lits: [literal; 8],
    })
}

/// What the old lines of these numbers, from 1, say above (0, 0, 0), as rows.
pub(super) fn rows_of(alloc: Global, old: &[Line], numbers: &[u32]) -> Result<Vec<Row>, Fail>
    ensures { IfOk result (λ rows. AreSaid old.now numbers.now rows.items) }
{
    let mut rows = Vec::new(alloc);
    for number in numbers {
        if *number == 0 || *number as usize > old.len() {
            return Err("no such line".into());
        }
        let Some(row) = row_of(&old[*number as usize - 1]) else {
            return Err("a line of several literals".into());
        };
        if row.tag.code == 0 {
            return Err("a line that says nothing".into());
        }
        rows.push(row)?;
    }
    Ok(rows)
}

/// Each row with the number of its line, where rows have the numbers of their places.
pub(super) fn paired(
    alloc: Global,
    placed: &[(u32, u32)],
    numbers: &[u32],
) -> Result<Vec<(u32, u32)>, NoMemory>
    requires { AreTwins (length numbers.now) placed.now }
    ensures { IfOk result (λ pairs. ArePaired numbers.now pairs.items) }
{
    let mut pairs = Vec::new(alloc);
    for place in 0..placed.len() {
        pairs.push((placed[place].0, numbers[placed[place].1 as usize]))?;
    }
    Ok(pairs)
}
