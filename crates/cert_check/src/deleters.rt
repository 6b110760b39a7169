//! By line, the first line that deletes it.

ghost use Rattle.std.specs.Prelude.{◌≡◌, ◌<◌, ◌^◌, length, IfOk};
ghost use Rattle.cert_check.specs.Noted.{AreNoted};
ghost use Rattle.cert_check.specs.Marked.{AreDeleters};

use cert_lines::{Line, deletes};
use fapp_model::{Items, NoMemory};
use std::alloc::Global;

/// Notes a line's position for the lines whose numbers it names.
fn note(table: &mut [u32], cites: &[u32], place: u32)
    ensures { AreNoted table.old table.new cites.now place }
{
    for number in cites {
        let number = *number as usize;
        if number > 0 && number <= table.len() {
            table[number - 1] = place;
        }
    }
}

/// By line, the position of the first line that deletes it, or how many lines there are where none
/// does.
pub(crate) fn deleters_of(alloc: Global, lines: &[Line]) -> Result<Items<u32>, NoMemory>
    requires few { length lines.now < 2 ^ 32 }
    ensures { IfOk result (AreDeleters lines.now) }
{
    let count = lines.len();
    let mut table = vec![in alloc; count as u32; count]?;
    for done in 0..count {
        // from the last line to the first, so that the first one stands
        let place = count - 1 - done;
        note(
            table.as_mut_slice(),
            deletes(&lines[place].rule),
            place as u32,
        );
    }
    Ok(Items::from_vec(table))
}
