// The rows that old lines say.
ghost use Rattle.std.specs.Prelude.{◌≡◌, ◌<◌, replicate, All, IfOk};
ghost use Rattle.merge_laws.specs.Stages.{with_placed};

use fapp_model::NoMemory;
use std::alloc::Global;

/// One more than the greatest placed row, or 0.
pub(crate) fn room_of_placed(placed: &[(u32, u32)]) -> usize
    ensures { All (λ p. p.0 < result) placed.now }
{
    let mut room = 0;
    for place in placed {
        if room <= place.0 as usize {
            room = place.0 as usize + 1;
        }
    }
    room
}

/// The numbers of so many rows: of a placed row that of its line, and 0 of any other.
pub(crate) fn rows_with(
    alloc: Global,
    placed: &[(u32, u32)],
    count: usize,
) -> Result<Vec<u32>, NoMemory>
    requires { All (λ p. p.0 < count) placed.now }
    ensures { IfOk result (λ rows. rows.items ≡ with_placed placed.now (replicate count 0)) }
{
    let mut rows = vec![in alloc; 0; count]?;
    for place in placed {
        rows[place.0 as usize] = place.1;
    }
    Ok(rows)
}
