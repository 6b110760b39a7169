ghost use Rattle.std.specs.Prelude.{◌≡◌, [], length, IfOk, OnOk};
ghost use Rattle.fapp_model.specs.Instances.{IsInstance};
ghost use Rattle.arc_levels.specs.Heights.{AreArcs, AreClear, AreHeights};
ghost use Rattle.arc_levels.specs.Removals.{AreLines, AreBlank};

use crate::heights::Heights;
use crate::removals::Removals;
use crate::rounds::{count, settle};
use fapp_model::{Instance, NoMemory, levels};
use fapp_tables::Tables;
use std::alloc::Global;

/// Heights of all choices, each of which is 0.
pub fn blank_rows(alloc: Global, instance: &Instance) -> Result<Vec<Heights>, NoMemory>
    requires { IsInstance instance.now }
    ensures { IfOk result (λ rows. AreBlank instance.now rows.items (length instance.now.paths)) }
{
    let mut rows = Vec::with_capacity(alloc, instance.paths.len())?;
    for path in 0..instance.paths.len() {
        let heights = vec![in alloc; 0u8; count(instance, path as u16) as usize]?;
        rows.push(Heights::from_vec(heights))?;
    }
    Ok(rows)
}

/// Removes the choices outside the arcs of each level, from the highest down: what is outside at a
/// level is outside at each lower one.
pub fn settle_all(alloc: Global, tables: &Tables, removals: &mut Removals) -> Result<(), NoMemory>
    requires valid { IsInstance tables.now }
    requires rows { AreHeights tables.now removals.old.rows.items }
    requires clear { AreClear tables.now removals.old.rows.items }
    requires none { removals.old.lines ≡ [] }
    ensures arcs { OnOk result (AreArcs tables.now removals.new.rows.items) }
    ensures lined { OnOk result (AreLines tables.now removals.new.rows.items removals.new.lines) }
{
    let highest = levels(tables.instance());
    for step in 0..highest + 1 {
        settle(alloc, tables, highest - step, removals)?;
    }
    Ok(())
}
