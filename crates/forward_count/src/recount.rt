ghost use Rattle.std.specs.Prelude.{◌≡◌, ◌≤◌, [], None, length, replicate};
ghost use Rattle.choice_counts.specs.Kept.{AreKept};
ghost use Rattle.choice_counts.specs.Tables.{table_at};
ghost use Rattle.fapp_model.specs.declared.limits.TheConstants.{MAX_PATHS};
ghost use Rattle.fapp_model.specs.Instances.{IsInstance};
ghost use Rattle.fapp_model.specs.Levels.{levels_of};
ghost use Rattle.fapp_model.specs.search.Partials.{IsPartial};

use crate::counts::count_step;
use crate::step::Step;
use choice_counts::{PathTallies, TallyTable, Totals};
use fapp_model::Literal;
use fapp_tables::Tables;
use nogood::Partial;

/// Clears all slots.
pub fn clear_slots(partial: &mut Partial, paths: usize)
    requires whole { length partial.old ≡ paths }
    requires few { paths ≤ MAX_PATHS }
    ensures { partial.new ≡ replicate paths None }
{
    for path in 0..paths {
        partial.clear(path as u16);
    }
}

/// Counts literals one after another, where none is counted yet.
pub fn count_all<'a>(
    tables: &'a Tables<'a>,
    tallies: &TallyTable,
    level: u32,
    literals: &[Literal],
    rows: &mut [PathTallies],
    partial: &mut Partial,
    totals: Totals,
) -> Totals
    requires instance { IsInstance tables.now }
    requires level { level ≤ levels_of tables.now }
    requires literals { IsPartial tables.now literals.now }
    requires tallies { tallies.now ≡ table_at tables.now level }
    requires kept { AreKept tables.now level [] partial.old rows.old totals }
    ensures { AreKept tables.now level literals.now partial.new rows.new result }
{
    let mut counted = totals;
    for index in 0..literals.len() {
        let step = Step::new(tables, level, false, literals[index]);
        counted = count_step(&step, tallies, rows, partial, counted);
    }
    counted
}
