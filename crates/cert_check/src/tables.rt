//! Rows of numbers.

ghost use Rattle.std.specs.Prelude.{◌≢◌, ◌<◌, length, IfOk, OnOk};
ghost use Rattle.fapp_model.specs.Instances.{IsInstance};
ghost use Rattle.cert_check.specs.Tables.{IsPushed, IsAdded, AreEmpty, ArePlacesOf};
ghost use Rattle.fapp_model.specs.Records.{first_path, second_path};

use fapp_model::{Instance, Items, NoMemory, Record};
use std::alloc::Global;

/// Adds a number to a row.
pub(crate) fn push_at(table: &mut [Items<u32>], row: u16, number: u32) -> Result<(), NoMemory>
    requires { row < length table.old }
    ensures { OnOk result (IsPushed table.old table.new row number) }
{
    table[row as usize].push(number)
}

/// Adds a record's position to the rows of its paths.
fn add_record(table: &mut [Items<u32>], constraint: &Record, place: u32) -> Result<(), NoMemory>
    requires first { first_path constraint.now < length table.old }
    requires second { second_path constraint.now < length table.old }
    requires different { first_path constraint.now ≢ second_path constraint.now }
    ensures { OnOk result (IsAdded table.old table.new constraint.now place) }
{
    push_at(table, constraint.first_path(), place)?;
    push_at(table, constraint.second_path(), place)
}

fn add_records(table: &mut [Items<u32>], instance: &Instance) -> Result<(), NoMemory>
    requires instance { IsInstance instance.now }
    requires empty { AreEmpty (length instance.now.paths) table.old }
    ensures { OnOk result (ArePlacesOf instance.now table.new) }
{
    let constraints = instance.records.as_slice();
    for place in 0..constraints.len() {
        add_record(table, &constraints[place], place as u32)?;
    }
    Ok(())
}

pub(crate) fn empty_rows(alloc: Global, rows: usize) -> Result<Vec<Items<u32>>, NoMemory>
    ensures { IfOk result (λ table. AreEmpty rows table.items) }
{
    let mut table = Vec::new(alloc);
    for _ in 0..rows {
        table.push(Items::new(alloc))?;
    }
    Ok(table)
}

/// By path, the positions of the records that name it.
pub(crate) fn places_table(
    alloc: Global,
    instance: &Instance,
) -> Result<Items<Items<u32>>, NoMemory>
    requires { IsInstance instance.now }
    ensures { IfOk result (ArePlacesOf instance.now) }
{
    let mut table = empty_rows(alloc, instance.paths.len())?;
    add_records(table.as_mut_slice(), instance)?;
    Ok(Items::from_vec(table))
}
