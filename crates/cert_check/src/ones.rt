//! The lines of one literal, by path and choice.

ghost use Rattle.std.specs.Prelude.{◌≡◌, ◌<◌, ◌^◌, length, IfOk, OnOk, All};
ghost use Rattle.fapp_model.specs.Instances.{IsInstance};
ghost use Rattle.cert_lines.specs.WellFormed.{IsLineOrDelete};
ghost use Rattle.cert_check.specs.Ones.{first_literal, ones_by_path, IsRowsOf, IsOnes, IsLineAdded, AreOnesByPath, AreByChoice, AreLow};
ghost use Rattle.cert_check.specs.Tables.{AreEmpty};

use crate::judging::count_of;
use crate::tables::{empty_rows, push_at};
use cert_lines::Line;
use fapp_model::{Instance, Items, Literal, NoMemory};
use std::alloc::Global;

/// Adds a line's position to the row of its path, where it has one literal.
fn add_line(table: &mut [Items<u32>], literals: &[Literal], place: u32) -> Result<(), NoMemory>
    requires { All (λ a. a.path < length table.old) literals.now }
    ensures { OnOk result (IsLineAdded table.old table.new literals.now place) }
{
    if literals.len() == 1 {
        return push_at(table, literals[0].path, place);
    }
    Ok(())
}

fn add_lines(table: &mut [Items<u32>], _instance: &Instance, lines: &[Line]) -> Result<(), NoMemory>
    requires lines { All (IsLineOrDelete _instance.now) lines.now }
    requires few { length lines.now < 2 ^ 32 }
    requires empty { AreEmpty (length _instance.now.paths) table.old }
    ensures { OnOk result (AreOnesByPath lines.now (length _instance.now.paths) table.new) }
{
    for place in 0..lines.len() {
        add_line(table, lines[place].lits.as_slice(), place as u32)?;
    }
    Ok(())
}

fn add_choices(table: &mut [Items<u32>], lines: &[Line], ones: &[u32]) -> Result<(), NoMemory>
    requires low { AreLow lines.now (length table.old) ones.now }
    requires empty { AreEmpty (length table.old) table.old }
    ensures { OnOk result (AreByChoice lines.now ones.now (length table.old) table.new) }
{
    for place in ones {
        let first = first_of(&lines[*place as usize]);
        push_at(table, first.choice, *place)?;
    }
    Ok(())
}

fn first_of(line: &Line) -> Literal
    requires { 0 < length line.now.lits }
    ensures { result ≡ first_literal line.now.lits }
{
    line.lits.as_slice()[0]
}

fn rows_by_choice(
    alloc: Global,
    lines: &[Line],
    ones: &[u32],
    count: usize,
) -> Result<Items<Items<u32>>, NoMemory>
    requires { AreLow lines.now count ones.now }
    ensures { IfOk result (AreByChoice lines.now ones.now count) }
{
    let mut table = empty_rows(alloc, count)?;
    add_choices(table.as_mut_slice(), lines, ones)?;
    Ok(Items::from_vec(table))
}

/// By choice, the positions of the lines that have a literal of the path alone.
fn rows_of_path(
    alloc: Global,
    instance: &Instance,
    lines: &[Line],
    ones: &[u32],
    path: u16,
) -> Result<Items<Items<u32>>, NoMemory>
    requires instance { IsInstance instance.now }
    requires lines { All (IsLineOrDelete instance.now) lines.now }
    requires path { path < length instance.now.paths }
    requires ones { ones.now ≡ ones_by_path lines.now path }
    ensures { IfOk result (IsRowsOf instance.now lines.now path) }
{
    let count = count_of(instance, path);
    let table = rows_by_choice(alloc, lines, ones, count as usize)?;
    Ok(table)
}

fn lines_by_path(
    alloc: Global,
    instance: &Instance,
    lines: &[Line],
) -> Result<Vec<Items<u32>>, NoMemory>
    requires lines { All (IsLineOrDelete instance.now) lines.now }
    requires few { length lines.now < 2 ^ 32 }
    ensures { IfOk result (λ table. AreOnesByPath lines.now (length instance.now.paths)
        table.items) }
{
    let mut table = empty_rows(alloc, instance.paths.len())?;
    add_lines(table.as_mut_slice(), instance, lines)?;
    Ok(table)
}

/// By path and choice, the positions of the lines that have this literal alone.
pub(crate) fn ones_table(
    alloc: Global,
    instance: &Instance,
    lines: &[Line],
) -> Result<Items<Items<Items<u32>>>, NoMemory>
    requires instance { IsInstance instance.now }
    requires lines { All (IsLineOrDelete instance.now) lines.now }
    requires few { length lines.now < 2 ^ 32 }
    ensures { IfOk result (IsOnes instance.now lines.now) }
{
    let by_path = lines_by_path(alloc, instance, lines)?;
    let mut table = Vec::new(alloc);
    for path in 0..instance.paths.len() {
        let ones = by_path[path].as_slice();
        table.push(rows_of_path(alloc, instance, lines, ones, path as u16)?)?;
    }
    Ok(Items::from_vec(table))
}
