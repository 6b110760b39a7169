//! The index of an answer and its instance.

ghost use Rattle.std.specs.Prelude.{◌≤◌, length, IfOk};
ghost use Rattle.fapp_model.specs.Instances.{IsInstance};
ghost use Rattle.cert_lines.specs.WellFormed.{IsWellFormed};
ghost use Rattle.cert_check.specs.Marked.{IsMarks};

use crate::deleters::deleters_of;
use crate::ones::ones_table;
use crate::tables::places_table;
use cert_lines::Answer;
use fapp_model::{Instance, Items, MAX_NUMBER, NoMemory};
use std::alloc::Global;

/// An index of an answer's lines and of its instance's records, made once for all lines. It is only
/// read, so that several may judge lines by it side by side.
#[derive(Debug, Drop)]
pub struct Marks {
    /// By path and choice, the positions of the lines that have this literal alone.
    pub ones: Items<Items<Items<u32>>>,
    /// By line, the position of the first line that deletes it, or the number of the lines.
    pub deleters: Items<u32>,
    /// By path, the positions of the records that name it.
    pub places: Items<Items<u32>>,
}

impl Marks {
    /// The index of an answer and its instance.
    pub fn new(alloc: Global, instance: &Instance, answer: &Answer) -> Result<Marks, NoMemory>
        requires instance { IsInstance instance.now }
        requires answer { IsWellFormed instance.now answer.now }
        requires few { length answer.now.lines ≤ MAX_NUMBER }
        ensures { IfOk result (IsMarks instance.now answer.now.lines) }
    {
        let ones = ones_table(alloc, instance, answer.lines.as_slice())?;
        let deleters = deleters_of(alloc, answer.lines.as_slice())?;
        let places = places_table(alloc, instance)?;
        Ok(Marks {
            ones,
            deleters,
            places,
        })
    }
}
