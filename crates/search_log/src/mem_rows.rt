ghost use Rattle.std.specs.Prelude.{◌≡◌, ◌↔◌, ◌≤◌, ◌^◌, All, IsTrue, false, [], length};
ghost use Rattle.fapp_model.specs.declared.instance.Instance.{Instance};
ghost use Rattle.search_log.specs.Shares.{FitsPart, IsCiteOf, IsOffer, IsServedContent, LooksUp, OffersRow, row_content};
ghost use Rattle.search_log.specs.NumberedRows.{IsFitting, numbered_rows};

use crate::shared::{Cite, Shared};
use fapp_model::{Items, Literal, Tag};
use nogood::{Partial, Published, Row};
use std::marker::Model;

/// Rows that were stated, numbered from 0 in their order. Contracts see the list.
#[derive(Debug, Drop)]
pub struct MemRows {
    rows: Items<Row>,
    ghost few: { length rows ≤ 2 ^ 32 },
}

impl Model for MemRows {
    ghost use Rattle.std.specs.Prelude.{List};
    ghost use Rattle.nogood.specs.declared.row.Row.{Row};

    ghost Value = { List Row };

    ghost view = { λ shared. shared.rows };
}

impl MemRows {
    /// These rows, at most 2^32 of them.
    pub fn new(rows: Vec<Row>) -> MemRows
        requires { length rows.items ≤ 2 ^ 32 }
        ensures { result ≡ rows.items }
    {
        MemRows {
            rows: Items::from_vec(rows),
        }
    }
}

impl Shared for MemRows {
    ghost use Rattle.std.specs.Prelude.{List};
    ghost use Rattle.search_log.specs.NumberedRows.{numbered-one};

    ghost state = { λ shared. record {
      copied = numbered_rows shared;
      published = [];
      takes = false;
      refusals = 0;
    } };

    ghost serves = { λ shared instance. All (λ row. IsServedContent instance (row_content row))
        shared };

    ghost since = { λ _ _. Unit {0} };

    fn lookup(&mut self, part: &Partial, target: Tag) -> Option<Cite>
        ensures looks { LooksUp (⟦<MemRows as Shared>⟧.state self.old)
            (⟦<MemRows as Shared>⟧.state self.new) part.now target.code result }
        ensures serves { (instance : Instance) →
            ⟦<MemRows as Shared>⟧.serves self.old instance
            ↔ ⟦<MemRows as Shared>⟧.serves self.new instance }
        ensures implied { (instance : Instance) → ⟦<MemRows as Shared>⟧.serves self.old instance →
            IsCiteOf instance result }
        ensures since { (was : List Row) → ⟦<MemRows as Shared>⟧.since was self.old →
            ⟦<MemRows as Shared>⟧.since was self.new }
        ensures held { self.new ≡ self.old }
    {
        let rows = self.rows.as_slice();
        match first_fitting(rows, part, target) {
            Some(place) => Some(Cite {
                row: place as u32,
                content: rows[place],
            }),
            None => None,
        }
    }

    fn offer(&mut self, lits: &[Literal], tag: Tag) -> Published
        requires { (instance : Instance) × ⟦<MemRows as Shared>⟧.serves self.old instance
            × IsOffer instance lits.now tag.code }
        ensures offered { OffersRow (⟦<MemRows as Shared>⟧.state self.old)
            (⟦<MemRows as Shared>⟧.state self.new) lits.now tag.code result }
        ensures serves { (instance : Instance) →
            ⟦<MemRows as Shared>⟧.serves self.old instance
            ↔ ⟦<MemRows as Shared>⟧.serves self.new instance }
        ensures since { (was : List Row) → ⟦<MemRows as Shared>⟧.since was self.old →
            ⟦<MemRows as Shared>⟧.since was self.new }
        ensures held { self.new ≡ self.old }
    {
        if lits.len() > 8 {
            Published::TooLong
        } else {
            Published::Full(self.rows.len() as u64)
        }
    }

    ghost one_content = { λ shared. numbered-one shared };
}

/// The place of the first row that fits.
fn first_fitting(rows: &[Row], part: &Partial, target: Tag) -> Option<usize>
    ensures { IsFitting rows.now part.now target.code result }
{
    for (place, row) in rows.iter().enumerate() {
        if fits(row, part, target) {
            return Some(place);
        }
    }
    None
}

/// Whether the part has the row's literals, and the row's tag is at least the target.
pub fn fits(row: &Row, part: &Partial, target: Tag) -> bool
    ensures { IsTrue result ↔ FitsPart part.now target.code (row_content row.now) }
{
    row.tag >= target
        && row
            .literals()
            .iter()
            .all(|lit| part.get(lit.path) == Some(lit.choice))
}
