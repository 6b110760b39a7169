ghost use Rattle.std.specs.Prelude.{◌≡◌, ◌+◌, ◌<◌, ◌≤◌, [], length, slice_index_or, IfOk, OnOk};
ghost use Rattle.fapp_model.specs.declared.level.TheConstants.{MAX_LEVELS};
ghost use Rattle.fapp_model.specs.search.Partials.{literal};
ghost use Rattle.arc_levels.specs.Heights.{arc_of, height_at};
ghost use Rattle.arc_levels.specs.Removals.{IsLineAt, IsRemoval};

use crate::heights::Heights;
use cert_lines::{Line, Rule};
use fapp_model::{Items, Literal, MAX_LEVELS, NoMemory, Triple, tag_of};
use std::alloc::Global;

/// The choices that were removed from the arcs: heights of all choices, and a line for each removed
/// one in the order of removal.
#[derive(Debug, Drop)]
pub struct Removals {
    pub rows: Vec<Heights>,
    pub lines: Items<Line>,
}

/// The line of a choice alone at (`number`, 0, 0).
fn line_at(alloc: Global, number: u32, path: u16, choice: u16) -> Result<Line, NoMemory>
    requires { number ≤ MAX_LEVELS + 1 }
    ensures { IfOk result (IsLineAt (literal path choice) number) }
{
    let literal = Literal { path, choice };
    Ok(Line {
        tag: tag_of(Triple {
            k: number,
            v: 0,
            s: 0,
        }),
        lits: Items::from_vec(vec![in alloc; literal]?),
        rule: Rule::Count {
            cites: Items::new(alloc),
        },
    })
}

impl Removals {
    /// A choice's height.
    pub fn height(&self, path: u16, choice: u16) -> u8
        requires path { path < length self.now.rows.items }
        requires choice { choice < length (slice_index_or self.now.rows.items path []) }
        ensures { result ≡ height_at self.now.rows.items path choice }
    {
        self.rows[path as usize].get(choice as usize)
    }

    /// Whether a choice is within the arcs of a level, as far as they are known.
    pub fn is_in(&self, level: u32, path: u16, choice: u16) -> bool
        requires path { path < length self.now.rows.items }
        requires choice { choice < length (slice_index_or self.now.rows.items path []) }
        ensures { result ≡ arc_of self.now.rows.items level (literal path choice) }
    {
        u32::from(self.height(path, choice)) <= level
    }

    /// Removes a choice at a level.
    pub fn remove(
        &mut self,
        alloc: Global,
        level: u32,
        path: u16,
        choice: u16,
    ) -> Result<(), NoMemory>
        requires path { path < length self.old.rows.items }
        requires choice { choice < length (slice_index_or self.old.rows.items path []) }
        requires level { level ≤ MAX_LEVELS }
        ensures { OnOk result (IsRemoval level (literal path choice) self.old.rows.items
            self.new.rows.items
            self.old.lines self.new.lines) }
    {
        let line = line_at(alloc, level + 1, path, choice)?;
        self.lines.push(line)?;
        self.rows[path as usize].set(choice as usize, level as u8 + 1);
        Ok(())
    }
}
