// The rows that settled prefixes of the search, to be found again by their numbers.
ghost use Rattle.std.specs.Prelude.{◌≡◌, ◌⊎◌, ◌∷◌, ◌++◌, [], Contains, IfSome};
ghost use Rattle.subtree_search.specs.Recalling.{IsSeen};

use crate::chains::Chains;
use search_log::Cite;
use std::alloc::Global;

/// At most so many rows of a slot are looked at.
const LOOKS: u32 = 64;

/// How many slots the rows' numbers are spread over.
const SLOTS: usize = 1_024;

/// Rows that look-ups gave, with their contents. Which ones are found is a hint: one that is found
/// has the number.
#[derive(Drop)]
pub struct SeenRows {
    pub cites: Vec<Cite>,
    chains: Chains,
}

impl SeenRows {
    /// No row.
    pub fn new(alloc: Global) -> SeenRows
        ensures { result.cites.items ≡ [] }
    {
        SeenRows {
            cites: Vec::new(alloc),
            chains: Chains::new(alloc, SLOTS),
        }
    }

    /// Notes a row that a look-up gave, where it isn't found and there is room.
    pub fn note(&mut self, cite: Cite)
        ensures { (self.new.cites.items ≡ self.old.cites.items)
            ⊎ (self.new.cites.items ≡ self.old.cites.items ++ cite ∷ []) }
    {
        if self.find(cite.row).is_some() {
            return;
        }
        let Ok(place) = u32::try_from(self.cites.len()) else {
            return;
        };
        if self.cites.push(cite).is_err() {
            return;
        }
        self.chains.note(place, slot_of(cite.row));
    }

    /// The row of a number.
    pub fn find(&self, row: u32) -> Option<Cite>
        ensures { IfSome result (IsSeen self.now.cites.items row) }
    {
        let mut next = self.chains.newest(slot_of(row));
        for _ in 0..LOOKS {
            let Some(place) = next else {
                return None;
            };
            let cite = self.at(place, row);
            if cite.is_some() {
                return cite;
            }
            next = self.chains.older(place);
        }
        None
    }

    /// The row at a place, where it has the number.
    fn at(&self, place: u32, row: u32) -> Option<Cite>
        ensures { IfSome result (IsSeen self.now.cites.items row) }
    {
        match self.cites.get(place as usize) {
            Some(cite) => { if cite.row == row { Some(*cite) } else { None } }
            None => None,
        }
    }
}

/// The slot of a row's number.
fn slot_of(row: u32) -> usize {
    row as usize % SLOTS
}
