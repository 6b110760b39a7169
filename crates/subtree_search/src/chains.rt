// Numbers by slots.
use std::alloc::Global;

/// The numbers 0, 1, 2 and so on, each noted with a slot, to be gone through slot by slot from the
/// newest on. It is a hint: what stands in it is in no contract.
#[derive(Drop)]
pub struct Chains {
    alloc: Global,
    slots: usize,
    /// For each slot, one more than the number noted last with it; 0 where there is none. Room for
    /// them is made when the first number is noted.
    heads: Vec<u32>,
    /// For each number, the same of the number that was noted before it with its slot.
    before: Vec<u32>,
}

impl Chains {
    /// No number, and so many slots.
    pub fn new(alloc: Global, slots: usize) -> Chains {
        Chains {
            alloc,
            slots,
            heads: Vec::new(alloc),
            before: Vec::new(alloc),
        }
    }

    /// Makes room for the slots where there is none. Whether there is room then.
    fn has_slots(&mut self) -> bool {
        if !self.heads.is_empty() {
            return true;
        }
        match vec![in self.alloc; 0; self.slots] {
            Ok(heads) => {
                self.heads = heads;
                true
            }
            Err(_) => false,
        }
    }

    /// Notes a number with a slot, where all numbers before it were noted and there is room.
    pub fn note(&mut self, number: u32, slot: usize) {
        if !self.has_slots() {
            return;
        }
        if self.before.len() != number as usize {
            return;
        }
        let head = link_at(&self.heads, slot);
        if self.before.push(head).is_err() {
            return;
        }
        if slot < self.heads.len() {
            self.heads[slot] = number.saturating_add(1);
        }
    }

    /// The number noted last with a slot.
    pub fn newest(&self, slot: usize) -> Option<u32> {
        link_at(&self.heads, slot).checked_sub(1)
    }

    /// The number that was noted before this one with its slot.
    pub fn older(&self, number: u32) -> Option<u32> {
        link_at(&self.before, number as usize).checked_sub(1)
    }
}

/// What stands at a place, 0 where nothing does.
fn link_at(links: &[u32], place: usize) -> u32 {
    links.get(place).copied().unwrap_or(0)
}
