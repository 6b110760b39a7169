// The lines of the job's search, to be found again by one of their literals.
ghost use Rattle.std.specs.Prelude.{◌≡◌, ◌≤◌, ◌∷◌, ◌++◌, [], Contains, IsTrue, IfOk, IfSome};
ghost use Rattle.fapp_model.specs.search.Partials.{HasAll, literal};
ghost use Rattle.subtree_search.specs.Recalling.{IsRecalled, SaysOf};

use crate::chains::Chains;
use fapp_model::{Literal, Tag};
use forward_count::Forward;
use search_log::Log;
use std::alloc::Global;

/// At most so many lines are looked at for a literal.
const LOOKS: u32 = 16;

/// How many slots literals are spread over.
const SLOTS: usize = 32_768;

/// Where lines stand, by the literal that each was noted with. Which ones are found is a hint: a
/// line that is found was looked at.
#[derive(Drop)]
pub struct Recall {
    /// Where the lines of the search begin in the log.
    pub first: u32,
    /// The lines, counted from the first one.
    chains: Chains,
}

impl Recall {
    /// No line. The search's lines begin at that place.
    pub fn new(alloc: Global, first: u32) -> Recall
        ensures { result.first ≡ first }
    {
        Recall {
            first,
            chains: Chains::new(alloc, SLOTS),
        }
    }

    /// Notes the line at a place with a literal. Lines are noted in their order.
    pub fn note(&mut self, place: u32, literal: Literal)
        ensures { self.new.first ≡ self.old.first }
    {
        let index = place.saturating_sub(self.first);
        self.chains.note(index, slot_of(literal));
    }

    /// A line of the search with at least this tag, and with no literals but those that are pushed
    /// and this one.
    pub fn find(&self, log: &Log, forward: &Forward, tag: Tag, a: Literal) -> Option<u32>
        ensures { IfSome result (λ place.
            IsRecalled log.now.lines self.now.first tag.code (forward.now.pushed ++ a ∷ []) place) }
    {
        let mut next = self.chains.newest(slot_of(a));
        for _ in 0..LOOKS {
            let Some(index) = next else {
                return None;
            };
            let place = self.first.saturating_add(index);
            if says_of(log, place, tag, forward, a) {
                return Some(place);
            }
            next = self.chains.older(index);
        }
        None
    }
}

/// The slot of a literal.
fn slot_of(a: Literal) -> usize {
    (a.path as usize * 613 + a.choice as usize) % SLOTS
}

/// Whether a line stands at a place that has at least this tag, and no literals but those that are
/// pushed and this one.
fn says_of(log: &Log, place: u32, tag: Tag, forward: &Forward, a: Literal) -> bool
    ensures { IsTrue result → SaysOf log.now.lines tag.code (forward.now.pushed ++ a ∷ []) place }
{
    match log.lines().get(place as usize) {
        Some(line) => {
            if line.tag.code < tag.code {
                return false;
            }
            are_within(line.lits.as_slice(), forward, a)
        }
        None => false,
    }
}

/// Whether each literal is pushed or this one.
fn are_within(literals: &[Literal], forward: &Forward, a: Literal) -> bool
    ensures { IsTrue result → HasAll (forward.now.pushed ++ a ∷ []) literals.now }
{
    for literal in literals {
        if !is_within(*literal, forward, a) {
            return false;
        }
    }
    true
}

/// Whether a literal is pushed or this one.
fn is_within(literal: Literal, forward: &Forward, a: Literal) -> bool
    ensures { IsTrue result → Contains (forward.now.pushed ++ a ∷ []) literal }
{
    if literal.path == a.path {
        return literal.choice == a.choice;
    }
    forward.partial().get(literal.path) == Some(literal.choice)
}
