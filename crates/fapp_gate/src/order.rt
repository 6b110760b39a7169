//! A gate that one job passes before another.

use crate::gate::{Gate, waits_for};
use std::sync::atomic::{AtomicBool, Ordering};

/// Holds the first of two jobs until the second was entered, and the second until the first was
/// left, each for so many turns at most. A job was entered once `enter` was called with it, and
/// left once `leave` was.
#[derive(Drop)]
pub struct OrderGate {
    a: u32,
    b: u32,
    turns: u64,
    entered_b: AtomicBool,
    left_a: AtomicBool,
    missed: AtomicBool,
}

impl OrderGate {
    /// A gate that the job `a` passes before the job `b`.
    pub fn new(a: u32, b: u32, turns: u64) -> OrderGate {
        OrderGate {
            a,
            b,
            turns,
            entered_b: AtomicBool::new(false),
            left_a: AtomicBool::new(false),
            missed: AtomicBool::new(false),
        }
    }

    /// Whether one of the two jobs ran out of turns.
    pub fn missed(&self) -> bool {
        self.missed.load(Ordering::SeqCst)
    }

    fn hold(&self, until: &AtomicBool) {
        if !waits_for(until, self.turns) {
            self.missed.store(true, Ordering::SeqCst);
        }
    }
}

impl Gate for OrderGate {
    fn enter(&self, job: u32) {
        if job == self.b {
            self.entered_b.store(true, Ordering::SeqCst);
        }
        if job == self.a {
            self.hold(&self.entered_b);
        }
        if job == self.b {
            self.hold(&self.left_a);
        }
    }

    fn leave(&self, job: u32) {
        if job == self.a {
            self.left_a.store(true, Ordering::SeqCst);
        }
    }
}
