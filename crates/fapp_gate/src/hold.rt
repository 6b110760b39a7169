//! A gate that two jobs pass together.

use crate::gate::{Gate, waits_for};
use std::sync::atomic::{AtomicBool, Ordering};

/// Holds each of two jobs until the other was entered, for so many turns at most. A job was entered
/// once `enter` was called with it, whether that call has returned or not.
#[derive(Drop)]
pub struct HoldGate {
    a: u32,
    b: u32,
    turns: u64,
    entered_a: AtomicBool,
    entered_b: AtomicBool,
    missed: AtomicBool,
}

impl HoldGate {
    /// A gate for the jobs `a` and `b`.
    pub fn new(a: u32, b: u32, turns: u64) -> HoldGate {
        HoldGate {
            a,
            b,
            turns,
            entered_a: AtomicBool::new(false),
            entered_b: AtomicBool::new(false),
            missed: AtomicBool::new(false),
        }
    }

    /// Whether one of the two jobs ran out of turns.
    pub fn missed(&self) -> bool {
        self.missed.load(Ordering::SeqCst)
    }

    fn hold(&self, until: &AtomicBool) {
        if !waits_for(until, self.turns) {
            self.missed.store(true, Ordering::SeqCst);
        }
    }
}

impl Gate for HoldGate {
    fn enter(&self, job: u32) {
        if job == self.a {
            self.entered_a.store(true, Ordering::SeqCst);
        }
        if job == self.b {
            self.entered_b.store(true, Ordering::SeqCst);
        }
        if job == self.a {
            self.hold(&self.entered_b);
        }
        if job == self.b {
            self.hold(&self.entered_a);
        }
    }

    fn leave(&self, _job: u32) {}
}
