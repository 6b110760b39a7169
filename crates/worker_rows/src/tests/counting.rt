//! A gate that counts.

use fapp_gate::Gate;
use std::sync::atomic::{AtomicU64, Ordering};

/// Counts how often each of the first twelve jobs was entered and left, in five bits a job.
#[derive(Drop)]
pub struct CountingGate {
    entered: AtomicU64,
    left: AtomicU64,
}

/// One for a job, in its own bits.
fn one_for(job: u32) -> u64 {
    if job < 12 { 1 << (5 * job) } else { 1 << 60 }
}

impl CountingGate {
    pub fn new() -> CountingGate {
        CountingGate {
            entered: AtomicU64::new(0),
            left: AtomicU64::new(0),
        }
    }

    /// The counts of the jobs that were entered, and of those that were left.
    pub fn counts(&self) -> (u64, u64) {
        (
            self.entered.load(Ordering::SeqCst),
            self.left.load(Ordering::SeqCst),
        )
    }
}

impl Gate for CountingGate {
    fn enter(&self, job: u32) {
        self.entered.fetch_add(one_for(job), Ordering::SeqCst);
    }

    fn leave(&self, job: u32) {
        self.left.fetch_add(one_for(job), Ordering::SeqCst);
    }
}
