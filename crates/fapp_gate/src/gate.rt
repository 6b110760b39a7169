//! What a worker passes.

use std::sync::atomic::{AtomicBool, Ordering};
use std::thread;

/// What a worker passes before and after each job. Both calls return, and nothing of an answer
/// depends on them.
pub trait Gate: Sync {
    /// Called before a job.
    fn enter(&self, job: u32);

    /// Called after a job.
    fn leave(&self, job: u32);
}

/// A gate that holds nobody.
#[derive(Clone, Copy, Debug)]
pub struct OpenGate;

impl Gate for OpenGate {
    fn enter(&self, _job: u32) {}

    fn leave(&self, _job: u32) {}
}

/// Waits until the flag is set, for so many turns at most, each a look and a yield. Answers whether
/// it was.
pub(crate) fn waits_for(flag: &AtomicBool, turns: u64) -> bool {
    for _ in 0..turns {
        if flag.load(Ordering::SeqCst) {
            return true;
        }
        thread::yield_now();
    }
    flag.load(Ordering::SeqCst)
}
