use crate::{Gate, HoldGate, OpenGate, OrderGate};
use std::sync::atomic::{AtomicU64, Ordering};
use std::thread::join;

const TURNS: u64 = 200_000_000;

fn pass<G: Gate>(gate: &G, job: u32) {
    gate.enter(job);
    gate.leave(job);
}

/// Passes the gate, and notes the job between its two calls behind those that were noted before.
fn pass_noting<G: Gate>(gate: &G, job: u32, noted: &AtomicU64) {
    gate.enter(job);
    let before = noted.load(Ordering::SeqCst);
    noted.store(
        before.wrapping_mul(10).wrapping_add(u64::from(job)),
        Ordering::SeqCst,
    );
    gate.leave(job);
}

#[test]
fn two_threads_meet(rt: HostRuntime) {
    let gate = HoldGate::new(0, 1, TURNS);
    join(&rt, || pass(&gate, 0), || pass(&gate, 1));
    assert!(rt; !gate.missed());
}

#[test]
fn one_thread_misses(rt: HostRuntime) {
    for job in [0, 1] {
        let hold = HoldGate::new(0, 1, 100);
        pass(&hold, 2);
        assert!(rt; !hold.missed());
        pass(&hold, job);
        assert!(rt; hold.missed());
        let order = OrderGate::new(0, 1, 100);
        pass(&order, 2);
        assert!(rt; !order.missed());
        pass(&order, job);
        assert!(rt; order.missed());
    }
    pass(&OpenGate, 0);
}

#[test]
fn the_first_job_passes_before_the_second(rt: HostRuntime) {
    let gate = OrderGate::new(7, 3, TURNS);
    let noted = AtomicU64::new(0);
    join(
        &rt,
        || pass_noting(&gate, 3, &noted),
        || pass_noting(&gate, 7, &noted),
    );
    assert!(rt; !gate.missed());
    assert_eq!(rt; noted.load(Ordering::SeqCst), 73);
}
