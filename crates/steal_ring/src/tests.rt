ghost use Rattle.std.specs.Prelude.{◌<◌, ◌≤◌};
ghost use Rattle.steal_ring.specs.Hands.{IsHandOf};

use super::*;
use std::alloc::{AllocError as NoMemory, Global};
use std::thread;
use std::thread::Threads;

#[test]
fn own_list_and_then_the_neighbours(rt: HostRuntime) -> Result<(), NoMemory> {
    let (ring, mut hands) = Ring::new(rt.alloc(), 3, 2)?;
    let second = hands.pop();
    let first = hands.pop();
    let (Some(mut first), Some(mut second)) = (first, second) else {
        panic!(rt; "two workers have two hands");
    };
    assert_eq!(rt; first.number(), 0);
    assert_eq!(rt; first.share() + second.share(), 1 << 32);
    assert_eq!(rt; ring.next(&mut first), Some(0));
    assert_eq!(rt; ring.next(&mut first), Some(2));
    assert_eq!(rt; ring.next(&mut first), Some(1));
    assert_eq!(rt; ring.next(&mut first), None);
    assert_eq!(rt; ring.next(&mut second), None);
    assert_eq!(rt; first.taken(), [0, 2, 1].as_slice());
    Ok(())
}

#[test]
fn three_hands_in_a_ring(rt: HostRuntime) -> Result<(), NoMemory> {
    let (ring, mut hands) = Ring::new(rt.alloc(), 7, 3)?;
    let third = hands.pop();
    let second = hands.pop();
    let (Some(second), Some(third)) = (second, third) else {
        panic!(rt; "three workers have three hands");
    };
    let third = take_all(&ring, third);
    assert_eq!(rt; third.taken(), [2, 5, 0, 3, 6].as_slice());
    let second = take_all(&ring, second);
    assert_eq!(rt; second.taken(), [1, 4].as_slice());
    Ok(())
}

/// Takes jobs until none is left.
fn take_all(ring: &Ring, mut hand: Hand) -> Hand
    requires { IsHandOf ring.now hand }
    ensures { IsHandOf ring.now result }
{
    for _ in 0..100 {
        if ring.next(&mut hand).is_none() {
            break;
        }
    }
    hand
}

/// How often each of 24 jobs was given, by so many hands in threads of their own.
fn times_given<R: Threads + Sync>(rt: &R, alloc: Global, workers: u32) -> Result<Vec<u32>, NoMemory>
    requires { (0 < workers) × (workers ≤ 32) }
{
    let (ring, hands) = Ring::new(alloc, 24, workers)?;
    let ring = &ring;
    let hands = thread::map_vec(
        rt,
        hands,
        &|hand: Hand| -> Hand
            requires { IsHandOf ring.now hand }
            ensures { IsHandOf ring.entry.now result }
        { take_all(ring, hand) },
    )?;
    let mut times = vec![in alloc; 0u32; 24]?;
    for hand in &hands {
        for job in hand.taken() {
            if let Some(count) = times.get_mut(*job as usize) {
                *count = count.saturating_add(1);
            }
        }
    }
    Ok(times)
}

#[test]
fn each_job_once_by_two_and_by_eight_threads(rt: HostRuntime) -> Result<(), NoMemory> {
    for workers in [1, 2, 8] {
        let times = times_given(&rt, rt.alloc(), workers)?;
        assert_eq!(rt; times.as_slice(), [1; 24].as_slice());
    }
    Ok(())
}
