// A hand: a seat with its place in its own list and in its neighbour's.
ghost use Rattle.std.specs.Prelude.{◌≡◌, ◌≢◌, ℕ, ◌+◌, ◌*◌, ◌<◌, ◌≤◌, vec_len};
ghost use Rattle.std.specs.Vec.{vec_capacity};
ghost use Rattle.steal_ring.specs.Lists.{is_between, one_if};
ghost use Rattle.steal_ring.specs.Jobs.{times};
ghost use Rattle.steal_ring.specs.Seats.{view_of};

use crate::seat::RingSeat;

/// A worker's right to take jobs. It is given only to calls of the ring that it was made from.
#[derive(Drop)]
pub struct Hand {
    pub(crate) seat: RingSeat,
    pub(crate) number: u32,
    pub(crate) neighbour: u32,
    pub(crate) workers: u32,
    pub(crate) jobs: u32,
    pub(crate) own: u32,
    pub(crate) other: u32,
    pub(crate) taken: Vec<u32>,
    ghost places: { (number < workers) × (own ≤ jobs) × (other ≤ jobs) },
    ghost apart: { number ≢ neighbour },
    ghost listed: { taken.items ≡ (view_of seat).won },
    ghost swapped: { (job : ℕ) → times job (view_of seat).found
        ≡ one_if (is_between workers number 0 own job)
        + one_if (is_between workers neighbour 0 other job) },
    ghost won: { (job : ℕ) → times job (view_of seat).won ≤ times job (view_of seat).found },
    ghost room: { (vec_len taken ≤ own + other) × (2 * jobs ≤ vec_capacity taken) },
}
