// A ring with its hands.
ghost use Rattle.std.specs.Prelude.{◌≡◌, ℕ, ◌*◌, ◌<◌, ◌≤◌, [], length, All, IfOk};
ghost use Rattle.seat_laws.specs.declared.TheConstants.{WHOLE_SHARE};
ghost use Rattle.steal_ring.specs.Jobs.{times};
ghost use Rattle.steal_ring.specs.Lists.{neighbour_of};
ghost use Rattle.steal_ring.specs.Seats.{view_of};
ghost use Rattle.steal_ring.specs.Hands.{won_of, found_of, share_of_hand, shares_of, IsHandOf, IsListed, IsDealt};

use crate::hand::Hand;
use crate::seat::{Ring, RingSeat};
use std::alloc::{AllocError as NoMemory, Global};

/// The most hands of a ring.
pub const MAX_WORKERS: u32 = 32;

impl Hand {
    /// The hand of a seat that has found nothing. A single hand has no neighbour: no job stands in
    /// the list of the number that is kept for it.
    fn begin(
        alloc: Global,
        seat: RingSeat,
        number: u32,
        workers: u32,
        jobs: u32,
    ) -> Result<Hand, NoMemory>
        requires seat { ((view_of seat).found ≡ []) × ((view_of seat).won ≡ []) }
        requires number { (number < workers) × (workers ≤ MAX_WORKERS) }
        ensures { IfOk result (λ hand. (hand.seat ≡ seat) × (hand.number ≡ number)
            × (hand.workers ≡ workers) × (hand.jobs ≡ jobs)
            × (hand.neighbour ≡ neighbour_of workers number)) }
    {
        let taken = Vec::with_capacity(alloc, 2 * jobs as usize)?;
        let neighbour = if workers == 1 {
            1
        } else {
            (number + 1) % workers
        };
        Ok(Hand {
            seat,
            number,
            neighbour,
            workers,
            jobs,
            own: 0,
            other: 0,
            taken,
        })
    }

    /// The hand's number, below the number of workers.
    pub fn number(&self) -> u32
        ensures number { result ≡ self.now.number }
        ensures small { result < self.now.workers }
    {
        self.number
    }

    /// Its part of the whole share, at least 1.
    pub fn share(&self) -> u64
        ensures { result ≡ share_of_hand self.now }
    {
        self.seat.share()
    }

    /// The jobs that it was given, in order. They are distinct, and stand in its own list or its
    /// neighbour's.
    pub fn taken(&self) -> &[u32]
        ensures taken { result.now ≡ won_of self.now }
        ensures distinct { (job : ℕ) → times job result.now ≤ 1 }
        ensures listed { (job : ℕ) → 0 < times job result.now → (job < self.now.jobs)
            × IsListed self.now job }
    {
        self.taken.as_slice()
    }
}

impl Ring {
    /// So many free jobs, numbered from 0, and a hand for each worker, by number. Job `id` stands
    /// in the list of hand `id % workers`. The neighbour of a hand is the next one, and that of the
    /// last is the first. All memory is taken here.
    pub fn new(alloc: Global, jobs: u32, workers: u32) -> Result<(Ring, Vec<Hand>), NoMemory>
        requires jobs { 0 < jobs }
        requires workers { (0 < workers) × (workers ≤ MAX_WORKERS) }
        ensures jobs { IfOk result (λ made. made.0.jobs ≡ jobs) }
        ensures workers { IfOk result (λ made. length made.1.items ≡ workers) }
        ensures hands { IfOk result (λ made. All (IsHandOf made.0) made.1.items
            × IsDealt jobs made.1.items) }
        ensures neighbours { IfOk result (λ made.
            All (λ hand. hand.neighbour ≡ neighbour_of hand.workers hand.number) made.1.items) }
        ensures new { IfOk result (λ made.
            All (λ hand. (won_of hand ≡ []) × (found_of hand ≡ [])) made.1.items) }
        ensures parts { IfOk result (λ made. All (λ hand. 1 ≤ share_of_hand hand) made.1.items) }
        ensures shares { IfOk result (λ made. shares_of made.1.items ≡ WHOLE_SHARE) }
    {
        let (ring, mut seat) = Ring::free(alloc, jobs)?;
        let mut hands = Vec::with_capacity(alloc, workers as usize)?;
        for number in 0..workers - 1 {
            let given = ring.split(&mut seat);
            hands.push_reserved(Hand::begin(alloc, given, number, workers, jobs)?);
        }
        hands.push_reserved(Hand::begin(alloc, seat, workers - 1, workers, jobs)?);
        Ok((ring, hands))
    }
}
