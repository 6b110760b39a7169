// How a hand takes jobs.
ghost use Rattle.std.specs.Prelude.{◌≡◌, ◌⊎◌, ℕ, ◌<◌, ◌≤◌, ◌%◌, ◌∷◌, ◌++◌, [], IfNone, IfSome, MatchOption};
ghost use Rattle.steal_ring.specs.Jobs.{times};
ghost use Rattle.steal_ring.specs.Lists.{IsGiven, IsSwapped};
ghost use Rattle.steal_ring.specs.Seats.{view_of, IsSeatOf, IsSameSeat};
ghost use Rattle.steal_ring.specs.Hands.{won_of, found_of, IsHandOf, IsSameHand, IsListed, IsHandDone};

use crate::hand::Hand;
use crate::seat::{Ring, RingSeat};

impl Ring {
    /// Swaps the words of a list's jobs from a place on, up to the first that was free. It answers
    /// the place to go on from, and that job.
    fn advance(&self, seat: &mut RingSeat, workers: u32, list: u32, from: u32) -> (u32, Option<u32>)
        requires own { IsSeatOf self.now seat.old }
        requires place { (0 < workers) × (from ≤ self.now.jobs) }
        ensures same { IsSameSeat seat.old seat.new
            × ((view_of seat.new).share ≡ (view_of seat.old).share) }
        ensures place { (from ≤ result.0) × (result.0 ≤ self.now.jobs) }
        ensures swapped { IsSwapped workers list from result.0 (view_of seat.old).found
            (view_of seat.new).found }
        ensures given { IsGiven self.now.jobs workers list result.1 (view_of seat.old).won
            (view_of seat.new).won }
        ensures further { MatchOption result.1 (result.0 ≡ self.now.jobs) (λ job. (from ≤ job)
            × (job < result.0)) }
    {
        for job in from..self.jobs {
            if job % workers == list && self.take(seat, job) {
                return (job + 1, Some(job));
            }
        }
        (self.jobs, None)
    }

    /// The next job that was free, of the hand's own list, and once that is at its end of its
    /// neighbour's. Each list is gone through in ascending order. A hand swaps the word of a job at
    /// most once, and goes on in each list where its last call stopped. None comes exactly where
    /// each job of both lists was given to this hand before, or was found taken by it.
    pub fn next(&self, hand: &mut Hand) -> Option<u32>
        requires { IsHandOf self.now hand.old }
        ensures same { IsHandOf self.now hand.new × IsSameHand hand.old hand.new }
        ensures some { IfSome result (λ job. (job < self.now.jobs) × IsListed hand.old job
            × (won_of hand.new ≡ won_of hand.old ++ job ∷ [])) }
        ensures grows { (job : ℕ) → times job (found_of hand.old) ≤ times job (found_of hand.new) }
        ensures first { IfSome result (λ job. (job % hand.old.workers ≡ hand.old.number)
            ⊎ ((other : ℕ) → other < self.now.jobs → other % hand.old.workers ≡ hand.old.number →
            0 < times other (found_of hand.new))) }
        ensures order { IfSome result (λ job. (earlier : ℕ) → earlier < job →
            earlier % hand.old.workers ≡ job % hand.old.workers →
            0 < times earlier (found_of hand.new)) }
        ensures once { IfSome result (λ job. times job (found_of hand.old) ≡ 0) }
        ensures none { IfNone result ((won_of hand.new ≡ won_of hand.old) × IsHandDone hand.new) }
    {
        let (own, job) = self.advance(&mut hand.seat, hand.workers, hand.number, hand.own);
        hand.own = own;
        if let Some(job) = job {
            hand.taken.push_reserved(job);
            return Some(job);
        }
        let (other, job) = self.advance(&mut hand.seat, hand.workers, hand.neighbour, hand.other);
        hand.other = other;
        if let Some(job) = job {
            hand.taken.push_reserved(job);
            return Some(job);
        }
        None
    }
}
