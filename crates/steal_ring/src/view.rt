// What a seat knows of the jobs.
use atomic_table::TableRule;
use std::collections::LinkedList;

/// What a seat knows of the ring. Contracts speak of it; no value of it is made.
pub struct RingView {
    /// The seat was joined into another.
    pub spent: bool,
    /// Its part of the whole share.
    pub share: u64,
    /// The jobs whose words it swapped, in order.
    pub found: LinkedList<u64>,
    /// The jobs whose words were 0 at that swap, in order.
    pub won: LinkedList<u64>,
}

/// Each job is won once. The key is the number of jobs.
pub struct RingRule;

impl TableRule<(), RingView, u64> for RingRule {
    ghost use Rattle.steal_ring.specs.Jobs.{IsRing, first_view};

    ghost holds = { IsRing };

    ghost first = { λ _. first_view };
}
