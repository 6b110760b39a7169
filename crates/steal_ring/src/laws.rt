ghost use Rattle.std.specs.Prelude.{ℕ};
ghost use Rattle.steal_ring.specs.Jobs.{IsRing, Words};
ghost use Rattle.steal_ring.specs.Seats.{NoneTwice};

/// Between any two steps, of however many seats in whatever order, no job was won twice.
pub fn won_once()
    ensures { (jobs : ℕ) (s : Words) → IsRing jobs s → NoneTwice s }
{}
