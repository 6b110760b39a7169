// The end of a ring whose hands come back.
ghost use Rattle.std.specs.Prelude.{◌≡◌, ℕ, ◌<◌, All};
ghost use Rattle.seat_laws.specs.declared.TheConstants.{WHOLE_SHARE};
ghost use Rattle.steal_ring.specs.Jobs.{after_join};
ghost use Rattle.steal_ring.specs.Seats.{view_of, IsSeatOf, IsSameSeat};
ghost use Rattle.steal_ring.specs.Hands.{shares_of, times_given, IsHandOf, IsHandDone, IsDealt};

use crate::hand::Hand;
use crate::seat::{Ring, RingSeat};

impl Hand {
    fn into_seat(self) -> RingSeat
        ensures { result ≡ self.seat }
    {
        let Hand { seat, .. } = self;
        seat
    }
}

impl Ring {
    /// Takes in a hand's share and what it knows.
    fn join_hand(&self, seat: &mut RingSeat, hand: Hand)
        requires own { IsSeatOf self.now seat.old }
        requires hand { IsHandOf self.now hand }
        ensures same { IsSameSeat seat.old seat.new }
        ensures view { view_of seat.new ≡ after_join (view_of seat.old) (view_of hand.seat) }
    {
        self.join(seat, hand.into_seat());
    }

    /// The end: each job was given to exactly one hand, once. All hands come back, by number, and
    /// each was answered None last.
    pub fn close(self, hands: Vec<Hand>)
        requires own { All (IsHandOf self) hands.items }
        requires shares { shares_of hands.items ≡ WHOLE_SHARE }
        requires dealt { IsDealt self.jobs hands.items }
        requires done { All IsHandDone hands.items }
        ensures { (job : ℕ) → job < self.jobs → times_given job hands.items ≡ 1 }
    {
        let mut hands = hands;
        let Some(first) = hands.pop() else {
            unreachable!()
        };
        let mut all = first.into_seat();
        while let Some(hand) = hands.pop() {
            self.join_hand(&mut all, hand);
        }
        self.end(all);
    }
}
