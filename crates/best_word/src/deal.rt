// A word with a seat for each of its holders, and its end.
ghost use Rattle.std.specs.Prelude.{◌≡◌, ◌<◌, ◌≤◌, length, All, IfOk};
ghost use Rattle.seat_laws.specs.declared.TheConstants.{WHOLE_SHARE};
ghost use Rattle.best_word.specs.Seats.{view_of, shares_of, IsSeatOf, IsNewSeat, IsLeastOfAll};

use crate::seat::{BestSeat, BestWord};
use fapp_model::{MAX_LEVELS, NoMemory, Tag};
use std::alloc::Global;

impl BestWord {
    /// The word for costs of an instance with so many levels, and a seat for each of so many
    /// holders. No seat has offered or found anything. All memory is taken here.
    pub fn with_seats(
        alloc: Global,
        levels: u32,
        holders: u32,
    ) -> Result<(BestWord, Vec<BestSeat>), NoMemory>
        requires levels { (1 ≤ levels) × (levels ≤ MAX_LEVELS) }
        requires holders { (0 < holders) × (holders ≤ 32) }
        ensures count { IfOk result (λ made. length made.1.items ≡ holders) }
        ensures own { IfOk result (λ made. All (IsSeatOf made.0) made.1.items) }
        ensures new { IfOk result (λ made.
            All (λ seat. IsNewSeat levels (view_of seat)) made.1.items) }
        ensures shares { IfOk result (λ made. shares_of made.1.items ≡ WHOLE_SHARE) }
    {
        let (word, mut seat) = BestWord::new(alloc, levels)?;
        let mut seats = Vec::with_capacity(alloc, holders as usize)?;
        for _ in 0..holders - 1 {
            seats.push_reserved(word.split(&mut seat));
        }
        seats.push_reserved(seat);
        Ok((word, seats))
    }

    /// The word at the end, once all seats came back: the least tag that one of them offered, or
    /// the top tag. It is at most all that they read or offered.
    pub fn close_seats(self, seats: Vec<BestSeat>) -> Tag
        requires some { 0 < length seats.items }
        requires own { All (IsSeatOf self) seats.items }
        requires shares { shares_of seats.items ≡ WHOLE_SHARE }
        ensures { IsLeastOfAll seats.items result.code }
    {
        let mut seats = seats;
        let Some(mut all) = seats.pop() else {
            unreachable!()
        };
        while let Some(seat) = seats.pop() {
            self.join(&mut all, seat);
        }
        self.close(all)
    }
}
