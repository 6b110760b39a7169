// The calls.
ghost use Rattle.std.specs.Prelude.{◌≡◌, ◌≤◌, IfOk};
ghost use Rattle.best_word.specs.Bound.{IsCodeFor, first_view, given_half, kept_half, after_load, after_offer, top_code, after_join};
ghost use Rattle.best_word.specs.Seats.{view_of, IsSeatOf, IsSameSeat, IsLeastOf};

use crate::plays::{Halve, Look, Lower, Share, Unite};
use crate::seat::{BestSeat, BestWord};
use atomic_table::Table;
use fapp_model::{MAX_LEVELS, NoMemory, Tag, Triple, tag_of};
use seat_laws::WHOLE_SHARE;
use std::alloc::Global;

impl BestSeat {
    /// Its part of the whole share, at least 1. The seat of `new` has `WHOLE_SHARE`.
    pub fn share(&self) -> u64
        ensures { result ≡ (view_of self.now).share }
    {
        self.share
    }

    /// The least tag that it read or offered; in the seat of `new` the top tag.
    pub fn least(&self) -> Tag
        ensures { result.code ≡ (view_of self.now).least }
    {
        self.least
    }
}

impl BestWord {
    /// The word for costs of an instance with so many levels, and the first seat. The word is the
    /// top tag, (levels + 1, 0, 0), below which every feasible assignment costs. All memory is
    /// taken here.
    pub fn new(alloc: Global, levels: u32) -> Result<(BestWord, BestSeat), NoMemory>
        requires { (1 ≤ levels) × (levels ≤ MAX_LEVELS) }
        ensures { IfOk result (λ made. IsSeatOf made.0 made.1
            × (view_of made.1 ≡ first_view levels)) }
    {
        let top = tag_of(Triple {
            k: levels + 1,
            v: 0,
            s: 0,
        });
        let (table, seat) = Table::of_words(alloc, &[top.code], &u64::from(levels))?;
        Ok((
            BestWord { table },
            BestSeat {
                seat,
                share: WHOLE_SHARE,
                least: top,
            },
        ))
    }

    /// The word, by one load. It is at most all that the seat read or offered before.
    pub fn now(&self, seat: &mut BestSeat) -> Tag
        requires { IsSeatOf self.now seat.old }
        ensures same { IsSameSeat seat.old seat.new }
        ensures view { view_of seat.new ≡ after_load (view_of seat.old) result.code }
        ensures least { result.code ≤ (view_of seat.old).least }
        ensures tag { IsCodeFor (view_of seat.old).levels result.code }
    {
        let code = self.table.shared.load::<Look>(&mut seat.seat, 0);
        let found = Tag { code };
        seat.least = found;
        found
    }

    /// Lowers the word to the tag where that is less, and answers the word before, by one step. The
    /// tag is one of an instance with the word's levels.
    pub fn offer(&self, seat: &mut BestSeat, tag: Tag) -> Tag
        requires own { IsSeatOf self.now seat.old }
        requires tag { tag.code ≤ top_code (view_of seat.old).levels }
        ensures same { IsSameSeat seat.old seat.new }
        ensures view { view_of seat.new ≡ after_offer (view_of seat.old) tag.code result.code }
        ensures least { result.code ≤ (view_of seat.old).least }
        ensures tag { IsCodeFor (view_of seat.old).levels result.code }
    {
        let code = self
            .table
            .shared
            .fetch_min::<Lower>(&mut seat.seat, 0, tag.code);
        let found = Tag { code };
        seat.least = if code < tag.code { found } else { tag };
        found
    }

    /// Another seat, which gets half of the share, rounded down, and knows the same least tag.
    pub fn split(&self, seat: &mut BestSeat) -> BestSeat
        requires own { IsSeatOf self.now seat.old }
        requires share { 2 ≤ (view_of seat.old).share }
        ensures same { IsSameSeat seat.old seat.new × IsSameSeat seat.old result }
        ensures kept { view_of seat.new ≡ kept_half (view_of seat.old) }
        ensures given { view_of result ≡ given_half (view_of seat.old) }
    {
        let other = self.table.shared.split_seat::<Halve>(&mut seat.seat);
        let half = seat.share / 2;
        seat.share -= half;
        BestSeat {
            seat: other,
            share: half,
            least: seat.least,
        }
    }

    /// Takes in another seat: its share, its offers, the words that it found, and the lesser of the
    /// two least tags.
    pub fn join(&self, seat: &mut BestSeat, other: BestSeat)
        requires { IsSeatOf self.now seat.old × IsSeatOf self.now other }
        ensures same { IsSameSeat seat.old seat.new }
        ensures view { view_of seat.new ≡ after_join (view_of seat.old) (view_of other) }
    {
        let BestSeat {
            seat: joined,
            share,
            least,
        } = other;
        self.table.shared.join_seat::<Unite>(&mut seat.seat, joined);
        // This load shows that the shares add up to the whole at most.
        self.table.shared.load::<Share>(&mut seat.seat, 0);
        seat.share += share;
        if least < seat.least {
            seat.least = least;
        }
    }

    /// The word at the end, once every other seat was joined: the least tag offered, or the top
    /// tag. It is at most all that this seat or a joined one read or offered.
    pub fn close(self, seat: BestSeat) -> Tag
        requires own { IsSeatOf self seat }
        requires share { (view_of seat).share ≡ WHOLE_SHARE }
        ensures { IsLeastOf (view_of seat) result.code }
    {
        let BestWord { table } = self;
        let BestSeat {
            seat,
            share: _,
            least: _,
        } = seat;
        let closed = table.close_with(seat);
        let code = closed.word(0);
        closed.free();
        Tag { code }
    }
}
