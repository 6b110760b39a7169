// The bound of one worker: the word that all share, and its own seat.
ghost use Rattle.std.specs.Prelude.{◌≡◌, ◌≤◌, ◌++◌, ◌∷◌, []};
ghost use Rattle.best_word.specs.Bound.{after_load, after_offer, top_code};
ghost use Rattle.best_word.specs.Seats.{view_of, IsSeatOf, IsSameSeat};
ghost use Rattle.search_log.specs.Bounds.{Offers, Tells, floor};
ghost use Rattle.fapp_workers.specs.SharedBounds.{least_offer, IsLater, OffersBy};

use best_word::{BestSeat, BestWord};
use fapp_model::Tag;
use search_log::Bound;

/// A bound that others lower too. It begins with the least tag that its seat read or offered.
#[derive(Drop)]
pub struct SharedBound<'a> {
    word: &'a BestWord,
    seat: BestSeat,
    began: Tag,
    told: Tag,
    ghost own: { IsSeatOf word.now seat },
    ghost known: { (view_of seat).least ≤ told.code },
    ghost most: { told.code ≤ top_code (view_of seat).levels },
}

impl<'a> SharedBound<'a> {
    /// The bound of that seat of the word.
    pub fn new(word: &'a BestWord, seat: BestSeat) -> SharedBound<'a>
        requires { IsSeatOf word.now seat }
        ensures seat { result.seat ≡ seat }
        ensures began { result.began.code ≡ (view_of seat).least }
        ensures told { result.told.code ≡ (view_of seat).least }
    {
        let began = seat.least();
        SharedBound {
            word,
            seat,
            began,
            told: began,
        }
    }

    /// The seat as it is now. What its view has as the least tag is at most what the bound tells
    /// and was offered.
    pub fn into_seat(self) -> BestSeat
        ensures seat { result ≡ self.entry.seat }
        ensures own { IsSeatOf self.entry.word.now result }
        ensures floor { (view_of result).least
            ≤ floor (⟦<SharedBound<'a> as Bound>⟧.state self.entry) }
    {
        let SharedBound {
            word: _,
            seat,
            began: _,
            told: _,
        } = self;
        seat
    }
}

impl<'a> Bound for SharedBound<'a> {
    ghost use Rattle.best_word.specs.Seats.{view_of};
    ghost use Rattle.fapp_workers.specs.SharedBounds.{least_offer, IsLater};

    ghost state = { λ bound. record {
      began = bound.began.code;
      told = bound.told.code;
      least = least_offer (view_of bound.seat).offers;
    } };

    ghost since = { λ was bound. IsLater was.seat bound.seat };

    /// One load of the word.
    fn now(&mut self) -> Tag
        ensures tells { Tells (⟦<SharedBound<'a> as Bound>⟧.state self.old)
            (⟦<SharedBound<'a> as Bound>⟧.state self.new) result.code }
        ensures since { (was : _) → ⟦<SharedBound<'a> as Bound>⟧.since was self.old →
            ⟦<SharedBound<'a> as Bound>⟧.since was self.new }
        ensures view { view_of self.new.seat ≡ after_load (view_of self.old.seat) result.code }
        ensures least { result.code ≤ (view_of self.old.seat).least }
    {
        self.told = self.word.now(&mut self.seat);
        self.told
    }

    /// One step that lowers the word.
    fn offer(&mut self, tag: Tag)
        requires { tag.code ≤ (⟦<SharedBound<'a> as Bound>⟧.state self.old).told }
        ensures offers { Offers (⟦<SharedBound<'a> as Bound>⟧.state self.old)
            (⟦<SharedBound<'a> as Bound>⟧.state self.new) tag.code }
        ensures since { (was : _) → ⟦<SharedBound<'a> as Bound>⟧.since was self.old →
            ⟦<SharedBound<'a> as Bound>⟧.since was self.new }
        ensures view { OffersBy (view_of self.old.seat) tag.code (view_of self.new.seat) }
    {
        self.word.offer(&mut self.seat, tag);
    }
}
