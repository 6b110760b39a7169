// An assignment to begin with.
ghost use Rattle.std.specs.Prelude.{◌≡◌, ◌<◌, All, IfOk, IfSome, OnOk, length};
ghost use Rattle.std.specs.Option.{ForSome};
ghost use Rattle.fapp_model.specs.Least.{IsFeasible};
ghost use Rattle.fapp_model.specs.Levels.{levels_of};
ghost use Rattle.best_word.specs.Seats.{shares_of as seat_shares, view_of, IsSeatOf};
ghost use Rattle.nogood_pool.specs.Dealt.{shares_of as pool_shares};
ghost use Rattle.fapp_workers.specs.Begun.{IsBegun, IsFresh, OffersFirst};
ghost use Rattle.fapp_workers.specs.WorkerPlaces.{IsSeated, hands_of, pool_seats_of, seats_of};

use crate::place::Place;
use best_word::BestWord;
use fapp_cost::cost;
use fapp_model::{NoMemory, tag_of};
use fapp_plan::Plan;
use nogood_pool::Pool;

/// Keeps an assignment at a place where none was kept, and offers its cost.
fn begin(plan: &Plan, word: &BestWord, place: &mut Place, start: &[u16]) -> Result<(), NoMemory>
    requires feasible { IsFeasible plan.now.instance start.now }
    requires own { IsSeatOf word.now place.old.seat }
    requires fresh { IsFresh (levels_of plan.now.instance) place.old }
    ensures { OnOk result (IsBegun plan.now.instance word.now start.now place.old place.new) }
{
    let Some(triple) = cost(plan.instance(), start) else {
        unreachable!()
    };
    place.log.keep_best(triple, start)?;
    word.offer(&mut place.seat, tag_of(triple));
    Ok(())
}

/// The places, the first of which keeps and has offered the assignment, if there is one.
pub(crate) fn keep_start(
    plan: &Plan,
    word: &BestWord,
    pool: &Pool,
    places: Vec<Place>,
    start: Option<&[u16]>,
) -> Result<Vec<Place>, NoMemory>
    requires some { 0 < length places.items }
    requires seated { All (IsSeated plan.now word.now pool.now) places.items }
    requires fresh { All (IsFresh (levels_of plan.now.instance)) places.items }
    requires feasible { ForSome start (λ s. IsFeasible plan.now.instance s.now) }
    ensures hands { IfOk result (λ kept. hands_of kept.items ≡ hands_of places.items) }
    ensures seated { IfOk result (λ kept. All (IsSeated plan.now word.now pool.now) kept.items) }
    ensures shares { IfOk result (λ kept.
        seat_shares (seats_of kept.items) ≡ seat_shares (seats_of places.items)) }
    ensures pool_seats { IfOk result (λ kept.
        pool_seats_of kept.items ≡ pool_seats_of places.items) }
    ensures started { IfOk result (λ kept.
        IfSome start.entry (λ s. OffersFirst plan.now.instance s.now kept.items)) }
{
    let Some(start) = start else {
        return Ok(places);
    };
    let _valid = plan.instance();
    let mut places = places;
    begin(plan, word, &mut places[0], start)?;
    Ok(places)
}
