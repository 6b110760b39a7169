ghost use Rattle.std.specs.Prelude.{◌≡◌, ◌≤◌, ◌^◌, length, All};
ghost use Rattle.std.specs.Thread.{IsSync};
ghost use Rattle.best_word.specs.Bound.{top_code};
ghost use Rattle.best_word.specs.Seats.{view_of, IsSeatOf};

use super::*;
use fapp_model::{LEVELS, NoMemory, Tag, Triple, tag_of, triple_of};
use std::thread::{Threads, join};

#[test]
fn calls_of_one_seat(rt: HostRuntime) -> Result<(), NoMemory> {
    let (word, mut seat) = BestWord::new(rt.alloc(), LEVELS)?;
    assert_eq!(rt;
        triple_of(word.now(&mut seat)),
        Triple { k: 12, v: 0, s: 0 }
    );
    let before = word.offer(&mut seat, tag_of(Triple { k: 5, v: 1, s: 4 }));
    assert_eq!(rt; triple_of(before), Triple { k: 12, v: 0, s: 0 });
    let before = word.offer(&mut seat, tag_of(Triple { k: 6, v: 1, s: 0 }));
    assert_eq!(rt; triple_of(before), Triple { k: 5, v: 1, s: 4 });
    assert_eq!(rt; triple_of(word.close(seat)), Triple { k: 5, v: 1, s: 4 });
    Ok(())
}

/// Offers each triple by a seat of its own, in threads of their own, and gives all seats back as
/// one.
fn offer_all<R: Threads + Sync>(
    rt: &R,
    word: &BestWord,
    mut seat: BestSeat,
    levels: &[u32],
) -> BestSeat
    requires own { IsSeatOf word.now seat }
    requires share { length levels.now ≤ (view_of seat).share }
    requires levels { All (λ level. level ≤ 11) levels.now × ((view_of seat).levels ≡ 11) }
    ensures own { IsSeatOf word.now result }
    ensures share { (view_of result).share ≡ (view_of seat).share }
    ensures levels { (view_of result).levels ≡ 11 }
{
    if levels.is_empty() {
        return seat;
    }
    if levels.len() == 1 {
        word.offer(
            &mut seat,
            tag_of(Triple {
                k: levels[0],
                v: 0,
                s: 0,
            }),
        );
        return seat;
    }
    let (left, right) = levels.split_at(levels.len() / 2);
    let other = word.split(&mut seat);
    let (mut first, second) = join(
        rt,
        move || -> BestSeat
            requires { IsSync R.row × IsSeatOf word.now other
                × (length left.now ≤ (view_of other).share) × All (λ level. level ≤ 11) left.now
                × ((view_of other).levels ≡ 11) }
            ensures { IsSeatOf word.entry.now result
                × ((view_of result).share ≡ (view_of other).share)
                × ((view_of result).levels ≡ 11) }
        { offer_all(rt, word, other, left) },
        move || -> BestSeat
            requires { IsSync R.row × IsSeatOf word.now seat
                × (length right.now ≤ (view_of seat).share) × All (λ level. level ≤ 11) right.now
                × ((view_of seat).levels ≡ 11) }
            ensures { IsSeatOf word.entry.now result
                × ((view_of result).share ≡ (view_of seat).share) × ((view_of result).levels ≡ 11) }
        { offer_all(rt, word, seat, right) },
    );
    word.join(&mut first, second);
    first
}

#[test]
fn least_of_two_and_of_eight_threads(rt: HostRuntime) -> Result<(), NoMemory> {
    let (word, seat) = BestWord::new(rt.alloc(), LEVELS)?;
    let seat = offer_all(&rt, &word, seat, &[9, 4]);
    assert_eq!(rt; triple_of(word.close(seat)).k, 4);
    let (word, seat) = BestWord::new(rt.alloc(), LEVELS)?;
    let seat = offer_all(&rt, &word, seat, &[9, 4, 11, 7, 3, 8, 10, 6]);
    assert_eq!(rt; triple_of(word.close(seat)).k, 3);
    Ok(())
}
