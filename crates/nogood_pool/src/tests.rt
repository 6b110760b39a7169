ghost use Rattle.std.specs.Prelude.{◌≡◌, ◌<◌, ◌≤◌, [], ◌∷◌, false, IfOk};
ghost use Rattle.std.specs.Thread.{IsSync};
ghost use Rattle.nogood_pool.specs.Examples.{crowded, crowded_paths, first_choices, narrow_path, pairwise_apart, top_code};
ghost use Rattle.fapp_model.specs.declared.record.Record.TheVariants.{Freq};
ghost use Rattle.nogood_pool.specs.Seats.{view_of, instance_seen, IsSeatOf};

use super::*;
use fapp_model::{Instance, Items, LEVELS, Literal, NoMemory, Path, Record, Tag, Triple, tag_of};
use nogood::Published;
use std::alloc::Global;
use std::thread::{Threads, join};

/// The tag below which every plan that meets the records costs.
fn top() -> Tag
    ensures { result.code ≡ top_code }
{
    tag_of(Triple {
        k: LEVELS + 1,
        v: 0,
        s: 0,
    })
}

fn path(alloc: Global, number: u32) -> Result<Path, NoMemory>
    ensures { IfOk result (λ path. path ≡ narrow_path number) }
{
    Ok(Path {
        number,
        freqs: Items::from_vec(vec![in alloc; 10, 20]?),
        pol: 1,
    })
}

/// Three paths of two frequencies each, and a further one for each number.
fn crowded_paths(alloc: Global, more: &[u32]) -> Result<Items<Path>, NoMemory>
    ensures { IfOk result (λ paths. paths ≡ crowded_paths more.now) }
{
    let mut paths = Items::new(alloc);
    paths.push(path(alloc, 1)?)?;
    paths.push(path(alloc, 2)?)?;
    paths.push(path(alloc, 3)?)?;
    for number in more {
        paths.push(path(alloc, *number)?)?;
    }
    Ok(paths)
}

/// The frequencies of the first three paths differ pairwise.
fn pairwise_apart(alloc: Global) -> Result<Items<Record>, NoMemory>
    ensures { IfOk result (λ records. records ≡ pairwise_apart) }
{
    let mut records = Items::new(alloc);
    records.push(apart(0, 1))?;
    records.push(apart(0, 2))?;
    records.push(apart(1, 2))?;
    Ok(records)
}

fn apart(i: u16, j: u16) -> Record
    ensures { result ≡ Freq i j false 0 }
{
    Record::Freq {
        i,
        j,
        equal: false,
        n: 0,
    }
}

/// Three paths that would need three frequencies and have two, and a further path for each number.
#[tactic(auto, unfolding(crate::specs::Examples::crowded))]
fn crowded_instance(alloc: Global, more: &[u32]) -> Result<Instance, NoMemory>
    ensures { IfOk result (λ instance. instance ≡ crowded more.now) }
{
    Ok(Instance {
        paths: crowded_paths(alloc, more)?,
        records: pairwise_apart(alloc)?,
    })
}

/// Publishes the list without literals.
fn publish_none(pool: &Pool, seat: &mut PoolSeat) -> Published
    requires own { IsSeatOf pool.now seat.old }
    requires crowded { instance_seen pool.now ≡ crowded [] }
    ensures own { IsSeatOf pool.now seat.new }
    ensures share { (view_of seat.new).share ≡ (view_of seat.old).share }
{
    pool.publish(seat, &[], top())
}

/// Publishes nine literals.
fn publish_nine(pool: &Pool, seat: &mut PoolSeat, lits: &[Literal]) -> Published
    requires own { IsSeatOf pool.now seat.old }
    requires crowded { instance_seen pool.now ≡ crowded (4 ∷ 5 ∷ 6 ∷ 7 ∷ 8 ∷ 9 ∷ []) }
    requires lits { lits.now ≡ first_choices 9 }
{
    pool.publish(seat, lits, top())
}

#[test]
fn answers_of_one_seat(rt: HostRuntime) -> Result<(), NoMemory> {
    let instance = crowded_instance(rt.alloc(), &[])?;
    let (pool, mut seat) = Pool::new(rt.alloc(), 0, &instance)?;
    assert_eq!(rt; publish_none(&pool, &mut seat), Published::Full(0));

    let (pool, mut seat) = Pool::new(rt.alloc(), 1, &instance)?;
    assert_eq!(rt; pool.rows(), 1);
    assert!(rt; pool.get(&mut seat, 0).is_none());
    assert_eq!(rt; publish_none(&pool, &mut seat), Published::Home(0));
    assert_eq!(rt; publish_none(&pool, &mut seat), Published::Full(1));
    assert_eq!(rt; pool.count(&mut seat), 1);
    let Some(row) = pool.get(&mut seat, 0) else {
        panic!(rt; "the row was published");
    };
    assert_eq!(rt; (row.len, row.tag), (0, top()));
    pool.close(seat);
    Ok(())
}

#[test]
fn nine_literals_are_too_long(rt: HostRuntime) -> Result<(), NoMemory> {
    let instance = crowded_instance(rt.alloc(), &[4, 5, 6, 7, 8, 9])?;
    let (pool, mut seat) = Pool::new(rt.alloc(), 1, &instance)?;
    let lits = [
        Literal { path: 0, choice: 0 },
        Literal { path: 1, choice: 0 },
        Literal { path: 2, choice: 0 },
        Literal { path: 3, choice: 0 },
        Literal { path: 4, choice: 0 },
        Literal { path: 5, choice: 0 },
        Literal { path: 6, choice: 0 },
        Literal { path: 7, choice: 0 },
        Literal { path: 8, choice: 0 },
    ];
    assert_eq!(rt; publish_nine(&pool, &mut seat, &lits), Published::TooLong);
    Ok(())
}

/// The rows that a seat gets for the list without literals, offered 500 times.
fn publish_often(alloc: Global, pool: &Pool, seat: &mut PoolSeat) -> Result<Vec<u32>, NoMemory>
    requires own { IsSeatOf pool.now seat.old }
    requires crowded { instance_seen pool.now ≡ crowded [] }
    ensures own { IsSeatOf pool.now seat.new }
    ensures share { (view_of seat.new).share ≡ (view_of seat.old).share }
{
    let mut homes = Vec::new(alloc);
    for _ in 0..500 {
        if let Published::Home(row) = publish_none(pool, seat) {
            homes.push(row)?;
        }
    }
    Ok(homes)
}

/// The rows that so many seats get, in threads of their own, and all seats as one.
fn publish_by<R: Threads + Sync>(
    rt: &R,
    alloc: Global,
    pool: &Pool,
    mut seat: PoolSeat,
    seats: u32,
) -> (PoolSeat, Result<Vec<u32>, NoMemory>)
    requires own { IsSeatOf pool.now seat }
    requires crowded { instance_seen pool.now ≡ crowded [] }
    requires share { seats ≤ (view_of seat).share }
    ensures own { IsSeatOf pool.now result.0 }
{
    if seats < 2 {
        let homes = publish_often(alloc, pool, &mut seat);
        return (seat, homes);
    }
    let half = seats / 2;
    let rest = seats - half;
    let other = pool.split(&mut seat);
    let (left, right) = join(
        rt,
        move || -> (PoolSeat, Result<Vec<u32>, NoMemory>)
            requires { IsSync R.row × IsSeatOf pool.now other
                × (instance_seen pool.now ≡ crowded []) × (half ≤ (view_of other).share) }
            ensures { IsSeatOf pool.entry.now result.0 }
        { publish_by(rt, alloc, pool, other, half) },
        move || -> (PoolSeat, Result<Vec<u32>, NoMemory>)
            requires { IsSync R.row × IsSeatOf pool.now seat × (instance_seen pool.now ≡ crowded [])
                × (rest ≤ (view_of seat).share) }
            ensures { IsSeatOf pool.entry.now result.0 }
        { publish_by(rt, alloc, pool, seat, rest) },
    );
    let (mut first, homes) = left;
    let (second, more) = right;
    pool.join(&mut first, second);
    (first, both(homes, more))
}

fn both(
    left: Result<Vec<u32>, NoMemory>,
    right: Result<Vec<u32>, NoMemory>,
) -> Result<Vec<u32>, NoMemory> {
    let mut all = left?;
    let mut rest = right?;
    all.append(&mut rest)?;
    Ok(all)
}

/// Whether each of the rows is below the count, stands once, and holds the list without literals.
fn are_rows(
    alloc: Global,
    pool: &Pool,
    seat: &mut PoolSeat,
    rows: &[u32],
    count: u64,
) -> Result<bool, NoMemory>
    requires own { IsSeatOf pool.now seat.old }
    requires count { count ≤ pool.now.rows }
{
    let mut once = vec![in alloc; false; count as usize]?;
    for row in rows {
        if u64::from(*row) >= count || once[*row as usize] {
            return Ok(false);
        }
        once[*row as usize] = true;
        match pool.get(seat, *row) {
            Some(content) if content.len == 0 && content.tag == top() => {}
            _ => return Ok(false),
        }
    }
    Ok(true)
}

#[test]
fn rows_of_two_and_of_eight_threads(rt: HostRuntime) -> Result<(), NoMemory> {
    let instance = crowded_instance(rt.alloc(), &[])?;
    for seats in [2, 8] {
        let (pool, seat) = Pool::new(rt.alloc(), 4_096, &instance)?;
        let (mut seat, homes) = publish_by(&rt, rt.alloc(), &pool, seat, seats);
        let homes = homes?;
        let count = pool.count(&mut seat);
        assert_eq!(rt; count as usize, homes.len());
        assert!(rt; are_rows(rt.alloc(), &pool, &mut seat, &homes, count)?);
    }
    Ok(())
}
