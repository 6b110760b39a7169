ghost use Rattle.std.specs.Prelude.{◌≡◌, [], false, IfOk, IsOk};
ghost use Rattle.fapp_model.specs.declared.record.Record.TheVariants.{Freq};
ghost use Rattle.fapp_model.specs.search.Partials.{AreLiterals};
ghost use Rattle.nogood_pool.specs.Examples.{crowded, crowded_paths, narrow_path, pairwise_apart, top_code};
ghost use Rattle.nogood_pool.specs.Seats.{IsSeatOf, view_of};

use crate::PoolRows;
use fapp_model::{Instance, Items, LEVELS, Literal, NoMemory, Path, Record, Tag, Triple, tag_of};
use nogood::{Partial, Published};
use nogood_pool::{Pool, PoolSeat};
use search_log::Shared;
use std::alloc::Global;
use std::test::Fail;

/// The tag below which every plan that meets the records costs.
fn top() -> Tag
    ensures { result.code ≡ top_code }
{
    tag_of(Triple {
        k: LEVELS + 1,
        v: 0,
        s: 0,
    })
}

fn path(alloc: Global, number: u32) -> Result<Path, NoMemory>
    ensures { IfOk result (λ path. path ≡ narrow_path number) }
{
    Ok(Path {
        number,
        freqs: Items::from_vec(vec![in alloc; 10, 20]?),
        pol: 1,
    })
}

fn paths(alloc: Global) -> Result<Items<Path>, NoMemory>
    ensures { IfOk result (λ paths. paths ≡ crowded_paths []) }
{
    let mut paths = Items::new(alloc);
    paths.push(path(alloc, 1)?)?;
    paths.push(path(alloc, 2)?)?;
    paths.push(path(alloc, 3)?)?;
    Ok(paths)
}

fn apart(i: u16, j: u16) -> Record
    ensures { result ≡ Freq i j false 0 }
{
    Record::Freq {
        i,
        j,
        equal: false,
        n: 0,
    }
}

fn records(alloc: Global) -> Result<Items<Record>, NoMemory>
    ensures { IfOk result (λ records. records ≡ pairwise_apart) }
{
    let mut records = Items::new(alloc);
    records.push(apart(0, 1))?;
    records.push(apart(0, 2))?;
    records.push(apart(1, 2))?;
    Ok(records)
}

/// Three paths that would need three frequencies and have two: no plan meets the records, so every
/// list of literals is implied at the top tag.
#[tactic(auto, unfolding(nogood_pool::specs::Examples::crowded))]
fn instance(alloc: Global) -> Result<Instance, NoMemory>
    ensures { IfOk result (λ instance. instance ≡ crowded []) }
{
    Ok(Instance {
        paths: paths(alloc)?,
        records: records(alloc)?,
    })
}

fn rows_of(alloc: Global, pool: &Pool, seat: PoolSeat) -> Result<PoolRows<'_>, NoMemory>
    requires { IsSeatOf pool.now seat }
    ensures { IfOk result (λ rows. (view_of rows.seat).instance ≡ (view_of seat).instance) }
{
    match PoolRows::new(alloc, pool, seat) {
        Ok(rows) => Ok(rows),
        Err(_) => Err(NoMemory),
    }
}

fn offer(rows: &mut PoolRows<'_>, lits: &[Literal]) -> Published
    requires crowded { (view_of rows.old.seat).instance ≡ crowded [] }
    requires lits { AreLiterals (crowded []) lits.now }
    ensures { (view_of rows.new.seat).instance ≡ crowded [] }
{
    rows.offer(lits, top())
}

#[test]
fn two_share_rows(rt: HostRuntime) -> Result<(), Fail> {
    let instance = instance(rt.alloc())?;
    let (pool, mut seat) = Pool::new(rt.alloc(), 2, &instance)?;
    let other = pool.split(&mut seat);
    let mut left = rows_of(rt.alloc(), &pool, seat)?;
    let mut right = rows_of(rt.alloc(), &pool, other)?;
    let lits = [
        Literal { path: 0, choice: 1 },
        Literal { path: 2, choice: 1 },
    ];
    let mut part = Partial::new(rt.alloc(), 3)?;
    part.set(0, 1);

    assert_eq!(rt; offer(&mut left, &lits), Published::Home(0));
    assert!(rt;
        right.lookup(&part, top()).is_none(),
        "one literal is missing"
    );
    part.set(2, 1);
    let found = right.lookup(&part, top()).ok_or("the row was published")?;
    assert_eq!(rt; (found.row, found.content.literals()), (0, lits.as_slice()));

    assert_eq!(rt; offer(&mut right, &[]), Published::Home(1));
    assert_eq!(rt; offer(&mut right, &[]), Published::Full(2));
    part.clear(0);
    let found = left.lookup(&part, top()).ok_or("the row was published")?;
    assert_eq!(rt; found.row, 1);
    Ok(())
}
