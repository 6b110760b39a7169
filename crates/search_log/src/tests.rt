ghost use Rattle.std.specs.Prelude.{◌≤◌};

use super::*;
use fapp_model::{Items, Literal, NoMemory, Tag, Triple, tag_of};
use nogood::{Partial, Row};
use std::alloc::Global;

const FIRST: Literal = Literal { path: 0, choice: 0 };

const SECOND: Literal = Literal { path: 1, choice: 2 };

/// A Count line of one literal.
fn count_line(alloc: Global, tag: Tag) -> Result<LogLine, NoMemory> {
    Ok(LogLine {
        tag,
        lits: Items::from_vec(Vec::from_slice(alloc, &[FIRST])?),
        path: None,
        refs: Items::new(alloc),
    })
}

/// The number of the row that fits, by the trait.
fn number_of<S: Shared>(shared: &mut S, part: &Partial, target: Tag) -> Option<u32> {
    shared.lookup(part, target).map(|cite| cite.row)
}

/// What is told after an offer, by the trait.
fn told_after<B: Bound>(bound: &mut B, tag: Tag) -> Tag
    requires { tag.code ≤ (B.state bound.old).told }
    ensures { result.code ≤ tag.code }
{
    bound.offer(tag);
    bound.now()
}

#[test]
fn fuel_is_taken_to_the_last(rt: HostRuntime) {
    let mut fuel = Fuel::new(2);
    assert!(rt; fuel.take());
    assert!(rt; fuel.take());
    assert!(rt; !fuel.take());
    assert_eq!(rt; fuel.left(), 0);
}

#[test]
fn bound_falls_to_the_least_offer(rt: HostRuntime) {
    let top = tag_of(Triple { k: 12, v: 0, s: 0 });
    let low = tag_of(Triple { k: 5, v: 1, s: 4 });
    let mut bound = PlainBound::new(top);
    assert_eq!(rt; bound.now(), top);
    bound.offer(low);
    bound.offer(tag_of(Triple { k: 5, v: 1, s: 5 }));
    assert_eq!(rt; told_after(&mut bound, low), low);
}

#[test]
fn log_keeps_what_was_published(rt: HostRuntime) -> Result<(), NoMemory> {
    let tag = tag_of(Triple { k: 11, v: 0, s: 0 });
    let mut log = Log::new(rt.alloc());
    assert_eq!(rt; log.push(count_line(rt.alloc(), tag)?)?, 0);
    assert_eq!(rt; log.push(count_line(rt.alloc(), tag)?)?, 1);
    log.home(7)?;
    assert_eq!(rt; log.push(count_line(rt.alloc(), tag)?)?, 2);
    log.cut(0);
    assert_eq!(rt; log.lines().len(), 2);
    assert_eq!(rt; log.segments(), [Segment { last: 1, row: 7 }].as_slice());
    Ok(())
}

#[test]
fn log_keeps_the_cheapest_plan(rt: HostRuntime) -> Result<(), NoMemory> {
    let mut log = Log::new(rt.alloc());
    assert!(rt; log.best().is_none());
    for v in [3u32, 1, 2] {
        log.keep_best(Triple { k: 4, v, s: 0 }, &[v as u16])?;
    }
    let Some((cost, plan)) = log.best() else {
        panic!(rt; "a plan was kept");
    };
    assert_eq!(rt; cost, Triple { k: 4, v: 1, s: 0 });
    assert_eq!(rt; plan, [1u16].as_slice());
    Ok(())
}

#[test]
fn rows_are_looked_up_by_part_and_tag(rt: HostRuntime) -> Result<(), NoMemory> {
    let low = tag_of(Triple { k: 3, v: 0, s: 0 });
    let high = tag_of(Triple { k: 9, v: 0, s: 0 });
    let lits = [FIRST, SECOND, FIRST, FIRST, FIRST, FIRST, FIRST, FIRST];
    let rows = [
        Row {
            tag: low,
            len: 1,
            lits,
        },
        Row {
            tag: high,
            len: 2,
            lits,
        },
    ];
    let mut shared = MemRows::new(Vec::from_slice(rt.alloc(), &rows)?);
    let mut part = Partial::new(rt.alloc(), 2)?;
    assert_eq!(rt; number_of(&mut shared, &part, low), None);
    part.set(0, 0);
    assert_eq!(rt; number_of(&mut shared, &part, low), Some(0));
    assert_eq!(rt; number_of(&mut shared, &part, high), None);
    part.set(1, 2);
    assert_eq!(rt; number_of(&mut shared, &part, high), Some(1));
    assert_eq!(rt; number_of(&mut NoRows, &part, low), None);
    Ok(())
}
