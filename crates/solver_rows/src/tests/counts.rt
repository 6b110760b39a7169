use super::tables::{is_literal, read};
use arc_levels::ArcTable;
use fapp_model::{Triple, is_tag, levels, tag_of};
use fapp_tables::Tables;
use forward_count::Forward;
use std::test::Fail;
use worked_networks::{ALIKE, SMALL};

/// Pushes a literal, where it is one of the instance and its path has none. Says whether it did.
fn add(forward: &mut Forward, path: u16, choice: u16) -> bool {
    let fits = is_literal(forward.tables().instance(), path, choice) && !forward.is_set(path);
    if fits {
        forward.push(path, choice);
    }
    fits
}

/// Takes back the literal of a path, where it has one. Says whether it did.
fn take(forward: &mut Forward, path: u16) -> bool {
    let fits = forward.is_set(path);
    if fits {
        forward.remove(path);
    }
    fits
}

/// Keeps the counts of a level, where the instance has it. Says whether it did.
fn set_level(forward: &mut Forward, level: u32) -> bool {
    let fits = level <= levels(forward.tables().instance());
    if fits {
        forward.keep_level(level);
    }
    fits
}

/// Whether the literals are dead at a tag, where it is one of the instance.
fn dead(forward: &Forward, k: u32, v: u32, s: u32) -> Option<bool> {
    let triple = Triple { k, v, s };
    if is_tag(levels(forward.tables().instance()), triple) {
        return Some(forward.is_dead(tag_of(triple)));
    }
    None
}

/// The sum that a limit is compared with, where the literals are calm.
fn bound(forward: &Forward, level: u32) -> Option<u64> {
    let within = level <= levels(forward.tables().instance());
    if within && forward.is_calm(level) {
        return Some(forward.bound(level));
    }
    None
}

/// What is counted for a choice: whether it remains, what it adds, and the least that its path
/// adds.
fn counts_at(forward: &Forward, path: u16, choice: u16) -> Option<(bool, u64, Option<u64>)> {
    if is_literal(forward.tables().instance(), path, choice) {
        let least = forward.least_sum(path);
        return Some((
            forward.remains(path, choice),
            forward.sum_at(path, choice),
            least,
        ));
    }
    None
}

/// Whether two count alike for each choice of a path.
fn is_same_at(first: &Forward, second: &Forward, path: u16) -> bool {
    (0..6).all(|choice| counts_at(first, path, choice) == counts_at(second, path, choice))
}

/// Whether two count alike.
fn is_same(first: &Forward, second: &Forward) -> bool {
    (0..4).all(|path| is_same_at(first, second, path))
}

/// Pushes four literals and takes two of them back, neither the last one first.
fn push_and_take(forward: &mut Forward, level: u32) -> bool {
    let first = add(forward, 2, 1) && add(forward, 0, 0);
    let second = add(forward, 3, 4) && add(forward, 1, 0);
    let taken = set_level(forward, level) && take(forward, 0) && take(forward, 3);
    first && second && taken
}

#[test]
fn literals_alike_are_dead_by_their_sum(rt: HostRuntime) -> Result<(), Fail> {
    assert!(rt; ALIKE.len() < 1000);
    let instance = read(rt.alloc(), ALIKE)?;
    let tables = Tables::new(rt.alloc(), &instance)?;
    let arcs = ArcTable::build(rt.alloc(), &tables)?;
    let mut forward = Forward::new(rt.alloc(), &tables, &arcs)?;
    assert!(rt; add(&mut forward, 0, 0));
    assert_eq!(rt; dead(&forward, 11, 0, 0), Some(false));
    assert!(rt; add(&mut forward, 1, 1));
    assert_eq!(rt; dead(&forward, 11, 0, 0), Some(true));
    assert_eq!(rt; dead(&forward, 11, 1, 10), Some(true));
    assert_eq!(rt; dead(&forward, 11, 1, 11), Some(false));
    assert_eq!(rt; bound(&forward, 11), Some(67_108_874));
    Ok(())
}

#[test]
fn counts_are_those_of_the_literals_left(rt: HostRuntime) -> Result<(), Fail> {
    assert!(rt; SMALL.len() < 1000);
    let instance = read(rt.alloc(), SMALL)?;
    let tables = Tables::new(rt.alloc(), &instance)?;
    let arcs = ArcTable::build(rt.alloc(), &tables)?;
    for level in [11, 4, 1, 0] {
        let mut kept = Forward::new(rt.alloc(), &tables, &arcs)?;
        let mut fresh = Forward::new(rt.alloc(), &tables, &arcs)?;
        assert!(rt; push_and_take(&mut kept, level), "at {level}");
        assert!(rt; set_level(&mut fresh, level), "at {level}");
        assert!(rt;
            add(&mut fresh, 1, 0) && add(&mut fresh, 2, 1),
            "at {level}"
        );
        assert!(rt; is_same(&kept, &fresh), "at {level}");
    }
    Ok(())
}
