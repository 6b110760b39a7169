ghost use Rattle.std.specs.Prelude.{◌≤◌, length};

use super::going_on::{Found, gone_on};
use super::{accepted, is_feasible, read};
use fapp_model::Triple;
use std::alloc::Global;
use std::test::Fail;
use std::thread::Threads;
use worked_networks::{ALIKE, FALLING, FREE, TORN};

const NOTHING: Triple = Triple { k: 0, v: 0, s: 0 };

// What the arcs say of the falling network.
const FALLING_ARCS: &str =
    "--\nOPEN 12 0 0 LOWER 5 0 0 AT 11 0\nC 10 0 0 1 1 0 0\nC 5 0 0 1 1 1 0\nC 5 0 0 1 0 0 0\nC 5 0 0 0 0\nEND\n";

// An answer that claims nothing, of any network.
const NO_CLAIM: &str = "--\nOPEN 12 0 0 LOWER 0 0 0 AT 11 0\nC 0 0 0 0 0\nEND\n";

// A certificate that no plan meets the torn network's imperative records.
const TORN_NONE: &str =
    "--\nNONE\nC 12 0 0 1 1 0 0\nC 12 0 0 1 1 1 0\nC 12 0 0 1 0 0 0\nC 12 0 0 1 0 1 0\nC 12 0 0 0 0\nEND\n";

const TORN_LINES: &str =
    "C 12 0 0 1 1 0 0\nC 12 0 0 1 1 1 0\nC 12 0 0 1 0 0 0\nC 12 0 0 1 0 1 0\nC 12 0 0 0 0\n";

const FALLING_BEST: &str = "AL 1 10 1\nAL 2 20 1\n--\nBEST 5 1 4\n";

// An answer for the free network, with a line that says nothing before the root line.
const FREE_BEST: &str =
    "AL 1 10 1\nAL 2 10 -1\n--\nBEST 0 0 0\nC 0 0 0 1 0 0 0\nC 0 0 0 0 0\nEND\n";

/// What is found from the first so many lines of an answer, of which those of these numbers stand
/// as rows, and from an assignment to begin with. With this head, the certificate is accepted.
fn found_from<R: Threads + Sync>(
    rt: &R,
    alloc: Global,
    network: &str,
    answer: &str,
    count: usize,
    numbers: &[u32],
    start: Option<&[u16]>,
    head: &str,
) -> Result<Found, Fail>
    requires network { length network.now ≤ 1000 }
{
    let instance = read(alloc, network)?;
    let lines = accepted(alloc, &instance, answer.as_bytes())?;
    if count > lines.len() {
        return Err("fewer lines".into());
    }
    if let Some(start) = start {
        if !is_feasible(&instance, start) {
            return Err("not feasible".into());
        }
    }
    let found = gone_on(rt, alloc, &instance, &lines[..count], numbers, start)?;
    let mut text = Vec::new(alloc);
    text.extend_from_slice(head.as_bytes())?;
    text.extend_from_slice(&found.text)?;
    text.extend_from_slice(b"END\n")?;
    accepted(alloc, &instance, &text)?;
    Ok(found)
}

// All jobs are moot, as nothing costs less than the start.
#[test]
fn a_start_that_costs_nothing_leaves_nothing_to_do(rt: HostRuntime) -> Result<(), Fail> {
    assert!(rt; FREE.len() <= 1000);
    let head = "AL 1 10 1\nAL 2 10 -1\n--\nBEST 0 0 0\n";
    let found = found_from(
        &rt,
        rt.alloc(),
        FREE,
        FREE_BEST,
        0,
        &[],
        Some(&[0, 0]),
        head,
    )?;
    assert_eq!(rt; found.word, NOTHING);
    assert!(rt; found.ticks.iter().all(|ticks| *ticks == 0));
    assert_eq!(rt; found.text.as_slice(), b"C 0 0 0 0 0\n".as_slice());
    Ok(())
}

#[test]
fn the_root_line_stands_behind_old_lines(rt: HostRuntime) -> Result<(), Fail> {
    assert!(rt; FREE.len() <= 1000);
    let head = "AL 1 10 1\nAL 2 10 -1\n--\nBEST 0 0 0\n";
    let found = found_from(
        &rt,
        rt.alloc(),
        FREE,
        FREE_BEST,
        1,
        &[],
        Some(&[0, 0]),
        head,
    )?;
    assert_eq!(rt;
        found.text.as_slice(),
        b"C 0 0 0 1 0 0 0\nC 0 0 0 0 0\n".as_slice()
    );
    Ok(())
}

// The old root line stands as a row, which settles all jobs.
#[test]
fn old_lines_alone_where_an_old_root_suffices(rt: HostRuntime) -> Result<(), Fail> {
    assert!(rt; TORN.len() <= 1000);
    let head = "--\nNONE\n";
    let found = found_from(&rt, rt.alloc(), TORN, TORN_NONE, 5, &[5], None, head)?;
    assert!(rt; found.ticks.iter().all(|ticks| *ticks == 0));
    assert_eq!(rt; found.text.as_slice(), TORN_LINES.as_bytes());
    Ok(())
}

// Nothing costs less than the start, which the jobs of the levels below its own have to show.
#[test]
fn a_least_start_is_kept(rt: HostRuntime) -> Result<(), Fail> {
    assert!(rt; ALIKE.len() <= 1000);
    let head = "AL 1 10 1\nAL 2 20 1\nAL 3 10 1\n--\nBEST 11 1 10\n";
    let start = [0, 1, 0];
    let found = found_from(&rt, rt.alloc(), ALIKE, NO_CLAIM, 0, &[], Some(&start), head)?;
    assert_eq!(rt; found.word, Triple { k: 11, v: 1, s: 10 });
    assert!(rt; found.ticks.iter().any(|ticks| *ticks > 0));
    Ok(())
}

// Two old lines stand as rows, of which the second is a root line: it settles the jobs of the
// levels below 5, the last ones.
#[test]
fn a_better_plan_than_the_start_is_found(rt: HostRuntime) -> Result<(), Fail> {
    assert!(rt; FALLING.len() <= 1000);
    let found = found_from(
        &rt,
        rt.alloc(),
        FALLING,
        FALLING_ARCS,
        4,
        &[1, 4],
        Some(&[0, 0]),
        FALLING_BEST,
    )?;
    assert_eq!(rt; found.word, Triple { k: 5, v: 1, s: 4 });
    assert!(rt; found.ticks.iter().any(|ticks| *ticks > 0));
    assert!(rt; found.ticks.iter().skip(7).all(|ticks| *ticks == 0));
    assert!(rt;
        found.text.starts_with(b"C 10 0 0 1 1 0 0\nC 5 0 0 1 1 1 0\nC 5 0 0 1 0 0 0\nC 5 0 0 0 0\n")
    );
    Ok(())
}
