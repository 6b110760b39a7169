ghost use Rattle.std.specs.Prelude.{◌≡◌, ◌≤◌, [], length, IfOk};
ghost use Rattle.fapp_model.specs.Levels.{levels_of};
ghost use Rattle.choice_counts.specs.ForwardStates.{at_level};
ghost use Rattle.search_log.specs.Shares.{IsServedContent, row_content};

use super::falling::FallingBound;
use super::tables::read;
use arc_levels::ArcTable;
use fapp_model::{Items, Literal, Tag, Triple, levels, tag_of, triple_of};
use fapp_tables::Tables;
use forward_count::Forward;
use nogood::Row;
use search_log::{Bound, Fuel, Job, Log, MemRows, NoRows, Outcome, PlainBound, Ref, Shared};
use std::alloc::Global;
use std::test::Fail;
use subtree_search::settle;
use worked_networks::PLAIN;

// No two of three paths have one frequency, of two.
const APART: &str =
    "DM 1 10\nDM 1 20\nTR 1 1 1\nTR 2 1 1\nTR 3 1 1\nCI 1 2 F I 0\nCI 1 3 F I 0\nCI 2 3 F I 0\n";

// The same, below a path of five choices that breaks nothing with them.
const BELOW: &str =
    "DM 1 10\nDM 1 20\nDM 2 1000\nDM 2 1001\nDM 2 1002\nDM 2 1003\nDM 2 1004\nTR 4 2 1\nTR 1 1 1\nTR 2 1 1\nTR 3 1 1\nCI 1 2 F I 0\nCI 1 3 F I 0\nCI 2 3 F I 0\nCI 4 1 F I 1\nCI 4 2 F I 1\nCI 4 3 F I 1\n";

// One of two choices of the first path is far from the second path's.
const EDGE: &str =
    "DM 1 10\nDM 1 20\nDM 2 10\nTR 1 1 1\nTR 2 2 1\nCE 1 2 10 10 10 10 10 10 10 10 10 10 10\n";

// As BELOW, but what the three paths break is one record of level 0.
const SOFT: &str =
    "DM 1 10\nDM 1 20\nDM 2 1000\nDM 2 1001\nDM 2 1002\nDM 2 1003\nDM 2 1004\nTR 4 2 1\nTR 1 1 1\nTR 2 1 1\nTR 3 1 1\nCE 1 2 5 0 0 0 0 0 0 0 0 0 0\nCE 1 3 5 0 0 0 0 0 0 0 0 0 0\nCE 2 3 5 0 0 0 0 0 0 0 0 0 0\nCI 4 1 F I 1\nCI 4 2 F I 1\nCI 4 3 F I 1\n";

const ZERO: Triple = Triple { k: 0, v: 0, s: 0 };

const TOP: Triple = Triple { k: 12, v: 0, s: 0 };

/// How a job ended.
#[derive(Clone, Copy, Debug, PartialEq, Eq)]
enum End {
    ByLine(Triple),
    ByRow(Triple),
    Moot(Triple),
    Spent,
}

/// How a job ended, the fuel that was left, and the cost of the assignment that the log keeps.
#[derive(Clone, Copy, Debug, PartialEq, Eq)]
struct Ended {
    end: End,
    left: u64,
    kept: Option<Triple>,
}

fn end_of(outcome: Outcome) -> End {
    match outcome {
        Outcome::Refuted { line, tag } => match line {
            Ref::Own(_) => End::ByLine(triple_of(tag)),
            Ref::Row(_) => End::ByRow(triple_of(tag)),
        },
        Outcome::Moot { seen } => End::Moot(triple_of(seen)),
        Outcome::Spent => End::Spent,
    }
}

/// Runs a job with these rows.
fn run_job<B: Bound, H: Shared>(
    forward: &mut Forward,
    job: &Job,
    bound: &mut B,
    fuel: u64,
    shared: &mut H,
    alloc: Global,
) -> Result<Ended, Fail>
    requires empty { forward.old.pushed ≡ [] }
    requires level { job.now.level ≤ levels_of forward.old.instance }
    requires root { job.now.prefix ≡ [] }
    requires serves { H.serves shared.old forward.old.instance }
{
    let mut fuel = Fuel::new(fuel);
    let mut log = Log::new(alloc);
    let outcome = settle(alloc, job, forward, &mut fuel, bound, shared, &mut log)?;
    let kept = match log.best() {
        Some(best) => Some(best.0),
        None => None,
    };
    Ok(Ended {
        end: end_of(outcome),
        left: fuel.left(),
        kept,
    })
}

/// Runs a level's job on the empty prefix under this bound, without rows.
fn run_under<B: Bound>(
    alloc: Global,
    text: &str,
    level: u32,
    bound: &mut B,
    fuel: u64,
) -> Result<Ended, Fail>
    requires { length text.now ≤ 1000 }
{
    let instance = read(alloc, text)?;
    if level > levels(&instance) {
        return Err("no such level".into());
    }
    let tables = Tables::new(alloc, &instance)?;
    let arcs = ArcTable::build(alloc, &tables)?;
    let mut forward = Forward::new(alloc, &tables, &arcs)?;
    let job = Job {
        level,
        prefix: Items::new(alloc),
    };
    run_job(&mut forward, &job, bound, fuel, &mut NoRows, alloc)
}

/// The same, under a bound that nobody else lowers.
fn run_alone(alloc: Global, text: &str, level: u32, bound: Tag, fuel: u64) -> Result<Ended, Fail>
    requires { length text.now ≤ 1000 }
{
    run_under(alloc, text, level, &mut PlainBound::new(bound), fuel)
}

/// The row without literals that a job's search finds, by its line.
fn found_row(forward: &mut Forward, job: &Job, alloc: Global) -> Result<Row, Fail>
    requires empty { forward.old.pushed ≡ [] }
    requires level { job.now.level ≤ levels_of forward.old.instance }
    requires root { job.now.prefix ≡ [] }
    ensures forward { IfOk result (λ row. forward.new ≡ at_level forward.old job.now.level) }
    ensures row { IfOk result (λ row. IsServedContent forward.old.instance (row_content row)) }
{
    let mut fuel = Fuel::new(1003);
    let mut bound = PlainBound::new(tag_of(TOP));
    let mut log = Log::new(alloc);
    let outcome = settle(
        alloc,
        job,
        forward,
        &mut fuel,
        &mut bound,
        &mut NoRows,
        &mut log,
    )?;
    let Outcome::Refuted { line, .. } = outcome else {
        return Err("not refuted".into());
    };
    let Ref::Own(place) = line else {
        return Err("no line".into());
    };
    let tag = log.lines()[place as usize].tag;
    let lits = [Literal { path: 0, choice: 0 }; 8];
    Ok(Row { tag, len: 0, lits })
}

/// Runs a job without fuel, where one row is shared.
fn run_with_row(forward: &mut Forward, job: &Job, row: Row, alloc: Global) -> Result<Ended, Fail>
    requires empty { forward.old.pushed ≡ [] }
    requires level { job.now.level ≤ levels_of forward.old.instance }
    requires root { job.now.prefix ≡ [] }
    requires served { IsServedContent forward.old.instance (row_content row) }
{
    let mut rows = MemRows::new(Vec::from_slice(alloc, &[row])?);
    let mut bound = PlainBound::new(tag_of(TOP));
    run_job(forward, job, &mut bound, 0, &mut rows, alloc)
}

/// Runs APART's job of the last level without fuel, where the row that its own search finds is
/// shared.
fn run_again(alloc: Global) -> Result<Ended, Fail> {
    let instance = read(alloc, APART)?;
    if 11 > levels(&instance) {
        return Err("no such level".into());
    }
    let tables = Tables::new(alloc, &instance)?;
    let arcs = ArcTable::build(alloc, &tables)?;
    let mut forward = Forward::new(alloc, &tables, &arcs)?;
    let job = Job {
        level: 11,
        prefix: Items::new(alloc),
    };
    let row = found_row(&mut forward, &job, alloc)?;
    if triple_of(row.tag) != TOP {
        return Err("another tag".into());
    }
    run_with_row(&mut forward, &job, row, alloc)
}

#[test]
fn a_job_without_fuel_is_spent(rt: HostRuntime) -> Result<(), Fail> {
    let ended = run_alone(rt.alloc(), APART, 11, tag_of(TOP), 0)?;
    let wanted = Ended {
        end: End::Spent,
        left: 0,
        kept: None,
    };
    assert_eq!(rt; ended, wanted);
    Ok(())
}

#[test]
fn a_line_settles_each_node_that_it_does_not_name(rt: HostRuntime) -> Result<(), Fail> {
    let ended = run_alone(rt.alloc(), BELOW, 11, tag_of(TOP), 4)?;
    let wanted = Ended {
        end: End::ByLine(TOP),
        left: 0,
        kept: None,
    };
    assert_eq!(rt; ended, wanted);
    Ok(())
}

#[test]
fn a_row_that_is_shared_settles_a_job(rt: HostRuntime) -> Result<(), Fail> {
    let ended = run_again(rt.alloc())?;
    let wanted = Ended {
        end: End::ByRow(TOP),
        left: 0,
        kept: None,
    };
    assert_eq!(rt; ended, wanted);
    Ok(())
}

#[test]
fn a_job_at_a_bound_of_zero_is_moot(rt: HostRuntime) -> Result<(), Fail> {
    let ended = run_alone(rt.alloc(), PLAIN, 3, tag_of(ZERO), 7)?;
    let wanted = Ended {
        end: End::Moot(ZERO),
        left: 7,
        kept: None,
    };
    assert_eq!(rt; ended, wanted);
    Ok(())
}

#[test]
fn three_ticks_find_a_plan_of_two_paths(rt: HostRuntime) -> Result<(), Fail> {
    let ended = run_alone(rt.alloc(), EDGE, 0, tag_of(TOP), 3)?;
    let wanted = Ended {
        end: End::ByLine(ZERO),
        left: 0,
        kept: Some(ZERO),
    };
    assert_eq!(rt; ended, wanted);
    Ok(())
}

#[test]
fn two_ticks_do_not(rt: HostRuntime) -> Result<(), Fail> {
    let ended = run_alone(rt.alloc(), EDGE, 0, tag_of(TOP), 2)?;
    let wanted = Ended {
        end: End::Spent,
        left: 0,
        kept: None,
    };
    assert_eq!(rt; ended, wanted);
    Ok(())
}

// Three ticks suffice where the bound stays: it is read at each of three prefixes.
#[test]
fn a_job_is_moot_once_the_bound_falls_to_zero(rt: HostRuntime) -> Result<(), Fail> {
    assert!(rt; EDGE.len() <= 1000);
    for (reads, left) in [(0, 3), (1, 2), (2, 1)] {
        let mut bound = FallingBound::new(tag_of(TOP), reads);
        let ended = run_under(rt.alloc(), EDGE, 0, &mut bound, 3)?;
        let wanted = Ended {
            end: End::Moot(ZERO),
            left,
            kept: None,
        };
        assert_eq!(rt; ended, wanted, "at {reads}");
    }
    Ok(())
}
