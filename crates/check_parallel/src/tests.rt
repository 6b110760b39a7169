ghost use Rattle.std.specs.Prelude.{◌≤◌, length, IfOk};
ghost use Rattle.fapp_model.specs.Instances.{IsInstance};
ghost use Rattle.fapp_model.specs.declared.limits.TheConstants.{MAX_NUMBER};
ghost use Rattle.fapp_text.specs.declared.line.TheConstants.{MAX_TEXT};
ghost use Rattle.cert_lines.specs.WellFormed.{IsWellFormed};

use crate::{CheckError, check_parallel};
use cert_lines::{Answer, RejectCause, read_answer};
use fapp_model::{Instance, MAX_NUMBER};
use fapp_text::MAX_TEXT;
use record_reader::read_instance;
use std::alloc::Global;
use std::test::Fail;
use worked_networks::TIED;

const PLAN: &str = "AL 1 10 1\nAL 2 10 1\n--\nBEST 11 1 10\n";

const NO_PLAN: &str = "AL 1 10 1\nAL 2 20 1\n--\nBEST 11 1 10\n";

// A root line that says nothing, a good line that is no root line, one whose literals are not dead,
// and one that cites itself or a later line.
const ZERO: &str = "C 0 0 0 0 0\n";

const GOOD: &str = "C 12 0 0 1 1 0 0\n";

const ALIVE: &str = "C 12 0 0 1 1 1 0\n";

const CITES: &str = "C 12 0 0 1 1 0 1 10000\n";

// What stands before 10,000 lines; the line that 9,999 of them are, before the certificate line;
// two of the lines that are others (0: none); the line that is refused and why.
type Row = (
    &'static str,
    &'static str,
    (usize, &'static str),
    (usize, &'static str),
    Option<(u32, RejectCause)>,
);

const NONE: (usize, &str) = (0, "");

const ROWS: [Row; 14] = [
    (PLAN, ZERO, NONE, NONE, None),
    (
        PLAN,
        ZERO,
        (5000, ALIVE),
        (9000, ALIVE),
        Some((5000, RejectCause::NotDead)),
    ),
    // The last line of a slice or a round, and the first behind it.
    (
        PLAN,
        ZERO,
        (4096, ALIVE),
        (4097, CITES),
        Some((4096, RejectCause::NotDead)),
    ),
    (
        PLAN,
        ZERO,
        (4097, CITES),
        (4098, ALIVE),
        Some((4097, RejectCause::CiteNotEarlier)),
    ),
    (
        PLAN,
        ZERO,
        (8192, ALIVE),
        (8193, CITES),
        Some((8192, RejectCause::NotDead)),
    ),
    (
        PLAN,
        ZERO,
        (8193, ALIVE),
        (9999, CITES),
        Some((8193, RejectCause::NotDead)),
    ),
    // The first and the last line of all.
    (
        PLAN,
        ZERO,
        (1, ALIVE),
        (4097, CITES),
        Some((1, RejectCause::NotDead)),
    ),
    (
        PLAN,
        ZERO,
        (10_000, ALIVE),
        NONE,
        Some((10_000, RejectCause::NotDead)),
    ),
    // The root's fault comes behind those of the lines, and the plan's before them.
    (PLAN, GOOD, NONE, NONE, None),
    (
        PLAN,
        GOOD,
        (10_000, GOOD),
        NONE,
        Some((0, RejectCause::NoRootLine)),
    ),
    (
        PLAN,
        GOOD,
        (10_000, GOOD),
        (9000, ALIVE),
        Some((9000, RejectCause::NotDead)),
    ),
    (
        NO_PLAN,
        ZERO,
        NONE,
        NONE,
        Some((0, RejectCause::ChoiceNotInDomain)),
    ),
    (
        NO_PLAN,
        ZERO,
        (1, ALIVE),
        NONE,
        Some((0, RejectCause::ChoiceNotInDomain)),
    ),
    (
        NO_PLAN,
        GOOD,
        (10_000, GOOD),
        NONE,
        Some((0, RejectCause::ChoiceNotInDomain)),
    ),
];

fn network(alloc: Global) -> Result<Instance, Fail>
    ensures { IfOk result IsInstance }
{
    match read_instance(alloc, TIED.as_bytes()) {
        Ok(instance) => Ok(instance),
        Err(_) => Err("unread".into()),
    }
}

fn line_of(number: usize, row: &Row) -> &'static str {
    let (_, most, (one, first), (other, second), _) = *row;
    if number == one {
        first
    } else if number == other {
        second
    } else if number < 10_000 {
        most
    } else {
        "B 11 1 10 0 0 0\n"
    }
}

fn text_of(alloc: Global, row: &Row) -> Result<Vec<u8>, Fail>
    ensures { IfOk result (λ text. length text.items ≤ MAX_TEXT) }
{
    let mut text = Vec::from_slice(alloc, row.0.as_bytes())?;
    for number in 1..10_001 {
        text.extend_from_slice(line_of(number, row).as_bytes())?;
    }
    text.extend_from_slice(b"END\n")?;
    if text.len() > MAX_TEXT {
        return Err("too long".into());
    }
    Ok(text)
}

fn answer_of(alloc: Global, instance: &Instance, text: &[u8]) -> Result<Answer, Fail>
    requires { IsInstance instance.now × (length text.now ≤ MAX_TEXT) }
    ensures { IfOk result (λ answer. IsWellFormed instance.now answer
        × (length answer.lines ≤ MAX_NUMBER)) }
{
    let Ok(answer) = read_answer(alloc, instance, text) else {
        return Err("unread".into());
    };
    if answer.lines.len() > MAX_NUMBER as usize {
        return Err("too many".into());
    }
    Ok(answer)
}

#[test]
fn the_first_fault_is_found(rt: HostRuntime) -> Result<(), Fail> {
    let alloc = rt.alloc();
    let instance = network(alloc)?;
    for row in ROWS.iter() {
        let text = text_of(alloc, row)?;
        let answer = answer_of(alloc, &instance, &text)?;
        for workers in [1u32, 2, 4] {
            let found = match check_parallel(&rt, alloc, &instance, &answer, workers.clamp(1, 32)) {
                Ok(()) => None,
                Err(CheckError::Rejected(fault)) => Some((fault.line, fault.cause)),
                Err(CheckError::NoMemory) => return Err("no memory".into()),
            };
            assert!(rt; found == row.4, "with {workers} workers");
        }
    }
    Ok(())
}
