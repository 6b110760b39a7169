ghost use Rattle.fapp_run.specs.Answers.{AreOptions};

use fapp_gate::{Gate, HoldGate};
use fapp_io::{MemSink, MemSource};
use fapp_run::{CheckOptions, OpenGate, answer, judge, run};
use fapp_words::SolveOptions;
use std::alloc::Global;
use std::test::Fail;
use std::thread::Threads;
use worked_networks::{ALIKE, CHAIN, FALLING, FREE, PLAIN, SMALL, TIED, TORN};

// One path of one choice.
const SINGLE: &str = "DM 1 5\nTR 9 1 -1\n";

// One of two choices of the first path is far from the second path's.
const EDGE: &str =
    "DM 1 10\nDM 1 20\nDM 2 10\nTR 1 1 1\nTR 2 2 1\nCE 1 2 10 10 10 10 10 10 10 10 10 10 10\n";

// Three paths of which each two need different frequencies, and two frequencies.
const CLASH: &str =
    "DM 1 10\nDM 1 20\nTR 1 1 1\nTR 2 1 1\nTR 3 1 1\nCI 1 2 F I 0\nCI 1 3 F I 0\nCI 2 3 F I 0\n";

// A network, how many workers there are, the fuel and the most prefixes; the exit status and the
// verdict.
const VERDICTS: [(&str, u32, u32, u32, u8, &str); 13] = [
    ("", 4, 1000, 64, 0, "BEST 0 0 0\n"),
    (SINGLE, 4, 1001, 64, 0, "BEST 0 0 0\n"),
    (PLAIN, 4, 1002, 64, 0, "BEST 0 0 0\n"),
    (CHAIN, 2, 1002, 64, 0, "BEST 0 0 0\n"),
    (FALLING, 1, 1002, 64, 0, "BEST 5 1 4\n"),
    (FREE, 4, 1002, 64, 0, "BEST 0 0 0\n"),
    (TIED, 4, 1002, 64, 0, "BEST 11 1 10\n"),
    (ALIKE, 4, 1003, 64, 0, "BEST 11 1 10\n"),
    (SMALL, 8, 1004, 64, 0, "BEST 4 1 3\n"),
    (TORN, 4, 1002, 64, 1, "NONE\n"),
    (
        ALIKE,
        4,
        0,
        64,
        2,
        "OPEN 12 0 0 LOWER 11 0 0 AT 11 3 0 0 1 0 2 0\n",
    ),
    (EDGE, 1, 3, 1, 0, "BEST 0 0 0\n"),
    (EDGE, 1, 2, 1, 2, "OPEN 12 0 0 LOWER 0 0 0 AT 11 0\n"),
];

/// The exit status on a network, and what the checker says of the answer.
fn checked<R: Threads + Sync>(
    rt: &R,
    alloc: Global,
    text: &str,
    options: &SolveOptions,
) -> Result<(u8, Vec<u8>), Fail>
    requires { AreOptions options.now }
{
    let outcome = answer(rt, alloc, text.as_bytes(), options, &OpenGate)?;
    let mut input = Vec::from_slice(alloc, text.as_bytes())?;
    input.extend_from_slice(b"--\n")?;
    input.extend_from_slice(&outcome.text)?;
    let judged = judge(rt, alloc, &input, &CheckOptions { workers: 1 })?;
    Ok((outcome.status.code(), judged.text))
}

#[test]
fn each_answer_is_accepted_with_its_verdict(rt: HostRuntime) -> Result<(), Fail> {
    for (text, workers, fuel, split, code, verdict) in VERDICTS.iter() {
        for version in [1u32, 2] {
            let options = SolveOptions {
                workers: (*workers).clamp(1, 32),
                fuel: Some((*fuel).min(1_000_000)),
                split: (*split).clamp(1, 4096),
                pool: 0,
                cert: version.clamp(1, 2),
                answer_only: false,
            };
            let (ended, said) = checked(&rt, rt.alloc(), text, &options)?;
            assert_eq!(rt; ended, *code, "at {text} in version {version}");
            let wanted = format!(in rt.alloc(); "ACCEPTED {verdict}")?;
            assert_eq!(rt;
                said.as_slice(),
                wanted.as_bytes(),
                "at {text} in version {version}"
            );
        }
    }
    Ok(())
}

/// What the program writes on these words for a network, through a gate.
fn written<R: Threads + Sync, G: Gate>(
    rt: &R,
    alloc: Global,
    line: &str,
    text: &str,
    gate: &G,
) -> Result<Vec<u8>, Fail> {
    let bytes = Vec::from_slice(alloc, text.as_bytes())?;
    let mut source = MemSource::new(bytes, 4096, Vec::new(alloc));
    let mut sink = MemSink::new(alloc, 100_000, 4096, Vec::new(alloc))?;
    let mut words = Vec::new(alloc);
    for word in line.split(' ') {
        words.push(String::from_str(alloc, word)?)?;
    }
    run(rt, alloc, &words, &mut source, &mut sink, gate);
    Ok(Vec::from_slice(alloc, sink.taken())?)
}

// A gate that waits for a job that never comes is missed: so the program's workers pass it at each
// job.
#[test]
fn two_workers_of_the_program_meet_and_steal(rt: HostRuntime) -> Result<(), Fail> {
    let wanted = "AL 9 5 -1\n--\nBEST 0 0 0\nC 0 0 0 0 0\nEND\n";
    for (other, turns, misses) in [
        (1, 200_000_000, false),
        (2, 200_000_000, false),
        (99, 1000, true),
    ] {
        let gate = HoldGate::new(0, other, turns);
        let text = written(&rt, rt.alloc(), "solve --workers 2", SINGLE, &gate)?;
        assert_eq!(rt; text.as_slice(), wanted.as_bytes(), "at {other}");
        assert_eq!(rt; gate.missed(), misses, "at {other}");
    }
    Ok(())
}

#[test]
fn shared_rows_make_a_shorter_certificate(rt: HostRuntime) -> Result<(), Fail> {
    let alone = written(
        &rt,
        rt.alloc(),
        "solve --split 1 --workers 1 --pool 0",
        CLASH,
        &OpenGate,
    )?;
    let shared = written(
        &rt,
        rt.alloc(),
        "solve --split 1 --workers 1 --pool 4096",
        CLASH,
        &OpenGate,
    )?;
    assert!(rt; shared.starts_with(b"--\nNONE\n"));
    assert!(rt; shared.len() < alone.len());
    Ok(())
}
