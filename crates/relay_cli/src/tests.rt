ghost use Rattle.std.specs.Prelude.{◌≤◌};

use super::*;
use fapp_gen::generate;
use fapp_io::{MemSink, MemSource};
use fapp_run::{CheckOptions, SolveOptions, answer, judge};
use std::alloc::Global;
use std::test::Fail;
use worked_networks::{PLAIN, TORN};

const PLAIN_ANSWER: &str = "AL 1 10 1\nAL 2 30 1\n--\nBEST 0 0 0\nC 0 0 0 0 0\nEND\n";

const NOTHING_TO_PLAN: &str = "--\nBEST 0 0 0\nC 0 0 0 0 0\nEND\n";

const LIKE_SOLVE: SolveOptions = SolveOptions {
    workers: 1,
    fuel: None,
    split: 64,
    pool: 4096,
    cert: 1,
    answer_only: false,
};

// Words, an input, the exit status and what is written. An empty line has no words.
const ENDS: [(&str, &str, u8, &str); 22] = [
    ("", PLAIN, 0, PLAIN_ANSWER),
    ("", "", 0, NOTHING_TO_PLAN),
    ("--workers 1", PLAIN, 0, PLAIN_ANSWER),
    ("--workers=32", PLAIN, 0, PLAIN_ANSWER),
    (
        "--pool 0 --fuel 1000000 --split 1 --workers 3 --cert 1",
        PLAIN,
        0,
        PLAIN_ANSWER,
    ),
    (
        "--cert 2",
        PLAIN,
        0,
        "AL 1 10 1\nAL 2 30 1\n--\nBEST 0 0 0\nV 2\nC 0 0 0 0 0\nEND\n",
    ),
    ("solve", PLAIN, 64, "USAGE\n"),
    ("solve --workers 1", PLAIN, 64, "USAGE\n"),
    ("--answer-only", PLAIN, 64, "USAGE\n"),
    ("--workers 2 --answer-only", PLAIN, 64, "USAGE\n"),
    ("check", PLAIN, 64, "USAGE\n"),
    ("gen 7 3", PLAIN, 64, "USAGE\n"),
    ("--workers", PLAIN, 64, "USAGE\n"),
    ("--workers 0", PLAIN, 64, "USAGE\n"),
    ("--workers 33", PLAIN, 64, "USAGE\n"),
    ("--workers 2 --workers 2", PLAIN, 64, "USAGE\n"),
    ("--senders 2", PLAIN, 64, "USAGE\n"),
    ("--cert 3", PLAIN, 64, "USAGE\n"),
    ("--help", PLAIN, 64, "USAGE\n"),
    ("--", PLAIN, 64, "USAGE\n"),
    ("", "XX 1\n", 65, "BADINPUT 1 UnknownRecord\n"),
    (
        "--workers 2",
        "TR 1 1 1\nTR 1 1 1\n",
        65,
        "BADINPUT 2 DuplicatePath\n",
    ),
];

// Words, an input, how many bytes are given and taken in a call, which read or write fails (0:
// none), the exit status and what is written.
const FAULTS: [(&str, &str, usize, u64, u64, u8, &str); 6] = [
    ("", PLAIN, 4, 0, 3, 67, "AL 1 10 "),
    ("", PLAIN, 4096, 0, 1, 67, ""),
    ("", PLAIN, 4096, 1, 0, 66, "READFAULT\n"),
    ("", PLAIN, 16, 7, 0, 66, "READFAULT\n"),
    ("--workers 1", "XX 1\n", 4, 0, 3, 67, "BADINPUT"),
    ("check", PLAIN, 4, 1, 2, 67, "USAG"),
];

fn words_of(alloc: Global, line: &str) -> Result<Vec<String>, Fail> {
    let mut words = Vec::new(alloc);
    for word in line.split_whitespace() {
        words.push(String::from_str(alloc, word)?)?;
    }
    Ok(words)
}

/// How a run ends on these words and this input, given and taken in pieces, one call failing (0:
/// none).
fn end_of<R: Threads + Wait + Sync>(
    rt: &R,
    alloc: Global,
    words: &str,
    input: &[u8],
    pieces: usize,
    failing_read: u64,
    failing_write: u64,
) -> Result<(Status, Vec<u8>), Fail>
    requires { 1 ≤ pieces }
{
    let bytes = Vec::from_slice(alloc, input)?;
    let mut source = MemSource::new(bytes, pieces, vec![in alloc; failing_read]?);
    let mut sink = MemSink::new(alloc, 100_000, pieces, vec![in alloc; failing_write]?)?;
    let words = words_of(alloc, words)?;
    let status = run_relay(rt, alloc, &words, &mut source, &mut sink, &OpenGate);
    Ok((status, Vec::from_slice(alloc, sink.taken())?))
}

#[test]
fn each_input_has_its_end(rt: HostRuntime) -> Result<(), Fail> {
    for (words, input, code, output) in ENDS.iter() {
        for pieces in [1, 4096] {
            let (status, written) = end_of(&rt, rt.alloc(), words, input.as_bytes(), pieces, 0, 0)?;
            assert_eq!(rt; status.code(), *code, "at {words} {input}");
            assert_eq!(rt; written.as_slice(), output.as_bytes(), "at {words} {input}");
        }
    }
    Ok(())
}

#[test]
fn each_fault_has_its_end(rt: HostRuntime) -> Result<(), Fail> {
    for (words, input, most, failing_read, failing_write, code, output) in FAULTS.iter() {
        let (status, written) = end_of(
            &rt,
            rt.alloc(),
            words,
            input.as_bytes(),
            (*most).max(1),
            *failing_read,
            *failing_write,
        )?;
        assert_eq!(rt;
            status.code(),
            *code,
            "at {words} {failing_read} {failing_write}"
        );
        assert_eq!(rt;
            written.as_slice(),
            output.as_bytes(),
            "at {words} {failing_read} {failing_write}"
        );
    }
    Ok(())
}

#[test]
fn one_worker_writes_what_solve_writes(rt: HostRuntime) -> Result<(), Fail> {
    let made = generate(rt.alloc(), 7, 40)?;
    for input in [made.as_slice(), TORN.as_bytes()] {
        let outcome = answer(&rt, rt.alloc(), input, &LIKE_SOLVE, &OpenGate)?;
        let (status, written) = end_of(&rt, rt.alloc(), "--workers 1", input, 4096, 0, 0)?;
        assert_eq!(rt; status, outcome.status);
        assert!(rt; written.as_slice() == outcome.text.as_slice());
    }
    Ok(())
}

#[test]
fn a_relayed_answer_is_accepted(rt: HostRuntime) -> Result<(), Fail> {
    let text = generate(rt.alloc(), 7, 40)?;
    for words in ["--workers 2", "--workers 8 --cert 2", ""] {
        let (status, written) = end_of(&rt, rt.alloc(), words, text.as_slice(), 4096, 0, 0)?;
        assert_eq!(rt; status, Status::Best);
        let mut answered = Vec::from_slice(rt.alloc(), text.as_slice())?;
        answered.extend_from_slice(b"--\n")?;
        answered.extend_from_slice(written.as_slice())?;
        let outcome = judge(
            &rt,
            rt.alloc(),
            answered.as_slice(),
            &CheckOptions { workers: 1 },
        )?;
        assert_eq!(rt; outcome.status, Status::Accepted);
        assert_eq!(rt;
            outcome.text.as_slice(),
            b"ACCEPTED BEST 5 4 44\n".as_slice()
        );
    }
    Ok(())
}
