ghost use Rattle.std.specs.Prelude.{◌≤◌};

mod checks;

use super::*;
use fapp_io::{MemSink, MemSource};
use std::alloc::Global;
use std::test::Fail;
use std::thread::Threads;
use worked_networks::{CHAIN, FALLING, FREE, PLAIN, SMALL, TIED, TORN};

const WORDS: &str = "solve --answer-only";

const PLAIN_PLAN: &str = "AL 1 10 1\nAL 2 30 1\n";

const PLAIN_ANSWER: &str = "AL 1 10 1\nAL 2 30 1\n--\nBEST 0 0 0\nC 0 0 0 0 0\nEND\n";

const NOTHING_TO_PLAN: &str = "--\nBEST 0 0 0\nC 0 0 0 0 0\nEND\n";

// One path of one choice.
const SINGLE: &str = "DM 1 5\nTR 9 1 -1\n";

// One of the greatest frequency.
const GREATEST: &str = "DM 1 1000000000\nTR 1 1 1\n";

const CHECKED: &str = "--\n--\nBEST 0 0 0\nC 0 0 0 0 0\nEND\n";

const LENIENT: &str =
    "TR 1 1 1\r\nTR\t2 2 1\r\n\r\nCE  1 2 20 20 20 20 20 20 20 20 20 20 20\r\nDM 2 30\nDM 2 10\nDM 2 020\nDM 2 30\nDM 1 10";

// Words, an input, the exit status and what is written. Each plan is the only one that costs the
// least.
const ENDS: [(&str, &str, u8, &str); 45] = [
    (WORDS, PLAIN, 0, PLAIN_PLAN),
    (WORDS, CHAIN, 0, "AL 1 10 1\nAL 2 20 1\n"),
    (WORDS, "", 0, ""),
    (WORDS, GREATEST, 0, "AL 1 1000000000 1\n"),
    (WORDS, FALLING, 0, "AL 1 10 1\nAL 2 20 1\n"),
    (WORDS, FREE, 0, "AL 1 10 1\nAL 2 10 -1\n"),
    (WORDS, TIED, 0, "AL 1 10 1\nAL 2 10 1\n"),
    (
        WORDS,
        SMALL,
        0,
        "AL 1 1000 1\nAL 2 1100 1\nAL 3 1080 1\nAL 4 1180 -1\n",
    ),
    (WORDS, LENIENT, 0, PLAIN_PLAN),
    (WORDS, TORN, 1, ""),
    ("solve", PLAIN, 0, PLAIN_ANSWER),
    ("solve", LENIENT, 0, PLAIN_ANSWER),
    ("solve", "", 0, NOTHING_TO_PLAN),
    (
        "solve",
        SINGLE,
        0,
        "AL 9 5 -1\n--\nBEST 0 0 0\nC 0 0 0 0 0\nEND\n",
    ),
    (
        "solve",
        GREATEST,
        0,
        "AL 1 1000000000 1\n--\nBEST 0 0 0\nC 0 0 0 0 0\nEND\n",
    ),
    (
        "solve",
        FREE,
        0,
        "AL 1 10 1\nAL 2 10 -1\n--\nBEST 0 0 0\nC 0 0 0 0 0\nEND\n",
    ),
    (
        "solve --cert 2",
        PLAIN,
        0,
        "AL 1 10 1\nAL 2 30 1\n--\nBEST 0 0 0\nV 2\nC 0 0 0 0 0\nEND\n",
    ),
    ("solve --cert 2 --answer-only", PLAIN, 0, PLAIN_PLAN),
    ("solve --cert 3", PLAIN, 64, "USAGE\n"),
    ("demo 7 40", PLAIN, 0, "BEST 5 4 44\n"),
    (
        "solve --split 1 --answer-only --workers=1",
        PLAIN,
        0,
        PLAIN_PLAN,
    ),
    ("solve --answer-only --answer-only", PLAIN, 64, "USAGE\n"),
    ("solve --workers 0", PLAIN, 64, "USAGE\n"),
    ("solve --workers 33", PLAIN, 64, "USAGE\n"),
    ("solve --", PLAIN, 64, "USAGE\n"),
    ("solve --fuel 1 --fuel 1", PLAIN, 64, "USAGE\n"),
    ("--help", PLAIN, 64, "USAGE\n"),
    ("check x", CHECKED, 64, "USAGE\n"),
    ("check --", CHECKED, 64, "USAGE\n"),
    (
        WORDS,
        "DM 1 10\nCE 1 1 0 0 0 0 0 0 0 0 0 0 0\n",
        65,
        "BADINPUT 2 SelfPair\n",
    ),
    (
        WORDS,
        "DM 1 10\nDM 2 20\nTR 1 1 1\nTR 2 2 1\nCE 1 2 20 20 20 20 20 20 20 20 20 20\n",
        65,
        "BADINPUT 5 FieldCount\n",
    ),
    (
        WORDS,
        "DM 1 10\nDM 2 20\nTR 1 1 1\nTR 2 2 1\nCE 1 2 20 20 20 20 20 20 20 20 20 20 21\n",
        65,
        "BADINPUT 5 Increasing\n",
    ),
    (
        WORDS,
        "TR 1 7 1\nCI 1 1 F I 0\n",
        65,
        "BADINPUT 2 SelfPair\n",
    ),
    (
        WORDS,
        "TR 1 7 1\nCI 1 3 F I 0\n",
        65,
        "BADINPUT 1 UnknownDomain\n",
    ),
    (
        WORDS,
        "DM 7 5\nTR 1 7 1\nCI 1 3 F I 0\n",
        65,
        "BADINPUT 3 UnknownPath\n",
    ),
    (WORDS, "XX 1\n", 65, "BADINPUT 1 UnknownRecord\n"),
    (WORDS, "CI 1 2 G E x\n", 65, "BADINPUT 1 BadWord\n"),
    (WORDS, "TR 1 1 2\n", 65, "BADINPUT 1 BadPolarization\n"),
    (
        WORDS,
        "TR 1 1 1\nTR 1 1 1\n",
        65,
        "BADINPUT 2 DuplicatePath\n",
    ),
    (WORDS, "DM 1 1000000001\n", 65, "BADINPUT 1 BadNumber\n"),
    (WORDS, "DM 1", 65, "BADINPUT 1 FieldCount\n"),
    (WORDS, "DM 1 5\rDM 1 6\n", 65, "BADINPUT 1 FieldCount\n"),
    (WORDS, "DM 1 -5\n", 65, "BADINPUT 1 BadNumber\n"),
    (WORDS, "TR 1 1 01\n", 65, "BADINPUT 1 BadPolarization\n"),
    (WORDS, "CI 1 2 F X 5\n", 65, "BADINPUT 1 BadWord\n"),
];

// Words, an input, how many bytes are given and taken in a call, which read or write fails (0:
// none), the exit status and what is written.
const FAULTS: [(&str, &str, usize, u64, u64, u8, &str); 6] = [
    (WORDS, PLAIN, 4096, 1, 0, 66, "READFAULT\n"),
    (WORDS, PLAIN, 4096, 0, 1, 67, ""),
    (WORDS, PLAIN, 4, 0, 3, 67, "AL 1 10 "),
    ("check", CHECKED, 4096, 1, 0, 66, "READFAULT\n"),
    ("check", CHECKED, 4096, 0, 1, 67, ""),
    ("check", CHECKED, 4, 0, 3, 67, "ACCEPTED"),
];

fn words_of(alloc: Global, line: &str) -> Result<Vec<String>, Fail> {
    let mut words = Vec::new(alloc);
    for word in line.split(' ') {
        words.push(String::from_str(alloc, word)?)?;
    }
    Ok(words)
}

/// How the program ends on these words and this input, given and taken in pieces, one call failing
/// (0: none).
fn end_of<R: Threads + Sync>(
    rt: &R,
    alloc: Global,
    words: &str,
    input: &[u8],
    pieces: usize,
    failing_read: u64,
    failing_write: u64,
) -> Result<(Status, Vec<u8>), Fail>
    requires { 1 ≤ pieces }
{
    let bytes = Vec::from_slice(alloc, input)?;
    let mut source = MemSource::new(bytes, pieces, vec![in alloc; failing_read]?);
    let mut sink = MemSink::new(alloc, 100_000, pieces, vec![in alloc; failing_write]?)?;
    let words = words_of(alloc, words)?;
    let status = run(rt, alloc, &words, &mut source, &mut sink, &OpenGate);
    Ok((status, Vec::from_slice(alloc, sink.taken())?))
}

#[test]
fn each_input_has_its_end(rt: HostRuntime) -> Result<(), Fail> {
    for (words, input, code, output) in ENDS.iter() {
        for pieces in [1, 3, 4096] {
            let (status, written) = end_of(&rt, rt.alloc(), words, input.as_bytes(), pieces, 0, 0)?;
            assert_eq!(rt; status.code(), *code, "at {words} {input}");
            assert_eq!(rt; written.as_slice(), output.as_bytes(), "at {words} {input}");
        }
    }
    Ok(())
}

#[test]
fn a_refusal_is_the_same_with_a_certificate(rt: HostRuntime) -> Result<(), Fail> {
    for (words, input, code, output) in ENDS.iter() {
        if *words == WORDS && *code == 65 {
            let (status, written) = end_of(&rt, rt.alloc(), "solve", input.as_bytes(), 4096, 0, 0)?;
            assert_eq!(rt; status.code(), 65, "at {input}");
            assert_eq!(rt; written.as_slice(), output.as_bytes(), "at {input}");
        }
    }
    Ok(())
}

#[test]
fn bytes_alone_have_their_answer(rt: HostRuntime) -> Result<(), Fail> {
    let options = SolveOptions {
        workers: 2,
        fuel: None,
        split: 64,
        pool: 0,
        cert: 1,
        answer_only: true,
    };
    let reply = answer(&rt, rt.alloc(), PLAIN.as_bytes(), &options, &OpenGate)?;
    assert_eq!(rt; reply.status, Status::Best);
    assert_eq!(rt; reply.text.as_slice(), PLAIN_PLAN.as_bytes());
    Ok(())
}

#[test]
fn each_fault_has_its_end(rt: HostRuntime) -> Result<(), Fail> {
    for (words, input, most, failing_read, failing_write, code, output) in FAULTS.iter() {
        let (status, written) = end_of(
            &rt,
            rt.alloc(),
            words,
            input.as_bytes(),
            (*most).max(1),
            *failing_read,
            *failing_write,
        )?;
        assert_eq!(rt;
            status.code(),
            *code,
            "at {words} {failing_read} {failing_write}"
        );
        assert_eq!(rt;
            written.as_slice(),
            output.as_bytes(),
            "at {words} {failing_read} {failing_write}"
        );
    }
    Ok(())
}

#[test]
fn any_call_may_fail(rt: HostRuntime) -> Result<(), Fail> {
    let input = PLAIN.as_bytes();
    // The 90 bytes are read by seven calls, the last of which finds the end.
    for call in 1..8 {
        let (status, written) = end_of(&rt, rt.alloc(), WORDS, input, 16, call, 0)?;
        assert_eq!(rt; status, Status::ReadFault, "at call {call}");
        assert_eq!(rt;
            written.as_slice(),
            b"READFAULT\n".as_slice(),
            "at call {call}"
        );
    }
    // The 20 bytes are written by five.
    for call in 1..6 {
        let (status, written) = end_of(&rt, rt.alloc(), WORDS, input, 4, 0, call)?;
        assert_eq!(rt; status, Status::WriteFault, "at call {call}");
        let front = PLAIN_PLAN.as_bytes().get(..4 * (call as usize - 1));
        assert_eq!(rt; Some(written.as_slice()), front, "at call {call}");
    }
    Ok(())
}

#[test]
fn the_longest_input_is_read(rt: HostRuntime) -> Result<(), Fail> {
    for (length, code, output) in [
        (134_217_728, 0, NOTHING_TO_PLAN),
        (134_217_729, 65, "BADINPUT 0 TooLong\n"),
    ] {
        let feeds = vec![in rt.alloc(); b'\n'; length]?;
        let (status, written) = end_of(&rt, rt.alloc(), "solve", &feeds, 4096, 0, 0)?;
        assert_eq!(rt; status.code(), code);
        assert_eq!(rt; written.as_slice(), output.as_bytes());
    }
    Ok(())
}

/// A text of so many paths, each of which has one choice, and their plan.
fn paths_of_one_choice(alloc: Global, paths: u16) -> Result<(String, String), Fail> {
    let mut text = String::from_str(alloc, "DM 1 5\n")?;
    let mut plan = String::new(alloc);
    for number in 1..u32::from(paths) + 1 {
        writeln!(text, "TR {number} 1 1")?;
        writeln!(plan, "AL {number} 5 1")?;
    }
    Ok((text, plan))
}

#[test]
fn the_most_paths_are_planned(rt: HostRuntime) -> Result<(), Fail> {
    let (text, plan) = paths_of_one_choice(rt.alloc(), 8192)?;
    let input = text.as_bytes();
    let (status, written) = end_of(&rt, rt.alloc(), WORDS, input, 4096, 0, 0)?;
    assert_eq!(rt; status, Status::Best);
    assert!(rt; written.as_slice() == plan.as_bytes());
    let (status, written) = end_of(&rt, rt.alloc(), "solve", input, 4096, 0, 0)?;
    assert_eq!(rt; status, Status::Best);
    let whole = format!(in rt.alloc(); "{plan}{NOTHING_TO_PLAN}")?;
    assert!(rt; written.as_slice() == whole.as_bytes());
    let both = format!(in rt.alloc(); "{text}--\n{whole}")?;
    let (status, written) = end_of(&rt, rt.alloc(), "check", both.as_bytes(), 4096, 0, 0)?;
    assert_eq!(rt; status, Status::Accepted);
    assert_eq!(rt; written.as_slice(), b"ACCEPTED BEST 0 0 0\n".as_slice());
    Ok(())
}

#[test]
fn one_path_more_is_refused(rt: HostRuntime) -> Result<(), Fail> {
    let (text, _) = paths_of_one_choice(rt.alloc(), 8193)?;
    for words in [WORDS, "solve"] {
        let (status, written) = end_of(&rt, rt.alloc(), words, text.as_bytes(), 4096, 0, 0)?;
        assert_eq!(rt; status.code(), 65);
        assert_eq!(rt;
            written.as_slice(),
            b"BADINPUT 8194 TooManyPaths\n".as_slice()
        );
    }
    Ok(())
}
