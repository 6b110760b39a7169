ghost use Rattle.std.specs.Prelude.{◌≡◌, ◌∷◌, [], IfOk};
ghost use Rattle.fapp_model.specs.Instances.{IsInstance};
ghost use Rattle.cert_lines.specs.WellFormed.{IsWellFormed};

use super::*;
use fapp_model::{Instance, Items, Path};
use std::alloc::{AllocError, Global};
use std::test::Fail;

fn path(alloc: Global, number: u32, freqs: &[u32], pol: i8) -> Result<Path, AllocError>
    ensures { IfOk result (λ p. p ≡ record { number = number; freqs = freqs.now; pol = pol }) }
{
    Ok(Path {
        number,
        freqs: Items::from_vec(Vec::from_slice(alloc, freqs)?),
        pol,
    })
}

/// Path 1 has one choice, and path 2 has two.
fn pair(alloc: Global) -> Result<Instance, AllocError>
    ensures { IfOk result (λ instance. IsInstance instance) }
{
    let mut paths = Items::new(alloc);
    paths.push(path(alloc, 1, &[10], 1)?)?;
    paths.push(path(alloc, 2, &[10], 0)?)?;
    Ok(Instance {
        paths,
        records: Items::new(alloc),
    })
}

/// Each of three paths has two choices.
fn triangle(alloc: Global) -> Result<Instance, AllocError>
    ensures { IfOk result (λ instance. IsInstance instance) }
{
    let mut paths = Items::new(alloc);
    paths.push(path(alloc, 1, &[10, 20], 1)?)?;
    paths.push(path(alloc, 2, &[10, 20], 1)?)?;
    paths.push(path(alloc, 3, &[10, 20], 1)?)?;
    Ok(Instance {
        paths,
        records: Items::new(alloc),
    })
}

fn fault_of(alloc: Global, instance: &Instance, text: &str) -> Option<(u32, CertCause)>
    requires { IsInstance instance.now }
{
    if text.len() > 4096 {
        return None;
    }
    match read_answer(alloc, instance, text.as_bytes()) {
        Err(AnswerError::Bad(bad)) => Some((bad.line, bad.cause)),
        _ => None,
    }
}

/// Whether a text is read, and the answer is written as the same text.
fn is_kept(alloc: Global, instance: &Instance, text: &str) -> bool
    requires { IsInstance instance.now }
{
    if text.len() > 4096 {
        return false;
    }
    let Ok(answer) = read_answer(alloc, instance, text.as_bytes()) else {
        return false;
    };
    let Ok(written) = write_answer(alloc, instance, &answer) else {
        return false;
    };
    written.as_slice() == text.as_bytes() && is_in_parts(alloc, instance, &answer, text)
}

/// Whether a text is an answer's head, its certificate lines and the line `END`, and the head ends
/// as it must.
fn is_in_parts(alloc: Global, instance: &Instance, answer: &Answer, text: &str) -> bool
    requires { IsWellFormed instance.now answer.now }
{
    let Ok(head) = head_text(alloc, instance, answer) else {
        return false;
    };
    let Ok(lines) = lines_text(alloc, answer.lines.as_slice()) else {
        return false;
    };
    let Ok(verdict) = verdict_text(alloc, &answer.verdict) else {
        return false;
    };
    let Some(rest) = text.as_bytes().strip_prefix(head.as_slice()) else {
        return false;
    };
    let Some(end) = rest.strip_prefix(lines.as_slice()) else {
        return false;
    };
    ends_in_verdict(head.as_slice(), verdict.as_slice(), answer.version)
        && end == b"END\n".as_slice()
}

/// Whether a head ends with a verdict, and the line that says version 2 where it is that.
fn ends_in_verdict(head: &[u8], verdict: &[u8], version: u32) -> bool {
    if version == 1 {
        return head.ends_with(verdict);
    }
    let Some(front) = head.strip_suffix(b"V 2\n".as_slice()) else {
        return false;
    };
    front.ends_with(verdict)
}

const FAULTS: [(&str, u32, CertCause); 53] = [
    ("", 1, CertCause::NoEnd),
    ("AL", 1, CertCause::NoEnd),
    ("AL 1 10 1\n", 2, CertCause::NoEnd),
    ("--\nNONE\nC 12 0 0 0 0\n", 4, CertCause::NoEnd),
    ("--\nNONE\nC 12 0 0 0 0\nEND", 4, CertCause::NoEnd),
    ("--\nNONE\nEND\n\n", 4, CertCause::AfterEnd),
    (
        "AL 1 10 1\nAL 2 10 1\n--\nBEST 11 1 10\nB 11 1 10 0 0 0\nEND\nx",
        7,
        CertCause::AfterEnd,
    ),
    ("AM 1 10 1\n", 1, CertCause::BadKind),
    ("\n", 1, CertCause::BadKind),
    (" AL 1 10 1\n", 1, CertCause::BadKind),
    ("--\r\n", 1, CertCause::BadKind),
    ("--\nWORST\n", 2, CertCause::BadKind),
    (
        "--\nOPEN 12 0 0 UPPER 0 0 0 AT 0 0\n",
        2,
        CertCause::BadKind,
    ),
    (
        "AL 1 10 1\nAL 2 10 1\n--\nBEST 11 1 10\nX 1\n",
        5,
        CertCause::BadKind,
    ),
    ("-- 1\n", 1, CertCause::FieldCount),
    ("AL 1 10\n", 1, CertCause::FieldCount),
    ("AL 1 10 1 \n", 1, CertCause::FieldCount),
    ("--\nNONE 0\n", 2, CertCause::FieldCount),
    (
        "AL 1 10 1\nAL 2 10 1\n--\nBEST 11 1 10\nC 11 1 10 1000000000 0\nEND\n",
        5,
        CertCause::FieldCount,
    ),
    (
        "AL 1 10 1\nAL 2 10 1\n--\nBEST 11 1 10\nB 11 1 10 0 0 0\nEND x\n",
        6,
        CertCause::FieldCount,
    ),
    ("AL 1  10 1\n", 1, CertCause::BadNumber),
    ("AL 01 10 1\n", 1, CertCause::BadNumber),
    ("AL 1 1000000001 1\n", 1, CertCause::BadNumber),
    ("AL 1 10 0\n", 1, CertCause::BadNumber),
    (
        "--\nOPEN 12 0 0 LOWER 0 0 0 AT 12 0\n",
        2,
        CertCause::BadNumber,
    ),
    (
        "AL 1 10 1\nAL 2 10 1\n--\nBEST 11 1 10\nB 011 1 10 0 0 0\nEND\n",
        5,
        CertCause::BadNumber,
    ),
    (
        "AL 1 10 1\nAL 2 10 1\n--\nBEST 11 1 10\nC 4294967296 0 0 0 0\nEND\n",
        5,
        CertCause::BadNumber,
    ),
    (
        "AL 1 10 1\nAL 2 10 1\n--\nBEST 11 0 5\n",
        4,
        CertCause::BadTag,
    ),
    ("--\nBEST 12 1 0\n", 2, CertCause::BadTag),
    ("--\nBEST 12 0 0\n", 2, CertCause::BadTag),
    ("--\nOPEN 11 0 0 LOWER 0 0 0 AT 0 0\n", 2, CertCause::BadTag),
    (
        "AL 1 10 1\nAL 2 10 1\n--\nBEST 11 1 10\nC 13 0 0 0 0\nEND\n",
        5,
        CertCause::BadTag,
    ),
    (
        "AL 1 10 1\nAL 1 10 1\n--\nBEST 11 1 10\n",
        2,
        CertCause::BadOrder,
    ),
    ("AL 2 10 1\n", 1, CertCause::BadOrder),
    (
        "AL 1 10 1\nAL 2 10 1\n--\nBEST 11 1 10\nC 11 1 10 2 0 0 0 0 0\nEND\n",
        5,
        CertCause::BadOrder,
    ),
    ("--\nNONE\nC 12 0 0 0 2 3 3\n", 3, CertCause::BadOrder),
    ("AL 99\n", 1, CertCause::UnknownPath),
    (
        "AL 1 10 1\nAL 2 10 1\n--\nBEST 11 1 10\nC 11 1 10 1 2 0 0\nEND\n",
        5,
        CertCause::UnknownPath,
    ),
    (
        "AL 1 10 1\nAL 2 10 1\n--\nBEST 11 1 10\nB 11 1 10 0 0 1 1 1\nEND\n",
        5,
        CertCause::UnknownChoice,
    ),
    (
        "--\nOPEN 12 0 0 LOWER 0 0 0 AT 11 1 1 2\n",
        2,
        CertCause::UnknownChoice,
    ),
    ("--\nNONE\nD 1 1\nEND\n", 3, CertCause::BadKind),
    (
        "--\nNONE\nC 12 0 0 0 0\nD 1 1\nEND\n",
        4,
        CertCause::BadKind,
    ),
    ("--\nNONE\nV 2\nV 2\nEND\n", 4, CertCause::BadKind),
    ("--\nNONE\nC 12 0 0 0 0\nV 2\n", 4, CertCause::BadKind),
    ("--\nNONE\nVV 2\n", 3, CertCause::BadKind),
    ("--\nNONE\nV\n", 3, CertCause::FieldCount),
    ("--\nNONE\nV 2 2\n", 3, CertCause::FieldCount),
    ("--\nNONE\nV 2\nD 2 1\n", 4, CertCause::FieldCount),
    ("--\nNONE\nV 3 x\n", 3, CertCause::BadNumber),
    ("--\nNONE\nV 02\n", 3, CertCause::BadNumber),
    ("--\nNONE\nV 2\nD 2 2 2\n", 4, CertCause::BadOrder),
    ("--\nNONE\nV 2", 3, CertCause::NoEnd),
    ("--\nNONE\nV 2\nEND\n\n", 5, CertCause::AfterEnd),
];

#[test]
fn faults(rt: HostRuntime) -> Result<(), Fail> {
    let instance = pair(rt.alloc())?;
    for (text, line, cause) in FAULTS {
        assert_eq!(rt;
            fault_of(rt.alloc(), &instance, text),
            Some((line, cause)),
            "{text:?}"
        );
    }
    Ok(())
}

const PAIR_TEXTS: [&str; 6] = [
    "AL 1 10 1\nAL 2 30 1\n--\nBEST 0 0 0\nC 0 0 0 0 0\nEND\n",
    "AL 1 10 1\nAL 2 10 1\n--\nBEST 11 1 10\nB 11 1 10 0 0 0\nEND\n",
    "AL 1 10 1\nAL 2 20 -1\n--\nBEST 5 1 4\nB 5 1 4 0 1 2 0 1 1 3\nEND\n",
    "--\nNONE\nB 12 0 0 1 0 0 1 2 0 1 1 2\nC 12 0 0 0 2 1 9\nEND\n",
    "AL 1 10 1\nAL 2 30 1\n--\nBEST 0 0 0\nV 2\nEND\n",
    "--\nNONE\nV 2\nD 0\nC 12 0 0 0 2 1 9\nD 2 1 7\nEND\n",
];

const TRIANGLE_TEXTS: [&str; 3] = [
    "AL 1 10 1\nAL 2 10 1\nAL 3 20 1\n--\nBEST 11 1 10\nC 11 1 10 0 0\nEND\n",
    "--\nNONE\nC 12 0 0 1 0 0 0\nC 12 0 0 1 0 1 0\nC 12 0 0 0 0\nEND\n",
    "--\nOPEN 12 0 0 LOWER 11 0 0 AT 11 3 0 0 1 0 2 0\nC 11 0 0 0 0\nEND\n",
];

#[test]
fn texts(rt: HostRuntime) -> Result<(), Fail> {
    let instance = pair(rt.alloc())?;
    for text in PAIR_TEXTS {
        assert!(rt; is_kept(rt.alloc(), &instance, text), "{text:?}");
    }
    let instance = triangle(rt.alloc())?;
    for text in TRIANGLE_TEXTS {
        assert!(rt; is_kept(rt.alloc(), &instance, text), "{text:?}");
    }
    Ok(())
}
