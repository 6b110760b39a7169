//! Inputs of a check: an instance, a line `--` and an answer.

use super::*;

const ALONE: &str = "DM 1 10\nDM 1 20\nTR 1 1 1\n";

// What stands before the first line `--`, that line and the rest, the exit status and what is
// written.
const CHECKS: [(&str, &str, u8, &str); 74] = [
    // Version 2: lines that delete others.
    (
        TIED,
        "--\nAL 1 10 1\nAL 2 10 1\n--\nBEST 11 1 10\nV 2\nB 11 1 10 0 0 0\nEND\n",
        0,
        "ACCEPTED BEST 11 1 10\n",
    ),
    (
        TIED,
        "--\nAL 1 10 1\nAL 2 10 1\n--\nBEST 11 1 10\nV 2\nB 11 1 10 0 0 0\nD 1 1\nEND\n",
        3,
        "REJECTED 0 NoRootLine\n",
    ),
    (
        TIED,
        "--\nAL 1 10 1\nAL 2 10 1\n--\nBEST 11 1 10\nV 2\nC 12 0 0 1 1 0 0\nD 1 1\nB 11 1 10 0 0 1 0 1\nEND\n",
        3,
        "REJECTED 3 CiteDeleted\n",
    ),
    (
        TIED,
        "--\nAL 1 10 1\nAL 2 10 1\n--\nBEST 11 1 10\nV 2\nD 1 1\nEND\n",
        3,
        "REJECTED 1 DeleteNotEarlier\n",
    ),
    (
        TIED,
        "--\nAL 1 10 1\nAL 2 10 1\n--\nBEST 11 1 10\nV 2\nC 0 0 0 0 0\nD 1 1\nD 1 1\nEND\n",
        3,
        "REJECTED 3 DeletedTwice\n",
    ),
    (
        TIED,
        "--\nAL 1 10 1\nAL 2 10 1\n--\nBEST 11 1 10\nB 11 1 10 0 0 0\nD 1 1\nEND\n",
        65,
        "BADANSWER 13 BadKind\n",
    ),
    (
        TIED,
        "--\nAL 1 10 1\nAL 2 10 1\n--\nBEST 11 1 10\nV 3\nB 11 1 10 0 0 0\nEND\n",
        65,
        "BADANSWER 12 BadNumber\n",
    ),
    (
        TIED,
        "--\nAL 1 10 1\nAL 2 10 1\n--\nBEST 11 1 10\nV 2\nV 2\nB 11 1 10 0 0 0\nEND\n",
        65,
        "BADANSWER 13 BadKind\n",
    ),
    (
        TIED,
        "--\nAL 1 10 1\nAL 2 10 1\n--\nBEST 11 1 10\nV 2\nB 11 1 10 0 0 0\nC 0 0 0 0 0\nD 2 2 2\nEND\n",
        65,
        "BADANSWER 15 BadOrder\n",
    ),
    // Faults of lines and of the root.
    (
        TIED,
        "--\nAL 1 10 1\nAL 2 10 1\n--\nBEST 11 1 10\nB 11 1 10 0 0 0\nEND\n",
        0,
        "ACCEPTED BEST 11 1 10\n",
    ),
    (
        TIED,
        "--\nAL 1 10 1\nAL 2 10 1\n--\nBEST 11 1 10\nC 12 0 0 1 1 0 1 1\nEND\n",
        3,
        "REJECTED 1 CiteNotEarlier\n",
    ),
    (
        TIED,
        "--\nAL 1 10 1\nAL 2 10 1\n--\nBEST 11 1 10\nB 12 0 0 0 0 0\nEND\n",
        3,
        "REJECTED 1 NotDead\n",
    ),
    (
        TIED,
        "--\nAL 1 10 1\nAL 2 10 1\n--\nBEST 11 1 10\nB 11 1 11 0 0 0\nEND\n",
        3,
        "REJECTED 1 NotDead\n",
    ),
    (
        TIED,
        "--\nAL 1 10 1\nAL 2 10 1\n--\nBEST 11 1 10\nB 11 1 10 0 0 0\nB 11 1 11 0 0 1 0 1\nEND\n",
        3,
        "REJECTED 2 CiteTagTooLow\n",
    ),
    (
        TIED,
        "--\nAL 1 10 1\nAL 2 10 1\n--\nBEST 11 1 10\nC 12 0 0 1 1 0 0\nB 11 1 10 0 0 1 0 1\nEND\n",
        3,
        "REJECTED 2 CiteNotContained\n",
    ),
    (
        TIED,
        "--\nAL 1 10 1\nAL 2 10 1\n--\nBEST 11 1 10\nB 11 1 10 1 0 0 0 0\nEND\n",
        3,
        "REJECTED 1 WrongPath\n",
    ),
    (
        TIED,
        "--\nAL 1 10 1\nAL 2 10 1\n--\nBEST 11 1 10\nC 12 0 0 1 1 0 0\nEND\n",
        3,
        "REJECTED 0 NoRootLine\n",
    ),
    (
        TIED,
        "--\nAL 1 10 1\nAL 2 10 1\n--\nBEST 11 1 10\nC 0 0 0 0 0\nEND\n",
        3,
        "REJECTED 0 RootTagTooLow 11 1 10 0 0 0\n",
    ),
    // Faults of the plan and of the text.
    (
        TIED,
        "--\nAL 1 10 1\nAL 2 10 1\n--\nBEST 11 1 9\nB 11 1 10 0 0 0\nEND\n",
        3,
        "REJECTED 0 TripleDiffers 11 1 9 11 1 10\n",
    ),
    (
        TIED,
        "--\nAL 1 10 1\nAL 2 20 1\n--\nBEST 11 1 10\nB 11 1 10 0 0 0\nEND\n",
        3,
        "REJECTED 0 ChoiceNotInDomain\n",
    ),
    (
        TIED,
        "--\nAL 1 10 1\nAL 2 10 -1\n--\nBEST 11 1 10\nB 11 1 10 0 0 0\nEND\n",
        3,
        "REJECTED 0 ImperativeBroken\n",
    ),
    (
        TIED,
        "--\nAL 1 10 1\n--\nBEST 11 1 10\nB 11 1 10 0 0 0\nEND\n",
        3,
        "REJECTED 0 AssignmentLength\n",
    ),
    (
        TIED,
        "--\nAL 1 10 1\nAL 1 10 1\n--\nBEST 11 1 10\nB 11 1 10 0 0 0\nEND\n",
        65,
        "BADANSWER 9 BadOrder\n",
    ),
    (
        TIED,
        "--\nAL 1 10 1\nAL 2 10 1\n--\nBEST 11 0 5\nB 11 1 10 0 0 0\nEND\n",
        65,
        "BADANSWER 11 BadTag\n",
    ),
    (
        TIED,
        "--\nAL 1 10 1\nAL 2 10 1\n--\nBEST 11 1 10\nB 011 1 10 0 0 0\nEND\n",
        65,
        "BADANSWER 12 BadNumber\n",
    ),
    (
        TIED,
        "--\nAL 1 10 1\nAL 2 10 1\n--\nBEST 11 1 10\nB 11 1 10 0 0 0\n",
        65,
        "BADANSWER 13 NoEnd\n",
    ),
    // Cites and tags where no plan is feasible.
    (
        TORN,
        "--\n--\nNONE\nC 12 0 0 1 0 0 0\nC 12 0 0 1 0 1 0\nC 12 0 0 0 0\nEND\n",
        0,
        "ACCEPTED NONE\n",
    ),
    (
        TORN,
        "--\n--\nNONE\nC 12 0 0 1 0 0 0\nC 12 0 0 1 0 1 0\nB 12 0 0 0 0 2 0 1 1 2\nEND\n",
        0,
        "ACCEPTED NONE\n",
    ),
    (
        TORN,
        "--\n--\nNONE\nB 12 0 0 0 0 0\nC 0 0 0 0 0\nEND\n",
        0,
        "ACCEPTED NONE\n",
    ),
    (
        TORN,
        "--\n--\nNONE\nC 0 0 0 0 1 1000000000\nB 12 0 0 0 0 0\nEND\n",
        0,
        "ACCEPTED NONE\n",
    ),
    (
        TORN,
        "--\n--\nNONE\nB 0 0 0 1 0 0 0 1 0 99\nB 12 0 0 0 0 0\nEND\n",
        0,
        "ACCEPTED NONE\n",
    ),
    (
        TORN,
        "--\n--\nNONE\nC 12 0 0 0 0\nEND\n",
        3,
        "REJECTED 1 NotDead\n",
    ),
    (
        TORN,
        "--\n--\nNONE\nC 12 0 0 1 0 0 0\nC 12 0 0 0 1 1\nEND\n",
        3,
        "REJECTED 2 NotDead\n",
    ),
    (
        TORN,
        "--\n--\nNONE\nC 12 0 0 0 1 0\nEND\n",
        3,
        "REJECTED 1 CiteNotEarlier\n",
    ),
    (
        TORN,
        "--\n--\nNONE\nC 12 0 0 0 1 1\nEND\n",
        3,
        "REJECTED 1 CiteNotEarlier\n",
    ),
    (
        TORN,
        "--\n--\nNONE\nB 12 0 0 0 0 1 0 2\nC 12 0 0 1 0 0 0\nEND\n",
        3,
        "REJECTED 1 CiteNotEarlier\n",
    ),
    (
        TORN,
        "--\n--\nNONE\nC 12 0 0 0 1 1000000000\nEND\n",
        3,
        "REJECTED 1 CiteNotEarlier\n",
    ),
    (
        TORN,
        "--\n--\nNONE\nC 12 0 0 1 0 0 0\nC 12 0 0 1 0 1 1 1\nEND\n",
        3,
        "REJECTED 2 CiteNotContained\n",
    ),
    (
        TORN,
        "--\n--\nNONE\nC 12 0 0 1 0 0 0\nB 12 0 0 0 0 1 1 1\nEND\n",
        3,
        "REJECTED 2 CiteNotContained\n",
    ),
    (
        TORN,
        "--\n--\nNONE\nC 11 0 0 1 0 0 0\nC 12 0 0 0 1 1\nEND\n",
        3,
        "REJECTED 2 CiteTagTooLow\n",
    ),
    (
        TORN,
        "--\n--\nNONE\nC 11 0 0 1 0 0 0\nC 11 0 0 1 0 1 0\nC 12 0 0 0 0\nEND\n",
        3,
        "REJECTED 3 NotDead\n",
    ),
    (
        TORN,
        "--\n--\nNONE\nB 12 0 0 1 0 0 0 0\nEND\n",
        3,
        "REJECTED 1 WrongPath\n",
    ),
    (
        TORN,
        "--\n--\nNONE\nC 12 0 0 1 0 0 0\nEND\n",
        3,
        "REJECTED 0 NoRootLine\n",
    ),
    (
        TORN,
        "--\n--\nNONE\nC 11 0 0 0 0\nEND\n",
        3,
        "REJECTED 1 NotDead\n",
    ),
    (
        TORN,
        "--\n--\nNONE\nC 0 0 0 0 0\nEND\n",
        3,
        "REJECTED 0 RootTagTooLow 12 0 0 0 0 0\n",
    ),
    (
        TORN,
        "--\nAL 1 10 1\n--\nNONE\nB 12 0 0 0 0 0\nEND\n",
        3,
        "REJECTED 0 AssignmentLength\n",
    ),
    (
        TORN,
        "--\nAL 1 10 1\nAL 2 30 1\n--\nBEST 0 0 0\nC 0 0 0 0 0\nEND\n",
        3,
        "REJECTED 0 ChoiceNotInDomain\n",
    ),
    (
        TORN,
        "--\nAL 1 10 1\nAL 2 10 1\n--\nBEST 0 0 0\nC 0 0 0 0 0\nEND\n",
        3,
        "REJECTED 0 ImperativeBroken\n",
    ),
    // A path without a record, and open verdicts.
    (
        ALONE,
        "--\nAL 1 10 1\n--\nBEST 0 0 0\nC 0 0 0 0 0\nEND\n",
        0,
        "ACCEPTED BEST 0 0 0\n",
    ),
    (
        ALONE,
        "--\nAL 1 10 1\n--\nBEST 5 1 4\nC 0 0 0 0 0\nEND\n",
        3,
        "REJECTED 0 TripleDiffers 5 1 4 0 0 0\n",
    ),
    (
        ALONE,
        "--\n--\nBEST 0 0 0\nC 0 0 0 0 0\nEND\n",
        3,
        "REJECTED 0 AssignmentLength\n",
    ),
    (
        ALONE,
        "--\n--\nNONE\nB 12 0 0 0 0 0\nEND\n",
        3,
        "REJECTED 1 NotDead\n",
    ),
    (
        ALONE,
        "--\n--\nOPEN 12 0 0 LOWER 0 0 0 AT 0 0\nC 0 0 0 0 0\nEND\n",
        0,
        "ACCEPTED OPEN 12 0 0 LOWER 0 0 0 AT 0 0\n",
    ),
    (
        ALONE,
        "--\nAL 1 20 1\n--\nOPEN 0 0 0 LOWER 0 0 0 AT 0 0\nC 0 0 0 0 0\nEND\n",
        0,
        "ACCEPTED OPEN 0 0 0 LOWER 0 0 0 AT 0 0\n",
    ),
    (
        ALONE,
        "--\nAL 1 20 1\n--\nOPEN 5 1 4 LOWER 0 0 0 AT 5 0\nC 0 0 0 0 0\nEND\n",
        3,
        "REJECTED 0 TripleDiffers 5 1 4 0 0 0\n",
    ),
    (
        ALONE,
        "--\n--\nOPEN 0 0 0 LOWER 0 0 0 AT 0 0\nC 0 0 0 0 0\nEND\n",
        3,
        "REJECTED 0 AssignmentLength\n",
    ),
    (
        ALONE,
        "--\nAL 1 20 1\n--\nOPEN 12 0 0 LOWER 0 0 0 AT 0 0\nC 0 0 0 0 0\nEND\n",
        3,
        "REJECTED 0 AssignmentLength\n",
    ),
    (
        ALONE,
        "--\n--\nOPEN 12 0 0 LOWER 1 0 0 AT 0 0\nC 0 0 0 0 0\nEND\n",
        3,
        "REJECTED 0 RootTagTooLow 1 0 0 0 0 0\n",
    ),
    // Where the instance ends, and lines counted over the whole input.
    (TIED, "", 65, "BADANSWER 0 NoAnswer\n"),
    ("", "", 65, "BADANSWER 0 NoAnswer\n"),
    ("XX 1\n", "", 65, "BADINPUT 1 UnknownRecord\n"),
    ("XX 1\n", "--\n--\nNONE\n", 65, "BADINPUT 1 UnknownRecord\n"),
    (" --\n", "", 65, "BADINPUT 1 UnknownRecord\n"),
    ("--\r\r\n", "", 65, "BADINPUT 1 UnknownRecord\n"),
    (
        "DM 1 5\nTR 1 2 1\n",
        "--\n",
        65,
        "BADINPUT 2 UnknownDomain\n",
    ),
    (
        "",
        "--\n--\nBEST 0 0 0\nC 0 0 0 0 0\nEND\n",
        0,
        "ACCEPTED BEST 0 0 0\n",
    ),
    (
        "",
        "--\r\n--\nBEST 0 0 0\nC 0 0 0 0 0\nEND\n",
        0,
        "ACCEPTED BEST 0 0 0\n",
    ),
    (
        "",
        "--\n--\nOPEN 12 0 0 LOWER 0 0 0 AT 11 0\nC 0 0 0 0 0\nEND\n",
        0,
        "ACCEPTED OPEN 12 0 0 LOWER 0 0 0 AT 11 0\n",
    ),
    ("", "--\n--\r\n", 65, "BADANSWER 2 BadKind\n"),
    ("", "--", 65, "BADANSWER 2 NoEnd\n"),
    ("", "--\r", 65, "BADANSWER 2 NoEnd\n"),
    ("", "--\n--\n--\n", 65, "BADANSWER 3 BadKind\n"),
    (ALONE, "--", 65, "BADANSWER 5 NoEnd\n"),
    (ALONE, "--\n--\nNONE\n", 65, "BADANSWER 7 NoEnd\n"),
];

#[test]
fn each_input_of_a_check_has_its_end(rt: HostRuntime) -> Result<(), Fail> {
    for (instance, rest, code, output) in CHECKS.iter() {
        let input = format!(in rt.alloc(); "{instance}{rest}")?;
        for (words, pieces) in [("check", 1), ("check", 4096), ("check --workers 4", 4096)] {
            let (status, written) = end_of(&rt, rt.alloc(), words, input.as_bytes(), pieces, 0, 0)?;
            assert_eq!(rt; status.code(), *code, "at {input}");
            assert_eq!(rt; written.as_slice(), output.as_bytes(), "at {input}");
        }
    }
    Ok(())
}
