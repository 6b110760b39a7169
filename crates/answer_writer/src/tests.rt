use super::*;
use cert_lines::{Answer, Verdict};
use fapp_model::{Choice, Instance, Items, Path, Triple, tag_of};
use std::test::Fail;

// Statuses, with their codes and the lines that tell of them.
const ENDS: [(Status, u8, &str); 15] = [
    (Status::Best, 0, ""),
    (Status::Accepted, 0, ""),
    (Status::Written, 0, ""),
    (Status::NoneFeasible, 1, ""),
    (Status::Open, 2, ""),
    (
        Status::Rejected(Rejected {
            line: 2,
            cause: RejectCause::NotDead,
        }),
        3,
        "REJECTED 2 NotDead\n",
    ),
    (
        Status::Rejected(Rejected {
            line: 0,
            cause: RejectCause::TripleDiffers {
                claimed: Triple { k: 11, v: 1, s: 9 },
                found: Triple { k: 11, v: 1, s: 10 },
            },
        }),
        3,
        "REJECTED 0 TripleDiffers 11 1 9 11 1 10\n",
    ),
    (
        Status::BadInput(BadInput {
            line: 3,
            cause: Cause::SelfPair,
        }),
        65,
        "BADINPUT 3 SelfPair\n",
    ),
    (
        Status::BadAnswer(BadCert {
            line: 12,
            cause: CertCause::BadNumber,
        }),
        65,
        "BADANSWER 12 BadNumber\n",
    ),
    (Status::Usage, 64, "USAGE\n"),
    (Status::TooLong, 65, "BADINPUT 0 TooLong\n"),
    (Status::NoAnswer, 65, "BADANSWER 0 NoAnswer\n"),
    (Status::ReadFault, 66, "READFAULT\n"),
    (Status::WriteFault, 67, ""),
    (Status::NoMemory, 68, ""),
];

#[test]
fn each_status_has_its_code_and_line(rt: HostRuntime) -> Result<(), Fail> {
    for (status, code, line) in ENDS.iter() {
        assert_eq!(rt; status.code(), *code);
        assert_eq!(rt;
            refusal_text(rt.alloc(), status)?.as_slice(),
            line.as_bytes()
        );
    }
    Ok(())
}

#[test]
fn both_tags_are_written_where_they_differ(rt: HostRuntime) -> Result<(), Fail> {
    let status = Status::Rejected(Rejected {
        line: 0,
        cause: RejectCause::RootTagTooLow {
            claimed: tag_of(Triple { k: 12, v: 0, s: 0 }),
            found: tag_of(Triple { k: 5, v: 1, s: 4 }),
        },
    });
    assert_eq!(rt;
        refusal_text(rt.alloc(), &status)?.as_slice(),
        b"REJECTED 0 RootTagTooLow 12 0 0 5 1 4\n".as_slice()
    );
    Ok(())
}

#[test]
fn an_answer_or_its_plan_is_written(rt: HostRuntime) -> Result<(), Fail> {
    let mut paths = Items::new(rt.alloc());
    let freqs = Items::from_vec(vec![in rt.alloc(); 10]?);
    let path = Path {
        number: 7,
        freqs,
        pol: 1,
    };
    paths.push(path)?;
    let instance = Instance {
        paths,
        records: Items::new(rt.alloc()),
    };
    let answer = Answer {
        version: 1,
        plan: Items::from_vec(vec![in rt.alloc(); Choice { freq: 10, pol: 1 }]?),
        verdict: Verdict::Best(Triple { k: 0, v: 0, s: 0 }),
        lines: Items::new(rt.alloc()),
    };
    let whole = answer_text(rt.alloc(), &instance, &answer, false)?;
    assert_eq!(rt;
        whole.as_slice(),
        b"AL 7 10 1\n--\nBEST 0 0 0\nEND\n".as_slice()
    );
    let plan = answer_text(rt.alloc(), &instance, &answer, true)?;
    assert_eq!(rt; plan.as_slice(), b"AL 7 10 1\n".as_slice());
    let line = accepted_text(rt.alloc(), &answer.verdict)?;
    assert_eq!(rt; line.as_slice(), b"ACCEPTED BEST 0 0 0\n".as_slice());
    Ok(())
}
