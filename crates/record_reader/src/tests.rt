use crate::{BadInput, Cause, ReadError, read_instance};
use fapp_model::Record;
use fapp_text::MAX_TEXT;
use std::alloc::{AllocError, Global};

fn refusal(alloc: Global, text: &[u8]) -> Option<(u32, Cause)> {
    if text.len() > MAX_TEXT {
        return None;
    }
    match read_instance(alloc, text) {
        Err(ReadError::Bad(BadInput { line, cause })) => Some((line, cause)),
        _ => None,
    }
}

#[test]
fn refuses_lines_by_themselves(rt: HostRuntime) {
    for (text, line, cause) in [
        (
            &b"DM 1 10\nDM 2 20\nTR 1 1 1\nTR 2 2 1\nCE 1 2 20 20 20 20 20 20 20 20 20 20"[..],
            5,
            Cause::FieldCount,
        ),
        (
            b"DM 1 10\nDM 2 20\nTR 1 1 1\nTR 2 2 1\nCE 1 2 20 20 20 20 20 20 20 20 20 20 21",
            5,
            Cause::Increasing,
        ),
        (b"\xff\n", 1, Cause::UnknownRecord),
        (b"XX 1", 1, Cause::UnknownRecord),
        (b"DM 1", 1, Cause::FieldCount),
        (b"DM 1 5\rDM 1 6\n", 1, Cause::FieldCount),
        (b"DM 1 99999999999999999999", 1, Cause::BadNumber),
        (b"DM 1 1000000001", 1, Cause::BadNumber),
        (b"DM 1 -5", 1, Cause::BadNumber),
        (b"TR 1 1 01", 1, Cause::BadPolarization),
        (b"TR 1 1 2", 1, Cause::BadPolarization),
        (b"CI 1 2 F X 5", 1, Cause::BadWord),
        (b"CI 1 2 G E x", 1, Cause::BadWord),
    ] {
        assert_eq!(rt; refusal(rt.alloc(), text), Some((line, cause)));
    }
}

#[test]
fn refuses_lines_by_others(rt: HostRuntime) {
    for (text, line, cause) in [
        (&b"TR 1 7 1\nCI 1 1 F I 0"[..], 2, Cause::SelfPair),
        (b"TR 1 7 1\nCI 1 3 F I 0", 1, Cause::UnknownDomain),
        (b"DM 7 5\nTR 1 7 1\nCI 1 3 F I 0", 3, Cause::UnknownPath),
        (b"TR 1 1 1\nTR 1 1 1", 2, Cause::DuplicatePath),
        (b"\n \t\r\nTR 1 1 1\n\nTR 01 1 1", 5, Cause::DuplicatePath),
        (b"CI 1 2 F I 0\nTR 1 7 1", 1, Cause::UnknownPath),
    ] {
        assert_eq!(rt; refusal(rt.alloc(), text), Some((line, cause)));
    }
}

#[test]
fn reads_lenient_text(rt: HostRuntime) {
    let text =
        b"TR 1 1 1\r\nTR\t2 2 1\r\n\r\nCE  1 2 20 20 20 20 20 20 20 20 20 20 20\r\nDM 2 30\nDM 2 10\nDM 2 020\nDM 2 30\nDM 1 10";
    let Ok(instance) = read_instance(rt.alloc(), text) else {
        assert!(rt; false, "refused");
        return;
    };
    let paths = instance.paths.as_slice();
    assert_eq!(rt; paths.len(), 2);
    assert_eq!(rt; paths[0].freqs.as_slice(), &[10][..]);
    assert_eq!(rt; paths[1].number, 2);
    assert_eq!(rt; paths[1].pol, 1);
    assert_eq!(rt; paths[1].freqs.as_slice(), &[10, 20, 30][..]);
    let records = instance.records.as_slice();
    assert_eq!(rt; records.len(), 1);
    assert!(rt;
        matches!(
            &records[0],
            Record::Same {
                i: 0,
                j: 1,
                dist: [20, 20, 20, 20, 20, 20, 20, 20, 20, 20, 20]
            }
        )
    );
}

/// So many frequencies of one domain, and so many paths of one polarization, but for the last one.
fn text_of(alloc: Global, frequencies: u32, paths: u32, last: &str) -> Result<String, AllocError> {
    let mut text = String::new(alloc);
    for frequency in 0..frequencies {
        text.push_str(format!(in alloc; "DM 1 {frequency}\n")?.as_str())?;
    }
    for number in 1..paths {
        text.push_str(format!(in alloc; "TR {number} 1 1\n")?.as_str())?;
    }
    text.push_str(format!(in alloc; "TR {paths} 1 {last}\n")?.as_str())?;
    Ok(text)
}

#[test]
fn keeps_the_limits(rt: HostRuntime) -> Result<(), AllocError> {
    let most = text_of(rt.alloc(), 1, 8_192, "1")?;
    assert_eq!(rt; refusal(rt.alloc(), most.as_bytes()), None);
    let more = text_of(rt.alloc(), 1, 8_193, "1")?;
    assert_eq!(rt;
        refusal(rt.alloc(), more.as_bytes()),
        Some((8_194, Cause::TooManyPaths))
    );
    let fixed = text_of(rt.alloc(), 512, 8_192, "1")?;
    assert_eq!(rt; refusal(rt.alloc(), fixed.as_bytes()), None);
    let free = text_of(rt.alloc(), 512, 8_192, "0")?;
    assert_eq!(rt;
        refusal(rt.alloc(), free.as_bytes()),
        Some((8_704, Cause::TooManyChoices))
    );
    let domain = text_of(rt.alloc(), 32_769, 1, "1")?;
    assert_eq!(rt;
        refusal(rt.alloc(), domain.as_bytes()),
        Some((32_769, Cause::DomainTooLarge))
    );
    Ok(())
}

#[test]
fn prints_refusals(rt: HostRuntime) -> Result<(), AllocError> {
    let Err(error) = read_instance(rt.alloc(), b"DM 1 10\nTR 1 1 7") else {
        assert!(rt; false, "not refused");
        return Ok(());
    };
    let text = error.to_string(rt.alloc())?;
    assert_eq!(rt; text.as_str(), "line 2: BadPolarization");
    assert_eq!(rt; Cause::TooManyChoices.number(), 15);
    Ok(())
}
