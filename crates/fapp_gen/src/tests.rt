use super::*;
use std::test::Fail;

#[test]
fn three_paths_are_made_from_seven(rt: HostRuntime) -> Result<(), Fail> {
    let text = generate(rt.alloc(), 7, 3)?;
    let text = text.as_slice();
    assert_eq!(rt; text.get(..10), Some(b"DM 1 1000\n".as_slice()));
    assert_eq!(rt; text.get(190..200), Some(b"DM 2 3090\n".as_slice()));
    assert_eq!(rt; text.get(200..), Some(RECORDS.as_bytes()));
    Ok(())
}

#[test]
fn two_paths_have_no_records_but_their_own(rt: HostRuntime) -> Result<(), Fail> {
    let text = generate(rt.alloc(), 0, 2)?;
    assert_eq!(rt; text.as_slice().get(200..), Some(PAIR.as_bytes()));
    Ok(())
}

const PAIR: &str =
    "TR 1 1 0\nTR 2 1 0\nCE 1 2 50 45 40 35 30 25 20 15 10 5 0\nCD 1 2 0 0 0 0 0 0 0 0 0 0 0\n";

const RECORDS: &str =
    "TR 1 1 0\nTR 2 1 0\nTR 3 2 0\nCE 1 2 50 45 40 35 30 25 20 15 10 5 0\nCD 1 2 0 0 0 0 0 0 0 0 0 0 0\nCI 1 3 F E 2020\nCI 1 3 P E 0\nCE 2 3 2010 2000 1990 1980 1970 1960 1950 1940 1930 1920 1910\nCD 2 3 1980 1970 1960 1950 1940 1930 1920 1910 1900 1890 1880\n";
