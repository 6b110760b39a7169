// What no clause says: that the calls succeed with ample memory, and what each read is offered.
ghost use Rattle.std.specs.Prelude.{◌≤◌};

use super::*;
use std::alloc::{AllocError, Global};
use std::process::Abort;
use std::test::Fail;

const WORD: &[u8] = b"bytes";

fn word_by(alloc: Global, most: usize, fails: &[u64]) -> Result<MemSource, AllocError>
    requires { 1 ≤ most }
{
    Ok(MemSource::new(WORD.to_vec(alloc)?, most, fails.to_vec(alloc)?))
}

fn reads_whole_by(rt: &impl Abort, alloc: Global, most: usize) -> Result<(), Fail>
    requires { 1 ≤ most }
{
    let mut source = word_by(alloc, most, &[])?;
    let given = read_all(alloc, &mut source, 5)?;
    assert_eq!(rt; given.as_slice(), WORD);
    let rest = read_all(alloc, &mut source, 5)?;
    assert!(rt; rest.is_empty());
    Ok(())
}

#[test]
fn reads_the_whole_in_any_pieces(rt: HostRuntime) -> Result<(), Fail> {
    let alloc = rt.alloc();
    reads_whole_by(&rt, alloc, 1)?;
    reads_whole_by(&rt, alloc, 3)?;
    reads_whole_by(&rt, alloc, 4096)
}

#[test]
fn a_fault_in_mid_stream_loses_no_byte(rt: HostRuntime) -> Result<(), Fail> {
    let alloc = rt.alloc();
    let mut source = word_by(alloc, 2, &[2])?;
    assert!(rt; matches!(read_all(alloc, &mut source, 5), Err(ReadEnd::ReadFault)));
    let rest = read_all(alloc, &mut source, 5)?;
    assert_eq!(rt; rest.as_slice(), b"tes".as_slice());
    Ok(())
}

#[test]
fn one_byte_past_the_limit_is_too_long(rt: HostRuntime) -> Result<(), Fail> {
    let alloc = rt.alloc();
    let mut source = word_by(alloc, 5, &[])?;
    assert!(rt; matches!(read_all(alloc, &mut source, 2), Err(ReadEnd::TooLong)));
    let rest = read_all(alloc, &mut source, 2)?;
    assert_eq!(rt; rest.as_slice(), b"es".as_slice());
    Ok(())
}

#[test]
fn a_read_is_offered_4096_bytes(rt: HostRuntime) -> Result<(), Fail> {
    let alloc = rt.alloc();
    let mut source = MemSource::new(vec![in alloc; 7; 5000]?, 5000, [2].to_vec(alloc)?);
    assert!(rt; matches!(read_all(alloc, &mut source, 5000), Err(ReadEnd::ReadFault)));
    let rest = read_all(alloc, &mut source, 5000)?;
    assert_eq!(rt; rest.len(), 904);
    Ok(())
}

#[test]
fn writes_in_pieces_up_to_a_fault(rt: HostRuntime) -> Result<(), Fail> {
    let alloc = rt.alloc();
    let mut sink = MemSink::new(alloc, 6, 2, [3].to_vec(alloc)?)?;
    assert_eq!(rt; write_all(&mut sink, WORD), Err(WriteEnd::WriteFault));
    assert_eq!(rt; sink.taken(), b"byte".as_slice());
    write_all(&mut sink, b"s")?;
    assert_eq!(rt; sink.taken(), WORD);
    assert_eq!(rt; write_all(&mut sink, b"!!"), Err(WriteEnd::WriteFault));
    assert_eq!(rt; sink.taken(), b"bytes!".as_slice());
    Ok(())
}

#[test]
fn a_write_is_offered_all_that_is_left(rt: HostRuntime) -> Result<(), Fail> {
    let alloc = rt.alloc();
    let piece = vec![in alloc; 7; 15_000]?;
    let mut sink = MemSink::new(alloc, 20_000, 10_000, [2].to_vec(alloc)?)?;
    assert_eq!(rt; write_all(&mut sink, &piece), Err(WriteEnd::WriteFault));
    assert_eq!(rt; sink.taken().len(), 10_000);
    Ok(())
}

#[test]
fn each_refusal_is_told_in_words(rt: HostRuntime) -> Result<(), Fail> {
    let alloc = rt.alloc();
    for (end, words) in [
        (ReadEnd::ReadFault, "the source failed"),
        (ReadEnd::TooLong, "there are more bytes than the limit"),
        (ReadEnd::NoMemory, "there was no memory"),
    ] {
        assert_eq!(rt; format!(in alloc; "{end}")?.as_str(), words);
    }
    let told = format!(in alloc; "{}", WriteEnd::WriteFault)?;
    assert_eq!(rt; told.as_str(), "the sink failed");
    let told = format!(in alloc; "{}", Failed)?;
    assert_eq!(rt; told.as_str(), "a call of a source or a sink failed");
    Ok(())
}

#[test]
fn reads_and_writes_by_std(rt: HostRuntime) -> Result<(), Fail> {
    let alloc = rt.alloc();
    let mut source = StdSource::new(WORD);
    let given = read_all(alloc, &mut source, 5)?;
    assert_eq!(rt; given.as_slice(), WORD);
    let mut all = Vec::new(alloc);
    write_all(&mut StdSink::new(&mut all), &given)?;
    assert_eq!(rt; all.as_slice(), WORD);
    Ok(())
}

#[test]
fn a_full_writer_is_a_fault(rt: HostRuntime) -> Result<(), Fail> {
    let mut room = [0; 3];
    let mut sink = StdSink::new(room.as_mut_slice());
    assert_eq!(rt; write_all(&mut sink, WORD), Err(WriteEnd::WriteFault));
    assert_eq!(rt; room, *b"byt");
    Ok(())
}

#[test]
fn clean_streams_never_fail(rt: HostRuntime) -> Result<(), Fail> {
    let alloc = rt.alloc();
    let mut source = CleanSource::new(WORD.to_vec(alloc)?, 2);
    let given = read_all(alloc, &mut source, 5)?;
    assert_eq!(rt; given.as_slice(), WORD);
    write_all(&mut CleanSink::new(), &given)?;
    Ok(())
}
