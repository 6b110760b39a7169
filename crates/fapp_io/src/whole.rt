// Reading all that is left, and writing the whole of a piece.
ghost use Rattle.std.specs.Prelude.{◌≡◌, ◌<◌};
ghost use Rattle.fapp_io.specs.declared.whole.ReadEnd.TheVariants.{ReadFault, NoMemory};
ghost use Rattle.fapp_io.specs.declared.whole.WriteEnd.TheVariants.{WriteFault};
ghost use Rattle.fapp_io.specs.Ends.{read_end_number, write_end_number};
ghost use Rattle.fapp_io.specs.Whole.{ReadsAll, WritesAll};

use crate::sink::Sink;
use crate::source::{Failed, Source};
use std::alloc::{AllocError, Global};
use thiserror::Error;

/// The most bytes that a read is offered room for.
const PIECE: usize = 4096;

/// Why `read_all` gave nothing.
#[derive(Clone, Copy, Debug, Error, PartialEq, Eq)]
pub enum ReadEnd {
    /// The source failed. Its count of faults rose in the call, or stands at its last value.
    #[error("the source failed")]
    ReadFault = 1,
    /// The source gave more bytes than the limit.
    #[error("there are more bytes than the limit")]
    TooLong = 2,
    /// There was no memory for the bytes.
    #[error("there was no memory")]
    NoMemory = 3,
}

impl ReadEnd {
    /// Its number, from 1.
    pub fn number(self) -> u8
        ensures { result ≡ read_end_number self }
    {
        self as u8
    }
}

impl From<Failed> for ReadEnd {
    ghost from_gives = { λ _ end. end ≡ ReadFault };

    fn from(_: Failed) -> Self {
        ReadEnd::ReadFault
    }
}

impl From<AllocError> for ReadEnd {
    ghost from_gives = { λ _ end. end ≡ NoMemory };

    fn from(_: AllocError) -> Self {
        ReadEnd::NoMemory
    }
}

/// Why `write_all` did not write the whole.
#[derive(Clone, Copy, Debug, Error, PartialEq, Eq)]
pub enum WriteEnd {
    /// The sink failed. Its count of faults rose in the call, or stands at its last value.
    #[error("the sink failed")]
    WriteFault = 1,
}

impl WriteEnd {
    /// Its number, from 1.
    pub fn number(self) -> u8
        ensures { result ≡ write_end_number self }
    {
        self as u8
    }
}

impl From<Failed> for WriteEnd {
    ghost from_gives = { λ _ end. end ≡ WriteFault };

    fn from(_: Failed) -> Self {
        WriteEnd::WriteFault
    }
}

/// All the bytes that the source has left, if they are at most `limit`. Else it takes one byte more
/// than that, and answers `TooLong`. After each error what was taken is a front of what was left.
pub fn read_all<S: Source>(alloc: Global, source: &mut S, limit: usize) -> Result<Vec<u8>, ReadEnd>
    requires { limit < usize.MAX }
    ensures { ReadsAll (S.moment source.old) (S.moment source.new) limit result }
{
    let mut bytes = Vec::new(alloc);
    let mut buffer = [0; PIECE];
    'pieces: loop {
        let room = PIECE.min(limit + 1 - bytes.len());
        let count = source.read(&mut buffer[..room])?;
        if count == 0 {
            return Ok(bytes);
        }
        if count > limit - bytes.len() {
            return Err(ReadEnd::TooLong);
        }
        bytes.extend_from_slice(&buffer[..count])?;
    }
}

/// Writes the whole piece, or fails after a front of it, short of the whole. An empty piece is
/// written by no call.
pub fn write_all<K: Sink>(sink: &mut K, piece: &[u8]) -> Result<(), WriteEnd>
    ensures { WritesAll (K.moment sink.old) (K.moment sink.new) piece.now result }
{
    let mut rest = piece;
    'pieces: while !rest.is_empty() {
        let count = sink.write(rest)?;
        rest = &rest[count..];
    }
    Ok(())
}
