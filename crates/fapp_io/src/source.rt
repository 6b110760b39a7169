// What is read from.
ghost use Rattle.std.specs.Prelude.{◌<◌, length};
ghost use Rattle.fapp_io.specs.Moments.{SourceMoment};
ghost use Rattle.fapp_io.specs.Source.{ReadsBytes};

use thiserror::Error;

/// A call of a source or a sink that failed.
#[derive(Clone, Copy, Debug, Error, PartialEq, Eq)]
#[error("a call of a source or a sink failed")]
pub struct Failed;

/// Gives bytes, piece by piece, and counts its faults.
pub trait Source {
    /// The bytes that are left, or `None` where the source does not tell them, and how often it has
    /// failed. This count never falls.
    ghost moment: { Self → SourceMoment };

    /// Puts the next bytes into the front of the buffer, and answers how many. Where the source
    /// tells its bytes, it is none exactly at the end. A call that failed took nothing.
    fn read(&mut self, buf: &mut [u8]) -> Result<usize, Failed>
        requires { 0 < length buf.old }
        ensures { ReadsBytes (moment self.old) (moment self.new) buf.new result };
}
